use dlk_rules::Step;

/// What a line of a proof-term file of version 1 says.
#[derive(Drop, Debug)]
pub enum Line {
    /// A step with its number.
    Step { number: u32, step: Step },
    /// `done`: no step comes after it.
    Done,
}
