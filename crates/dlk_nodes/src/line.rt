use dlk_rules::Step;
use dlk_store::Id;

/// What a line of a file of version 2 says, behind its first.
#[derive(Drop, Debug)]
pub enum Line2 {
    /// A new node with its number.
    Node { number: u32, id: Id },
    /// A step with its number.
    Step { number: u32, step: Step },
    /// `done`: no line comes after it.
    Done,
}
