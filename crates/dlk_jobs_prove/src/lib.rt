//! What the commands answer that run a strategy and write the term that it makes: `prove`, and `gen`, which makes its texts itself.
#![tactic(auto)]

pub mod generate;
pub mod laws;
pub mod prove;
