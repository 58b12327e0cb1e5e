//! What the commands answer that make a term of others: `convert`, `link` and `trim`.
#![tactic(auto)]

pub mod convert;
pub mod laws;
pub mod link;
mod taken;
pub mod trim;
