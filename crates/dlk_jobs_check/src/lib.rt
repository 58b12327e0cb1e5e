//! What the commands answer that replay a term: `check`, `report`, `smt` and `guard`.
#![tactic(auto)]

pub mod check;
pub mod guard;
pub mod laws;
mod smt;
mod summary;
pub mod term;
