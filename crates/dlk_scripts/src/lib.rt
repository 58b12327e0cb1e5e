//! Texts of strategies: their grammar over bytes, and their parts.
#![tactic(auto)]

mod bytes;
mod fault;
pub mod laws;
mod listed;
mod mode;
mod part;
mod splitting;
mod state;
mod table;

pub use fault::PartsFault;
pub use part::{Part, PartKind, Quoted};
pub use splitting::parts;
