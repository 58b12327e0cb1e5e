//! The library: names that stand for strategies; and what `gen` makes.
#![tactic(auto)]

mod calls;
mod expanding;
mod fault;
mod generating;
pub mod laws;
mod parts;
mod rows;

pub use expanding::{expand, expanded};
pub use fault::GenFault;
pub use generating::generate;
