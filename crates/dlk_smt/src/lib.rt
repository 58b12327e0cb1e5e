//! Sequents of arithmetic as SMT-LIB text, for a solver: the script of one, and one script of several.
#![tactic(auto)]

mod collected;
mod fault;
pub mod laws;
mod leaf;
mod power;
mod script;
mod symbol;
mod translation;

pub use fault::{LeavesFault, SmtFault};
pub use leaf::{leaf_text, leaves_text};
