//! The calculus: uniform substitution, sequents, rules, provables, and which of them are derived. Definitions, and their laws.
#![tactic(auto)]

mod form;
pub mod laws;
mod limits;
mod reason;
mod why;

pub use form::AxiomForm;
pub use limits::{GREATEST_DEPTH, MOST_FORMULAS, MOST_GOALS, MOST_LEAVES, MOST_NODES, MOST_ROWS};
pub use reason::Reason;
pub use why::Why;
