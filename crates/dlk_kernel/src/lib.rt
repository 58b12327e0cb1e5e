//! The kernel: provables that it alone makes, each by a step of the calculus.
#![tactic(auto)]

mod axioms;
mod fault;
mod goals;
mod kernel;
mod leaves;
mod limits;
mod named;
mod named_rules;
mod renaming;
mod row;
mod steps;
mod substituting;

pub use dlk_calculus::Reason;
pub use dlk_rules::{Rule, Step};
pub use fault::StepFault;
pub use kernel::{Fact, Kernel};
