//! Derivatives: the uses of axioms by which a `( )'` comes to be what it stands for.
#![tactic(auto)]

mod calls;
mod derivable;
mod fault;
pub mod laws;
mod planning;

pub use fault::DeriveFault;
pub use planning::plan;
