//! Guarded proofs: whether every line of a term keeps to where the axioms are right over the reals.
#![tactic(auto)]

mod conditions;
mod contexts;
mod guard;
mod laws;
mod parts;
mod raw;
mod smooth;
mod watcher;
mod why;

pub use guard::{Guard, Refusal};
pub use laws::{
    equal_by_test, first_or_guarded, guarded_without_names, smooth_without_variables,
    verdict_is_first,
};
pub use raw::RawAxiom;
pub use watcher::{Unwatched, Watcher};
pub use why::Why;
