//! Uniform substitution with a table of results, over any store.
#![tactic(auto)]

mod binder;
mod filling;
mod kids;
mod memo;
mod near;
mod plugging;
mod results;
mod rule;
mod substituting;
mod walk;

pub use dlk_sequent::{ApplyFault, Pair, Subst, SubstFault, SubstOf, Why};
pub use memo::{apply, apply_of};
