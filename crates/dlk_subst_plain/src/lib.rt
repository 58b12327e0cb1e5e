//! Uniform substitution by plain recursion, over any store: what tests compare with.
#![tactic(auto)]

mod fill;
mod plug;
mod subst;

pub use dlk_sequent::{ApplyFault, Pair, Subst, SubstFault, Why};
pub use subst::apply;
