//! Sequents, paths and substitutions over the ids of a store.
#![tactic(auto)]

mod arithmetic;
mod extra;
mod fault;
mod formula;
pub mod laws;
mod listed;
mod path;
mod same;
mod sequent;
mod shared;
mod spine;
mod subst;
mod symbols;
mod well_formed;
mod why;

pub use arithmetic::{is_arith, is_comparison};
pub use dlk_calculus::Why;
pub use extra::Extra;
pub use fault::{ApplyFault, PutFault, SubstFault};
pub use formula::{is_formula, is_sequent};
pub use listed::{Listed, item_at};
pub use path::{put, subtree};
pub use same::same_sequent;
pub use sequent::{Place, Sequent};
pub use shared::{Shared, shared_each};
pub use spine::{Innermost, Spine, Turn};
pub use subst::{Pair, Subst, SubstOf};
