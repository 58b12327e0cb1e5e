//! What a uniform substitution makes of one node, over any store: for walks of each kind.
#![tactic(auto)]

pub mod laws;
mod pairs;
mod plug;
mod scope;
mod seen;
mod splice;

pub use dlk_sequent::{ApplyFault, Pair};
pub use pairs::{Effect, effect_at, is_admissible, keep_admissible, keep_like};
pub use plug::{DotEffect, dot_effect_at, is_clear, plug_at, plug_like};
pub use scope::{Captures, Scope, captures_of};
pub use splice::splice_at;
