//! Matching: with which names and replacements a tree is an instance of an axiom's key.
#![tactic(auto)]

mod abstraction;
mod found;
mod head;
mod instances;
mod laws;
mod members;
mod naming;
mod taking;
mod walk;

pub use abstraction::abstract_var;
pub use found::matching;
pub use instances::{
    axioms_have_own_names, exchanged_at_once, exchanged_over_kids, match_gives_target,
    match_is_proper, match_keeps_sort, nothing_replaced, plugged_back, subst_over_kids,
};
pub use laws::{one_match, some_match};
