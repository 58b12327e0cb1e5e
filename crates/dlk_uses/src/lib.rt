//! Axioms at inner positions: the steps that each form of an axiom asks for, the law that what they merge fits, the formula at a
//! place, and steps taken in turn.
#![tactic(auto)]

mod formula;
mod in_turn;
mod laws;

pub use formula::formula_at;
pub use in_turn::take_in_turn;
pub use laws::{boxes_fit, goals_fit, uses_fit, uses_have_shapes, uses_rename_few};
