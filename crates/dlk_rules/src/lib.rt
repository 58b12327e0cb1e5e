//! The sequent rules and the steps of a proof, over the ids of a store.
#![tactic(auto)]

mod arguments;
mod closing;
mod connectives;
mod equivalences;
mod laws;
mod look;
mod made;
mod quantifiers;
mod rule;
mod step;
mod structural;

pub use arguments::{Arguments, Shape, Side};
pub use laws::{
    places_are_on_one_side, rule_is_its_word_and_arguments, step_stays, word_wants_one_shape,
};
pub use rule::{Rule, RuleFault, RuleWord, premises};
pub use step::Step;
