//! The axioms and the axiomatic rules of the calculus, by their names (Platzer 2017, section on axioms). Each is one formula, or one
//! premise with its conclusion, over symbols for which a uniform substitution puts terms, formulas and programs.
#![tactic(auto)]

mod axioms;
mod lookup;
mod making;
mod names;
mod notation;
mod rules;
mod shape;
mod table;

pub use axioms::{axiom, form, own_names};
pub use dlk_calculus::AxiomForm;
pub use rules::axiomatic_rule;
