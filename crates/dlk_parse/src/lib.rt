//! Reads terms, formulas, programs, sequents, substitutions and extras into a store.
#![tactic(auto)]

mod fault;
mod limits;
mod making;
mod measures;
mod owned;
mod readers;
mod texts;
mod tokens;

pub use dlk_grammar::{Dots, Form};
pub use fault::{ParseFault, TextFault};
pub use readers::{expression, extra, formula, program, sequent, substitution, term};
pub use texts::{
    read_expression, read_extra, read_formula, read_sequent, read_substitution, read_term,
};
