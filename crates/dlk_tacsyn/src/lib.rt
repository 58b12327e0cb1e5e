//! The strategy language: its trees, its atoms, and the reading of its texts.
#![tactic(auto)]

mod argument;
mod atom;
mod fault;
mod frame;
mod kind;
pub mod laws;
mod reader;
mod reading;
mod tactic;

pub use dlk_sequent::Place;
pub use fault::TacSyntax;
pub use kind::Kind;
pub use reading::strategy;
pub use tactic::{Arg, Atom, Tactic};
