//! Atoms of the strategy language as steps on a kernel.
#![tactic(auto)]

mod arguments;
mod boxes;
mod calls;
mod elaborating;
mod fault;
mod finishing;
mod forms;
mod instance;
mod keys;
mod laws;
mod outcome;
mod plan;
mod same;
mod spot;
mod symbols;
mod uses;
mod ways;

pub use elaborating::{Elaborated, elaborate};
pub use fault::{FailWhy, TacFault};
pub use laws::{
    atom_has_room, atom_has_symbols, atom_is_taken, atom_makes_few, atom_replaces_goal, merges_fit,
    one_atom, some_atom,
};
pub use outcome::{More, OnFault};
