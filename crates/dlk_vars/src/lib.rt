//! Sets of variables: a table that numbers variables in order of first use, and sets of numbers as rows of bits with a flag
//! for all variables past the row's end.
#![tactic(auto)]

mod fault;
mod lanes;
mod laws;
mod same;
mod set;
mod table;

pub use fault::VarFault;
pub use laws::{number_stays, one_variable, same_rows, set_stays};
pub use set::VarSet;
pub use table::{VarNo, VarTable};
