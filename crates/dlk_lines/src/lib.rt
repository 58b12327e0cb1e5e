//! Step lines of proof-term files, over the spelling of their trees.
#![tactic(auto)]

mod append;
mod arguments;
mod digits;
mod fault;
mod laws;
mod line;
mod parts;
mod rule;
mod spelled;
mod step;
mod writing;
mod writing_rule;

pub use append::append_number;
pub use digits::{number, number_before};
pub use fault::LineFault;
pub use laws::{
    done_is_no_step, one_step_line, some_step_line, steps_are_proper, written_line_is_read,
};
pub use line::{read_step_line, write_step_line};
pub use parts::{cut_at, place_of};
pub use spelled::{Spelled, Spells};
pub use step::read_step;
pub use writing::write_step;
