//! The lines of proof-term files of version 1: step lines whose trees are spelled in full.
#![tactic(auto)]

mod full;
mod laws;
mod line;
mod reading;
mod writing;

pub use dlk_lines::LineFault;
pub use laws::{one_line, some_line, steps_are_proper, written_line_is_read};
pub use line::Line;
pub use reading::read_line;
pub use writing::write_line;
