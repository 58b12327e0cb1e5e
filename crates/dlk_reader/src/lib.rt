//! Reads a term, a formula or a program lexeme by lexeme.
#![tactic(auto)]

mod closing;
mod code;
mod ends;
mod halves;
mod items;
mod kept;
mod lexeme;
mod operands;
mod parts;
mod reading;
mod stack;
mod statements;
mod step;
mod stop;
mod tables;

pub use code::Code;
pub use ends::Comma;
pub use halves::Halves;
pub use lexeme::Lexeme;
pub use parts::{Equations, Last, Mode, Tail};
pub use reading::{LexemeReader, read};
pub use stack::{Stack, one_more, variable};
pub use stop::{LexemeFault, Stop};
