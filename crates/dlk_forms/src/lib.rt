//! Reads expressions, sequents, substitutions and extras lexeme by lexeme.
#![tactic(auto)]

mod dots;
mod expressions;
mod extras;
mod pair_heads;
mod pairs;
mod reading;
mod sides;
mod trees;

pub use extras::ExtraCode;
pub use pairs::PairsCode;
pub use reading::{read_extra, read_pairs, read_sides, read_tree};
pub use sides::SidesCode;
