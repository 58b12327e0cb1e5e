//! What the program answers to its words and to the texts of its inputs. It reads and writes nothing.
#![tactic(auto)]

mod answer;
pub mod laws;

pub use answer::{respond, words_refused};
