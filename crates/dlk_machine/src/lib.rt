//! The machine that reads the grammar token by token, in the model, and the laws of reading.
#![tactic(auto)]

pub mod laws;
