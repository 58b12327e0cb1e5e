//! Whole inputs and outputs over a desk, which moves a few bytes at a time.
#![tactic(auto)]

mod transfer;

pub use transfer::{ReadError, print_all, read_all, write_all};
