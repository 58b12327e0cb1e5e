//! The steps of a run as a term file, and the law that it is accepted.
#![tactic(auto)]

mod laws;
mod recording;

pub use laws::{nodes_are_fewer_than_bytes, recorded_is_accepted, taken_steps_are_writable};
pub use recording::{Recorded, record};
