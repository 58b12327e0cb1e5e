//! Proofs put together and cut down: one list of steps as a lemma in another, and a list without what its last row doesn't need.
#![tactic(auto)]

mod copies;
mod fault;
mod key;
mod laws;
mod linking;
mod needed;
mod taking;
mod trimming;

pub use copies::copied;
pub use fault::LinkFault;
pub use laws::{
    linked_is_joined, moved_steps, neat_is_trimmed, one_linked, one_trimmed, trimmed_is_neat,
    trimmed_is_taken,
};
pub use linking::link;
pub use trimming::trim;
