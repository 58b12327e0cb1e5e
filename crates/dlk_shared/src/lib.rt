//! A store that keeps each tree once.
#![tactic(auto)]

mod kids;
mod listed;
mod node;
mod rows;
mod sets;
mod shape;
mod signs;
mod store;
mod together;

pub use store::SharedStore;
