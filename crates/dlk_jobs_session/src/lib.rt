//! What `session` answers: strategies run line by line on chosen goals.
#![tactic(auto)]

pub mod laws;
mod playing;
mod runner;
mod script;
pub mod session;

pub use runner::Strategies;
