//! Runs strategies.
#![tactic(auto)]

mod atoms;
mod derivation;
mod fault;
mod laws;
mod on_goal;
mod running;
mod strategy;
mod trace;

pub use dlk_elab::{FailWhy, More, OnFault};
pub use fault::RunFault;
pub use laws::{
    derive_differentiates, derive_runs_as_sequence, model_runs_on_goal, one_outcome,
    one_outcome_on, run_has_symbols, run_ignores_steps, run_is_taken, run_on_has_room,
    run_on_has_symbols, run_on_is_counted, run_on_is_taken, run_on_keeps_conclusion,
    run_shows_formula, some_outcome, some_outcome_on,
};
pub use on_goal::run_on;
pub use strategy::{Done, run_strategy};
