//! Differentiation on rows: the plan of `derive` is taken step by step, up to the steps of the strategy's atoms.
#![tactic(auto)]

mod laws;

pub use laws::derivative_is_reached;
