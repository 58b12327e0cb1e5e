//! Tests of the crates below the commands, each by its own calls.
#![tactic(auto)]

#[cfg(test)]
mod tests;
