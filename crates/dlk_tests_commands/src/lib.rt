//! Tests of what each command answers.
#![tactic(auto)]

#[cfg(test)]
mod tests;
