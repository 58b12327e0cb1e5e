//! What the commands answer that take expressions and no proof: `print`, `vars` and `subst`.
#![tactic(auto)]

pub mod laws;
pub mod print;
pub mod subst;
pub mod vars;
