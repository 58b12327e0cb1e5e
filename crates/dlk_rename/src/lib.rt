//! Renaming, over any store: two names exchanged in a tree, and another name for a bound variable.
#![tactic(auto)]

mod binder;
mod exchange;
mod fault;
mod fresh;

pub use binder::bound;
pub use exchange::swap;
pub use fault::RenameFault;
