//! Splits bytes into tokens.
#![tactic(auto)]

mod bytes;
mod copies;
mod fault;
mod front;
mod marks;
mod noted;
mod numbers;
mod source;
mod splitting;

pub use dlk_grammar::{Mark, Token, TokenKind};
pub use fault::LexFault;
pub use source::{Origin, Source};
pub use splitting::tokens;
