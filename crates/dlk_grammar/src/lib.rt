//! Texts: their tokens, their grammar, and the canonical text of a tree. Definitions, and their laws.
#![tactic(auto)]

pub mod laws;
mod token;

pub use token::{Dots, Form, Infix, Mark, Token, TokenKind};
