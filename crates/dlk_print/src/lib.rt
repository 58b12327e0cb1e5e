//! Canonical text of trees, sequents, substitutions, variables and symbols, appended piece by piece.
#![tactic(auto)]

mod appending;
mod fault;
mod number;
mod pairs;
mod printing;
mod sequent;
mod style;
mod symbol;

pub use appending::append;
pub use fault::PrintFault;
pub use number::{append_decimal, append_number};
pub use pairs::pairs_text;
pub use printing::text;
pub use sequent::sequent_text;
pub use symbol::{symbol_text, variable_text};
