ghost use Rattle.std.specs.Prelude.{◌≡◌};
ghost use Rattle.dlk_tacsyn.specs.declared.fault.TacSyntax.TheVariants.{Memory};
ghost use Rattle.dlk_tacsyn.specs.Faults.{of_parts};

use dlk_scripts::PartsFault;
use std::alloc::{AllocError, AllocFailed};
use thiserror::Error;

/// Why a text was not read as a strategy. `Syntax` is about the grammar of strategies. The four that follow are looked for in a
/// text of the grammar alone, and the first in the text is answered.
#[derive(Clone, Copy, Debug, PartialEq, Eq, Error)]
pub enum TacSyntax {
    /// The first byte at which no text of the grammar goes on, which is the length of the text where it is the end.
    #[error("no strategy goes on at byte {at}")]
    Syntax { at: usize },
    /// The bracket at this byte, round a strategy or of a branch, opens level 65.
    #[error("the bracket at byte {at} is nested too deeply")]
    Nesting { at: usize },
    /// The number of a repeat at this byte is above 1,000.
    #[error("the number of a repeat at byte {at} is above 1000")]
    Repeat { at: usize },
    /// The name of an atom at this byte isn't known.
    #[error("the name at byte {at} is that of no atom")]
    UnknownAtom { at: usize },
    /// The atom whose name is at this byte has arguments of the wrong number or kinds, or a quoted text among them isn't read.
    #[error("the arguments of the atom at byte {at} are not those that it wants")]
    Arguments { at: usize },
    #[error("out of memory")]
    Memory,
}

impl From<AllocError> for TacSyntax {
    ghost from_gives = { λ _ e. e ≡ Memory };

    fn from(_: AllocError) -> TacSyntax {
        TacSyntax::Memory
    }
}

impl<T: Drop> From<AllocFailed<T>> for TacSyntax {
    ghost from_gives = { λ _ e. e ≡ Memory };

    fn from(_: AllocFailed<T>) -> TacSyntax {
        TacSyntax::Memory
    }
}

impl From<PartsFault> for TacSyntax {
    ghost from_gives = { λ fault e. e ≡ of_parts fault };

    fn from(fault: PartsFault) -> TacSyntax {
        match fault {
            PartsFault::Syntax { at } => TacSyntax::Syntax { at },
            PartsFault::Memory => TacSyntax::Memory,
        }
    }
}
