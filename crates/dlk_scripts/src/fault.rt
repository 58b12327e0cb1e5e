ghost use Rattle.std.specs.Prelude.{◌≡◌};
ghost use Rattle.dlk_scripts.specs.declared.fault.PartsFault.TheVariants.{Memory};

use std::alloc::{AllocError, AllocFailed};
use thiserror::Error;

/// Why bytes are no text of a strategy.
#[derive(Clone, Copy, Debug, PartialEq, Eq, Error)]
pub enum PartsFault {
    /// The first byte at which no text of the grammar goes on. At the end of the bytes it is their number.
    #[error("at byte {at} no text of a strategy goes on")]
    Syntax { at: usize },
    #[error("out of memory")]
    Memory,
}

impl From<AllocError> for PartsFault {
    ghost from_gives = { λ _ e. e ≡ Memory };

    fn from(_: AllocError) -> PartsFault {
        PartsFault::Memory
    }
}

impl<T: Drop> From<AllocFailed<T>> for PartsFault {
    ghost from_gives = { λ _ e. e ≡ Memory };

    fn from(_: AllocFailed<T>) -> PartsFault {
        PartsFault::Memory
    }
}
