//! Why a text was not printed whole.
ghost use Rattle.std.specs.Prelude.{◌≡◌};
ghost use Rattle.dlk_print.specs.declared.fault.PrintFault.TheVariants.{Memory};

use std::alloc::{AllocError, AllocFailed};
use thiserror::Error;

/// Why a text was not printed whole.
#[derive(Clone, Copy, Debug, PartialEq, Eq, Error)]
pub enum PrintFault {
    /// No memory is left. A front of the text was appended.
    #[error("no memory is left")]
    Memory,
}

impl From<AllocError> for PrintFault {
    ghost from_gives = { λ _ e. e ≡ Memory };

    fn from(_: AllocError) -> PrintFault {
        PrintFault::Memory
    }
}

impl<T: Drop> From<AllocFailed<T>> for PrintFault {
    ghost from_gives = { λ _ e. e ≡ Memory };

    fn from(_: AllocFailed<T>) -> PrintFault {
        PrintFault::Memory
    }
}
