// Why no model is generated.
ghost use Rattle.std.specs.Prelude.{◌≡◌};
ghost use Rattle.dlk_library.specs.declared.fault.GenFault.TheVariants.{Memory};

use std::alloc::{AllocError, AllocFailed};
use thiserror::Error;

/// Why no model and no strategy were generated.
#[derive(Clone, Copy, Debug, PartialEq, Eq, Error)]
pub enum GenFault {
    #[error("out of memory")]
    Memory,
}

impl From<AllocError> for GenFault {
    ghost from_gives = { λ _ e. e ≡ Memory };

    fn from(_: AllocError) -> GenFault {
        GenFault::Memory
    }
}

impl<T: Drop> From<AllocFailed<T>> for GenFault {
    ghost from_gives = { λ _ e. e ≡ Memory };

    fn from(_: AllocFailed<T>) -> GenFault {
        GenFault::Memory
    }
}
