ghost use Rattle.std.specs.Prelude.{◌≡◌};
ghost use Rattle.dlk_derive.specs.declared.fault.DeriveFault.TheVariants.{Memory};

use dlk_store::StoreFault;
use std::alloc::{AllocError, AllocFailed};
use thiserror::Error;

/// Why a `( )'` isn't differentiated.
#[derive(Clone, Copy, Debug, PartialEq, Eq, Error)]
pub enum DeriveFault {
    /// The place or the path isn't there.
    #[error("the place is not there")]
    NoPlace,
    /// No `( )'` stands there.
    #[error("no differential stands there")]
    WrongShape,
    /// What is under the `( )'` has no derivative.
    #[error("it has no derivative")]
    NoMatch,
    #[error("out of memory")]
    Memory,
}

impl From<AllocError> for DeriveFault {
    ghost from_gives = { λ _ e. e ≡ Memory };

    fn from(_: AllocError) -> DeriveFault {
        DeriveFault::Memory
    }
}

impl<T: Drop> From<AllocFailed<T>> for DeriveFault {
    ghost from_gives = { λ _ e. e ≡ Memory };

    fn from(_: AllocFailed<T>) -> DeriveFault {
        DeriveFault::Memory
    }
}

impl From<StoreFault> for DeriveFault {
    ghost from_gives = { λ _ e. e ≡ Memory };

    fn from(_: StoreFault) -> DeriveFault {
        DeriveFault::Memory
    }
}
