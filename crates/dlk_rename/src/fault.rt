ghost use Rattle.std.specs.Prelude.{◌≡◌};
ghost use Rattle.dlk_rename.specs.declared.fault.RenameFault.TheVariants.{Memory};

use dlk_store::StoreFault;
use std::alloc::{AllocError, AllocFailed};
use thiserror::Error;

/// Why a bound variable did not get another name, in the order in which it is looked for.
#[derive(Clone, Copy, Debug, PartialEq, Eq, Error)]
pub enum RenameFault {
    /// The formula is no `\forall x f`, `\exists x f`, `[x:=e;]f` or `<x:=e;>f`.
    #[error("the formula binds no variable that can have another name")]
    WrongShape,
    /// The name, its prime, or the prime of the bound variable is free in the body, or a symbol stands there that may read
    /// variables that aren't written with it.
    #[error("the name is not fresh")]
    NotFresh,
    #[error("out of memory")]
    Memory,
}

impl From<AllocError> for RenameFault {
    ghost from_gives = { λ _ e. e ≡ Memory };

    fn from(_: AllocError) -> RenameFault {
        RenameFault::Memory
    }
}

impl<T: Drop> From<AllocFailed<T>> for RenameFault {
    ghost from_gives = { λ _ e. e ≡ Memory };

    fn from(_: AllocFailed<T>) -> RenameFault {
        RenameFault::Memory
    }
}

impl From<StoreFault> for RenameFault {
    ghost from_gives = { λ _ e. e ≡ Memory };

    fn from(_: StoreFault) -> RenameFault {
        RenameFault::Memory
    }
}
