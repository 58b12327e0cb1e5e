//! Why a table or a set was not made.
ghost use Rattle.std.specs.Prelude.{◌≡◌};
ghost use Rattle.dlk_vars.specs.declared.fault.VarFault.TheVariants.{Memory};

use std::alloc::{AllocError, AllocFailed};
use thiserror::Error;

/// Why a variable was not numbered, or a set not made.
#[derive(Clone, Copy, Debug, PartialEq, Eq, Error)]
pub enum VarFault {
    #[error("out of memory")]
    Memory,
}

impl From<AllocError> for VarFault {
    ghost from_gives = { λ _ e. e ≡ Memory };

    fn from(_: AllocError) -> VarFault {
        VarFault::Memory
    }
}

impl<T: Drop> From<AllocFailed<T>> for VarFault {
    ghost from_gives = { λ _ e. e ≡ Memory };

    fn from(_: AllocFailed<T>) -> VarFault {
        VarFault::Memory
    }
}
