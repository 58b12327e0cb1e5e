//! What goes wrong with substitutions, and where a tree is put into another one.
ghost use Rattle.std.specs.Prelude.{◌≡◌};
ghost use Rattle.dlk_sequent.specs.declared.fault.SubstFault.TheVariants as SubstFault';
ghost use Rattle.dlk_sequent.specs.declared.fault.ApplyFault.TheVariants as ApplyFault';
ghost use Rattle.dlk_sequent.specs.declared.fault.PutFault.TheVariants as PutFault';

use dlk_calculus::Why;
use dlk_store::StoreFault;
use std::alloc::{AllocError, AllocFailed};
use thiserror::Error;

/// Why pairs make no substitution.
#[derive(Clone, Copy, Debug, PartialEq, Eq, Error)]
pub enum SubstFault {
    /// The first bad pair, counted from 1, and the first reason against it.
    #[error("pair {pair} is not well formed")]
    Ill { pair: usize, why: Why },
    /// No memory was left.
    #[error("out of memory")]
    Memory,
}

impl From<AllocError> for SubstFault {
    ghost from_gives = { λ _ e. e ≡ SubstFault'.Memory };

    fn from(_: AllocError) -> SubstFault {
        SubstFault::Memory
    }
}

impl<T: Drop> From<AllocFailed<T>> for SubstFault {
    ghost from_gives = { λ _ e. e ≡ SubstFault'.Memory };

    fn from(_: AllocFailed<T>) -> SubstFault {
        SubstFault::Memory
    }
}

/// Why a substitution made no tree.
#[derive(Clone, Copy, Debug, PartialEq, Eq, Error)]
pub enum ApplyFault {
    /// The substitution makes no tree of this one.
    #[error("the substitution is not admissible")]
    NotAdmissible,
    /// No memory was left.
    #[error("out of memory")]
    Memory,
}

impl From<AllocError> for ApplyFault {
    ghost from_gives = { λ _ e. e ≡ ApplyFault'.Memory };

    fn from(_: AllocError) -> ApplyFault {
        ApplyFault::Memory
    }
}

impl<T: Drop> From<AllocFailed<T>> for ApplyFault {
    ghost from_gives = { λ _ e. e ≡ ApplyFault'.Memory };

    fn from(_: AllocFailed<T>) -> ApplyFault {
        ApplyFault::Memory
    }
}

impl From<StoreFault> for ApplyFault {
    ghost from_gives = { λ _ e. e ≡ ApplyFault'.Memory };

    fn from(_: StoreFault) -> ApplyFault {
        ApplyFault::Memory
    }
}

/// Why a tree was not put at a path.
#[derive(Clone, Copy, Debug, PartialEq, Eq, Error)]
pub enum PutFault {
    /// The path leaves the tree.
    #[error("the path leaves the tree")]
    NoPlace,
    /// The new tree is of another sort than the one at the path.
    #[error("the sorts differ")]
    WrongSort,
    /// No memory was left.
    #[error("out of memory")]
    Memory,
}

impl From<AllocError> for PutFault {
    ghost from_gives = { λ _ e. e ≡ PutFault'.Memory };

    fn from(_: AllocError) -> PutFault {
        PutFault::Memory
    }
}

impl<T: Drop> From<AllocFailed<T>> for PutFault {
    ghost from_gives = { λ _ e. e ≡ PutFault'.Memory };

    fn from(_: AllocFailed<T>) -> PutFault {
        PutFault::Memory
    }
}

impl From<StoreFault> for PutFault {
    ghost from_gives = { λ _ e. e ≡ PutFault'.Memory };

    fn from(_: StoreFault) -> PutFault {
        PutFault::Memory
    }
}
