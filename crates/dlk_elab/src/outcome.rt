//! What becomes of a goal of a kernel that has rows.
ghost use Rattle.std.specs.Prelude.{◌≡◌};
ghost use Rattle.dlk_elab.specs.declared.outcome.OnFault.TheVariants.{Memory};

use crate::fault::FailWhy;
use dlk_rules::Step;
use dlk_store::StoreFault;
use std::alloc::{AllocError, AllocFailed};
use thiserror::Error;

/// What a strategy made of a goal.
#[derive(Drop, Debug)]
pub struct More {
    /// The steps of the new rows, in order.
    pub steps: Vec<Step>,
    /// How many goals stand in the goal's place.
    pub count: u32,
    /// How many runs of atoms, and of `derive`, there were, those that failed and those of before included.
    pub used: u32,
}

/// Why a strategy made nothing of a goal.
#[derive(Clone, Copy, Debug, PartialEq, Eq, Error)]
pub enum OnFault {
    /// The strategy fails, at a byte of its text. There were so many runs of atoms, and of `derive`, those of before included.
    #[error("fails at {at}: {why:?}")]
    Fails { at: usize, why: FailWhy, used: u32 },
    /// The 16,001st run of an atom, or of `derive`, would start at this byte.
    #[error("budget at {at}")]
    Budget { at: usize },
    #[error("out of memory")]
    Memory,
}

impl From<AllocError> for OnFault {
    ghost from_gives = { λ _ e. e ≡ Memory };

    fn from(_: AllocError) -> OnFault {
        OnFault::Memory
    }
}

impl<T: Drop> From<AllocFailed<T>> for OnFault {
    ghost from_gives = { λ _ e. e ≡ Memory };

    fn from(_: AllocFailed<T>) -> OnFault {
        OnFault::Memory
    }
}

impl From<StoreFault> for OnFault {
    ghost from_gives = { λ _ e. e ≡ Memory };

    fn from(_: StoreFault) -> OnFault {
        OnFault::Memory
    }
}
