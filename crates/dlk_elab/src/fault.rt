ghost use Rattle.std.specs.Prelude.{◌≡◌};
ghost use Rattle.dlk_elab.specs.declared.fault.TacFault.TheVariants.{Memory};
ghost use Rattle.dlk_elab.specs.Ties.{of_step};

use dlk_calculus::Reason;
use dlk_kernel::StepFault;
use dlk_store::StoreFault;
use std::alloc::{AllocError, AllocFailed};
use thiserror::Error;

/// Why a strategy fails.
#[derive(Clone, Copy, Debug, PartialEq, Eq)]
pub enum FailWhy {
    /// A branch has another number of parts than there are goals.
    WrongCount,
    /// An atom uses an axiom, and none has the name.
    UnknownName,
    /// A place or a path isn't there, a locator's side is empty, or the atom doesn't act there: on this side, or with this path.
    NoPlace,
    /// The axiom doesn't match what stands at the place, or may not be used there; or a `( )'` for `derive` has no derivative.
    NoMatch,
    /// The kernel doesn't take a step; or none is asked for, where no formula is on both sides, or no box or no `( )'` at the place.
    Step(Reason),
}

/// Why an atom gave no steps.
#[derive(Clone, Copy, Debug, PartialEq, Eq, Error)]
pub enum TacFault {
    /// No axiom has the name.
    #[error("no axiom has the name")]
    UnknownName,
    /// A place or a path isn't there, or the atom doesn't act there.
    #[error("a place is not there")]
    NoPlace,
    /// The axiom doesn't match what stands at the place, or may not be used there.
    #[error("the axiom does not match")]
    NoMatch,
    /// The kernel did not take a step, or none was asked for, for this reason.
    #[error("refused: {0:?}")]
    Step(Reason),
    #[error("out of memory")]
    Memory,
}

impl From<AllocError> for TacFault {
    ghost from_gives = { λ _ e. e ≡ Memory };

    fn from(_: AllocError) -> TacFault {
        TacFault::Memory
    }
}

impl<T: Drop> From<AllocFailed<T>> for TacFault {
    ghost from_gives = { λ _ e. e ≡ Memory };

    fn from(_: AllocFailed<T>) -> TacFault {
        TacFault::Memory
    }
}

impl From<StoreFault> for TacFault {
    ghost from_gives = { λ _ e. e ≡ Memory };

    fn from(_: StoreFault) -> TacFault {
        TacFault::Memory
    }
}

impl From<StepFault> for TacFault {
    ghost from_gives = { λ why e. e ≡ of_step why };

    fn from(why: StepFault) -> TacFault {
        match why {
            StepFault::Refused(reason) => TacFault::Step(reason),
            StepFault::Memory => TacFault::Memory,
        }
    }
}
