ghost use Rattle.std.specs.Prelude.{◌≡◌};
ghost use Rattle.dlk_link.specs.declared.fault.LinkFault.TheVariants.{Memory};
ghost use Rattle.dlk_link.specs.Faults.{link_fault_of};

use dlk_kernel::{Reason, StepFault};
use std::alloc::{AllocError, AllocFailed};
use thiserror::Error;

/// Why one proof isn't linked into another.
#[derive(Clone, Copy, Debug, PartialEq, Eq, Error)]
pub enum LinkFault {
    /// No goal is what the lemma concludes.
    #[error("no goal is the lemma's conclusion")]
    NoGoal,
    /// A step of the linked ones passes a limit.
    #[error("a linked step is refused: {0:?}")]
    Step(Reason),
    #[error("out of memory")]
    Memory,
}

impl From<AllocError> for LinkFault {
    ghost from_gives = { λ _ e. e ≡ Memory };

    fn from(_: AllocError) -> LinkFault {
        LinkFault::Memory
    }
}

impl<T: Drop> From<AllocFailed<T>> for LinkFault {
    ghost from_gives = { λ _ e. e ≡ Memory };

    fn from(_: AllocFailed<T>) -> LinkFault {
        LinkFault::Memory
    }
}

impl From<StepFault> for LinkFault {
    ghost from_gives = { λ why e. e ≡ link_fault_of why };

    fn from(why: StepFault) -> LinkFault {
        match why {
            StepFault::Refused(why) => LinkFault::Step(why),
            StepFault::Memory => LinkFault::Memory,
        }
    }
}
