ghost use Rattle.std.specs.Prelude.{◌≡◌};
ghost use Rattle.dlk_kernel.specs.declared.fault.StepFault.TheVariants.{Memory};
ghost use Rattle.dlk_kernel.specs.Faults.{fault_of, apply_fault_of};

use dlk_calculus::Reason;
use dlk_memo::ApplyFault;
use dlk_rules::RuleFault;
use dlk_store::StoreFault;
use std::alloc::{AllocError, AllocFailed};
use thiserror::Error;

/// Why a kernel did not take a step.
#[derive(Clone, Copy, Debug, PartialEq, Eq, Error)]
pub enum StepFault {
    /// It is no step of the calculus, or it passes a limit: the first reason against it.
    #[error("refused: {0:?}")]
    Refused(Reason),
    #[error("out of memory")]
    Memory,
}

impl From<AllocError> for StepFault {
    ghost from_gives = { λ _ e. e ≡ Memory };

    fn from(_: AllocError) -> StepFault {
        StepFault::Memory
    }
}

impl<T: Drop> From<AllocFailed<T>> for StepFault {
    ghost from_gives = { λ _ e. e ≡ Memory };

    fn from(_: AllocFailed<T>) -> StepFault {
        StepFault::Memory
    }
}

impl From<StoreFault> for StepFault {
    ghost from_gives = { λ _ e. e ≡ Memory };

    fn from(_: StoreFault) -> StepFault {
        StepFault::Memory
    }
}

impl From<RuleFault> for StepFault {
    ghost from_gives = { λ why e. e ≡ fault_of why };

    fn from(why: RuleFault) -> StepFault {
        match why {
            RuleFault::NoPlace => StepFault::Refused(Reason::NoPlace),
            RuleFault::WrongShape => StepFault::Refused(Reason::WrongShape),
            RuleFault::NotEqual => StepFault::Refused(Reason::NotEqual),
            RuleFault::NotFresh => StepFault::Refused(Reason::NotFresh),
            RuleFault::Memory => StepFault::Memory,
        }
    }
}

impl From<ApplyFault> for StepFault {
    ghost from_gives = { λ why e. e ≡ apply_fault_of why };

    fn from(why: ApplyFault) -> StepFault {
        match why {
            ApplyFault::NotAdmissible => StepFault::Refused(Reason::NotAdmissible),
            ApplyFault::Memory => StepFault::Memory,
        }
    }
}
