ghost use Rattle.std.specs.Prelude.{◌≡◌};
ghost use Rattle.dlk_strategy.specs.declared.fault.RunFault.TheVariants.{Memory};
ghost use Rattle.dlk_strategy.specs.Whys.{of_atom, of_plan};

use dlk_calculus::Reason;
use dlk_derive::DeriveFault;
use dlk_elab::{FailWhy, TacFault};
use dlk_store::StoreFault;
use std::alloc::{AllocError, AllocFailed};
use thiserror::Error;

/// Why a run ended without a proof.
#[derive(Clone, Copy, Debug, PartialEq, Eq, Error)]
pub enum RunFault {
    /// The strategy fails, at a byte of its text.
    #[error("fails at {at}: {why:?}")]
    Fails { at: usize, why: FailWhy },
    /// The 16,001st run of an atom would start at this byte.
    #[error("budget at {at}")]
    Budget { at: usize },
    #[error("out of memory")]
    Memory,
}

impl From<AllocError> for RunFault {
    ghost from_gives = { λ _ e. e ≡ Memory };

    fn from(_: AllocError) -> RunFault {
        RunFault::Memory
    }
}

impl<T: Drop> From<AllocFailed<T>> for RunFault {
    ghost from_gives = { λ _ e. e ≡ Memory };

    fn from(_: AllocFailed<T>) -> RunFault {
        RunFault::Memory
    }
}

impl From<StoreFault> for RunFault {
    ghost from_gives = { λ _ e. e ≡ Memory };

    fn from(_: StoreFault) -> RunFault {
        RunFault::Memory
    }
}

/// The fault of a run of an atom at this byte.
pub(crate) fn of_atom(at: usize, fault: TacFault) -> RunFault
    ensures { result ≡ of_atom at fault }
{
    let why = match fault {
        TacFault::UnknownName => FailWhy::UnknownName,
        TacFault::NoPlace => FailWhy::NoPlace,
        TacFault::NoMatch => FailWhy::NoMatch,
        TacFault::Step(reason) => FailWhy::Step(reason),
        TacFault::Memory => return RunFault::Memory,
    };
    RunFault::Fails { at, why }
}

/// The fault of a run of `derive` at this byte, where it has no plan.
pub(crate) fn of_plan(at: usize, fault: DeriveFault) -> RunFault
    ensures { result ≡ of_plan at fault }
{
    let why = match fault {
        DeriveFault::NoPlace => FailWhy::NoPlace,
        DeriveFault::WrongShape => FailWhy::Step(Reason::WrongShape),
        DeriveFault::NoMatch => FailWhy::NoMatch,
        DeriveFault::Memory => return RunFault::Memory,
    };
    RunFault::Fails { at, why }
}
