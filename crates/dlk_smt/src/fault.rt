//! Why a sequent has no text for a solver.
ghost use Rattle.std.specs.Prelude.{◌≡◌};
ghost use Rattle.dlk_smt.specs.declared.fault.SmtFault.TheVariants.{Memory};
ghost use Rattle.dlk_smt.specs.declared.fault.LeavesFault.TheVariants as leaves;

use dlk_print::PrintFault;
use std::alloc::{AllocError, AllocFailed};
use thiserror::Error;

/// Why a sequent has no text for a solver.
#[derive(Clone, Copy, Debug, PartialEq, Eq, Error)]
pub enum SmtFault {
    /// A power has another exponent than a whole literal from 1 to 16.
    #[error("a power has another exponent than a whole number from 1 to 16")]
    Power,
    #[error("no memory is left")]
    Memory,
}

impl From<PrintFault> for SmtFault {
    ghost from_gives = { λ _ e. e ≡ Memory };

    fn from(_: PrintFault) -> SmtFault {
        SmtFault::Memory
    }
}

/// Why several leaves have no text for a solver.
#[derive(Clone, Copy, Debug, PartialEq, Eq, Error)]
pub enum LeavesFault {
    /// A power in this leaf, counted from 1, has another exponent than a whole literal from 1 to 16.
    #[error("a power in leaf {leaf} has another exponent than a whole number from 1 to 16")]
    Power { leaf: usize },
    #[error("no memory is left")]
    Memory,
}

impl From<PrintFault> for LeavesFault {
    ghost from_gives = { λ _ e. e ≡ leaves.Memory };

    fn from(_: PrintFault) -> LeavesFault {
        LeavesFault::Memory
    }
}
