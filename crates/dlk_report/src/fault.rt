ghost use Rattle.std.specs.Prelude.{◌≡◌};
ghost use Rattle.dlk_report.specs.declared.fault.ReportFault.TheVariants.{Memory};

use dlk_print::PrintFault;
use std::alloc::{AllocError, AllocFailed};
use thiserror::Error;

/// Why a report was not made.
#[derive(Clone, Copy, Debug, PartialEq, Eq, Error)]
pub enum ReportFault {
    #[error("out of memory")]
    Memory,
}

impl From<AllocError> for ReportFault {
    ghost from_gives = { λ _ e. e ≡ Memory };

    fn from(_: AllocError) -> ReportFault {
        ReportFault::Memory
    }
}

impl<T: Drop> From<AllocFailed<T>> for ReportFault {
    ghost from_gives = { λ _ e. e ≡ Memory };

    fn from(_: AllocFailed<T>) -> ReportFault {
        ReportFault::Memory
    }
}

impl From<PrintFault> for ReportFault {
    ghost from_gives = { λ _ e. e ≡ Memory };

    fn from(_: PrintFault) -> ReportFault {
        ReportFault::Memory
    }
}
