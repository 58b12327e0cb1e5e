ghost use Rattle.std.specs.Prelude.{◌≡◌};
ghost use Rattle.dlk_session.specs.declared.fault.SessionFault.TheVariants.{Memory};

use dlk_report::ReportFault;
use std::alloc::{AllocError, AllocFailed};
use thiserror::Error;

/// Why a session did not go on.
#[derive(Clone, Copy, Debug, PartialEq, Eq, Error)]
pub enum SessionFault {
    #[error("out of memory")]
    Memory,
}

impl From<AllocError> for SessionFault {
    ghost from_gives = { λ _ e. e ≡ Memory };

    fn from(_: AllocError) -> SessionFault {
        SessionFault::Memory
    }
}

impl<T: Drop> From<AllocFailed<T>> for SessionFault {
    ghost from_gives = { λ _ e. e ≡ Memory };

    fn from(_: AllocFailed<T>) -> SessionFault {
        SessionFault::Memory
    }
}

impl From<ReportFault> for SessionFault {
    ghost from_gives = { λ _ e. e ≡ Memory };

    fn from(_: ReportFault) -> SessionFault {
        SessionFault::Memory
    }
}
