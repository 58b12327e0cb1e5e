ghost use Rattle.std.specs.Prelude.{◌≡◌};
ghost use Rattle.dlk_lines.specs.declared.fault.LineFault.TheVariants.{Memory};
ghost use Rattle.dlk_lines.specs.Read.{of_name};

use dlk_print::PrintFault;
use dlk_store::StoreFault;
use dlk_tree::NameFault;
use std::alloc::{AllocError, AllocFailed};
use thiserror::Error;

/// Why a line of a node or a step was not read or written.
#[derive(Clone, Copy, Debug, PartialEq, Eq, Error)]
pub enum LineFault {
    /// The bytes are no line of a proof-term file.
    #[error("the line has not the form of a node or a step")]
    Malformed,
    #[error("out of memory")]
    Memory,
}

impl From<AllocError> for LineFault {
    ghost from_gives = { λ _ e. e ≡ Memory };

    fn from(_: AllocError) -> LineFault {
        LineFault::Memory
    }
}

impl<T: Drop> From<AllocFailed<T>> for LineFault {
    ghost from_gives = { λ _ e. e ≡ Memory };

    fn from(_: AllocFailed<T>) -> LineFault {
        LineFault::Memory
    }
}

impl From<StoreFault> for LineFault {
    ghost from_gives = { λ _ e. e ≡ Memory };

    fn from(_: StoreFault) -> LineFault {
        LineFault::Memory
    }
}

impl From<PrintFault> for LineFault {
    ghost from_gives = { λ _ e. e ≡ Memory };

    fn from(_: PrintFault) -> LineFault {
        LineFault::Memory
    }
}

impl From<NameFault> for LineFault {
    ghost from_gives = { λ fault e. e ≡ of_name fault };

    fn from(fault: NameFault) -> LineFault {
        match fault {
            NameFault::NotAName => LineFault::Malformed,
            NameFault::Memory => LineFault::Memory,
        }
    }
}
