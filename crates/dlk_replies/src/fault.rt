// Why there is no answer: memory ran out.
ghost use Rattle.std.specs.Prelude.{◌≡◌};
ghost use Rattle.dlk_replies.specs.declared.fault.NoReply.TheVariants.{Memory};

use dlk_print::PrintFault;
use dlk_store::StoreFault;
use std::alloc::{AllocError, AllocFailed};
use thiserror::Error;

/// Why there is no reply.
#[derive(Clone, Copy, Debug, PartialEq, Eq, Error)]
pub enum NoReply {
    #[error("out of memory")]
    Memory,
}

impl From<AllocError> for NoReply {
    ghost from_gives = { λ _ e. e ≡ Memory };

    fn from(_: AllocError) -> NoReply {
        NoReply::Memory
    }
}

impl<T: Drop> From<AllocFailed<T>> for NoReply {
    ghost from_gives = { λ _ e. e ≡ Memory };

    fn from(_: AllocFailed<T>) -> NoReply {
        NoReply::Memory
    }
}

impl From<StoreFault> for NoReply {
    ghost from_gives = { λ _ e. e ≡ Memory };

    fn from(_: StoreFault) -> NoReply {
        NoReply::Memory
    }
}

impl From<PrintFault> for NoReply {
    ghost from_gives = { λ _ e. e ≡ Memory };

    fn from(_: PrintFault) -> NoReply {
        NoReply::Memory
    }
}
