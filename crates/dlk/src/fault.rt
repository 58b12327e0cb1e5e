// Why there is no answer: an input could not be read, or memory ran out.
ghost use Rattle.std.specs.Prelude.{◌≡◌};

use dlk_replies::NoReply;
use dlk_transfer::ReadError;
use thiserror::Error;

/// Why nothing was answered.
#[derive(Clone, Copy, Debug, PartialEq, Eq, Error)]
pub enum NoAnswer {
    #[error("an input could not be read")]
    Fault,
    #[error("out of memory")]
    Memory,
}

impl From<ReadError> for NoAnswer {
    ghost use Rattle.dlk.specs.NoAnswers.{read_error};

    ghost from_gives = { λ error e. e ≡ read_error error };

    fn from(error: ReadError) -> NoAnswer {
        match error {
            ReadError::Memory => NoAnswer::Memory,
            ReadError::Fault => NoAnswer::Fault,
        }
    }
}

impl From<NoReply> for NoAnswer {
    ghost use Rattle.dlk.specs.declared.fault.NoAnswer.TheVariants.{Memory};

    ghost from_gives = { λ _ e. e ≡ Memory };

    fn from(_: NoReply) -> NoAnswer {
        NoAnswer::Memory
    }
}
