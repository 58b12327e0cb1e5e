//! Why reading ends before its end.
ghost use Rattle.std.specs.Prelude.{◌≡◌};
ghost use Rattle.dlk_reader.specs.Outcomes.{of_lex};
ghost use Rattle.dlk_reader.specs.declared.stop.LexemeFault.TheVariants.{Memory};

use dlk_lex::LexFault;
use std::alloc::{AllocError, AllocFailed};

/// Why a lexeme was not read.
#[derive(Clone, Copy)]
pub enum LexemeFault {
    Memory,
    /// No text of the grammar goes on with it.
    Syntax,
}

/// Why tokens were not read, and where.
#[derive(Clone, Copy)]
pub enum Stop {
    Memory,
    /// No token, space or whole comment begins at this byte.
    BadByte { at: usize },
    /// The byte of the first token at which no text of the grammar goes on, which may be the end.
    Syntax { at: usize },
}

impl From<AllocError> for LexemeFault {
    ghost from_gives = { λ _ e. e ≡ Memory };

    fn from(_: AllocError) -> LexemeFault {
        LexemeFault::Memory
    }
}

impl<T: Drop> From<AllocFailed<T>> for LexemeFault {
    ghost from_gives = { λ _ e. e ≡ Memory };

    fn from(_: AllocFailed<T>) -> LexemeFault {
        LexemeFault::Memory
    }
}

impl From<LexFault> for Stop {
    ghost from_gives = { λ fault e. e ≡ of_lex fault };

    fn from(fault: LexFault) -> Stop {
        match fault {
            LexFault::Memory => Stop::Memory,
            LexFault::BadByte { at } => Stop::BadByte { at },
        }
    }
}
