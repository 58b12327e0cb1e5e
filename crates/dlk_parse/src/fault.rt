ghost use Rattle.std.specs.Prelude.{◌≡◌};
ghost use Rattle.dlk_parse.specs.Faults.{of_parse, of_text};
ghost use Rattle.dlk_parse.specs.declared.fault.ParseFault.TheVariants.{Memory};
ghost use Rattle.dlk_parse.specs.declared.fault.TextFault.TheVariants.{Memory as TextMemory};

use dlk_store::StoreFault;
use std::alloc::{AllocError, AllocFailed};
use thiserror::Error;

/// Why tokens were not read. The first that applies is answered, in this order.
#[derive(Clone, Copy, Debug, PartialEq, Eq, Error)]
pub enum ParseFault {
    /// A literal has more than 38 digits as written; the byte of the first such.
    #[error("the literal at byte {at} has more than 38 digits")]
    Literal { at: usize },
    /// A bracket opens level 1,201; the byte of the first such.
    #[error("the bracket at byte {at} is nested too deeply")]
    Nesting { at: usize },
    /// The tokens are not in the grammar; the byte of the first token at which no text of the grammar goes on, which is the
    /// length of the text where it is the end.
    #[error("no text goes on at byte {at}")]
    Syntax { at: usize },
    /// An application has more than 8 arguments, or a system has more than 64 items or evolves a variable twice; the byte
    /// of the first token of the first such.
    #[error("what begins at byte {at} is of ill shape")]
    Shape { at: usize },
    /// A read tree has more than 65,536 nodes; the size of the first such tree, at most the greatest `u32`.
    #[error("a tree has {size} nodes")]
    TooBig { size: u32 },
    /// A read tree is deeper than 1,000; the depth of the first such tree, at most the greatest `u32`.
    #[error("a tree has the depth {depth}")]
    TooDeep { depth: u32 },
    #[error("out of memory")]
    Memory,
}

impl From<AllocError> for ParseFault {
    ghost from_gives = { λ _ e. e ≡ Memory };

    fn from(_: AllocError) -> ParseFault {
        ParseFault::Memory
    }
}

/// Why bytes are no text.
#[derive(Clone, Copy, Debug, PartialEq, Eq, Error)]
pub enum TextFault {
    /// No token, space or whole comment begins at this byte.
    #[error("byte {at} begins no token")]
    BadByte { at: usize },
    /// The tokens were not read, and memory sufficed.
    #[error(transparent)]
    Unread(ParseFault),
    #[error("out of memory")]
    Memory,
}

impl From<AllocError> for TextFault {
    ghost from_gives = { λ _ e. e ≡ TextMemory };

    fn from(_: AllocError) -> TextFault {
        TextFault::Memory
    }
}

impl<T: Drop> From<AllocFailed<T>> for TextFault {
    ghost from_gives = { λ _ e. e ≡ TextMemory };

    fn from(_: AllocFailed<T>) -> TextFault {
        TextFault::Memory
    }
}

impl From<StoreFault> for TextFault {
    ghost from_gives = { λ _ e. e ≡ TextMemory };

    fn from(_: StoreFault) -> TextFault {
        TextFault::Memory
    }
}

impl From<ParseFault> for TextFault {
    ghost from_gives = { λ fault e. e ≡ of_parse fault };

    fn from(fault: ParseFault) -> TextFault {
        match fault {
            ParseFault::Memory => TextFault::Memory,
            fault => TextFault::Unread(fault),
        }
    }
}

/// A text with a byte at which no token begins goes on at that byte in no way.
impl From<TextFault> for ParseFault {
    ghost from_gives = { λ fault e. e ≡ of_text fault };

    fn from(fault: TextFault) -> ParseFault {
        match fault {
            TextFault::BadByte { at } => ParseFault::Syntax { at },
            TextFault::Unread(fault) => fault,
            TextFault::Memory => ParseFault::Memory,
        }
    }
}
