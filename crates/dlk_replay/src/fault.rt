ghost use Rattle.std.specs.Prelude.{◌≡◌};
ghost use Rattle.dlk_replay.specs.declared.fault.ReplayFault.TheVariants.{Memory};
ghost use Rattle.dlk_replay.specs.Files.{line_why_text};

use dlk_calculus::Reason;
use dlk_kernel::Fact;
use dlk_rules::Step;
use std::alloc::{AllocError, AllocFailed};
use thiserror::Error;

/// What an accepted file has shown.
#[derive(Clone, Copy, Debug, PartialEq, Eq)]
pub struct Ending {
    /// The number of the last row.
    pub fact: Fact,
    /// The number of rows, which is that of the lines of steps.
    pub lines: u32,
    /// The place in the file of the last row's line, counted from 1.
    pub line: usize,
}

/// What an accepted file has shown, and the steps that its lines say.
#[derive(Drop, Debug)]
pub struct Outcome {
    /// The number of the last row.
    pub fact: Fact,
    /// The number of rows, which is that of the lines of steps.
    pub lines: u32,
    /// The place in the file of the last row's line, counted from 1.
    pub line: usize,
    /// The steps, one for each row, with ids of the kernel's store.
    pub steps: Vec<Step>,
}

/// Why a line is not as it must be, in the order in which it is looked for.
#[derive(Clone, Copy, Debug, PartialEq, Eq)]
pub enum LineWhy {
    /// It is no line of a file of its version, is `done` before any step, or follows `done`.
    Malformed,
    /// Its number is not the next one of its kind: steps and nodes are each numbered from 1 on.
    WrongNumber,
    /// The file ends where this line should stand.
    NoEnd,
    /// Its step is no step of the calculus, or passes a limit.
    Step(Reason),
}

impl LineWhy {
    /// Its word, as it is printed: that of the reason against its step, where there is one.
    pub fn word(self) -> &'static str
        ensures { result.now ≡ line_why_text self }
    {
        match self {
            LineWhy::Malformed => "Malformed",
            LineWhy::WrongNumber => "WrongNumber",
            LineWhy::NoEnd => "NoEnd",
            LineWhy::Step(why) => why.word(),
        }
    }
}

/// Why a file was not accepted.
#[derive(Clone, Copy, Debug, PartialEq, Eq, Error)]
pub enum ReplayFault {
    /// The first line that is not as it must be, counted from 1.
    #[error("line {line} is not as it must be: {why:?}")]
    Bad { line: usize, why: LineWhy },
    #[error("out of memory")]
    Memory,
}

impl From<AllocError> for ReplayFault {
    ghost from_gives = { λ _ e. e ≡ Memory };

    fn from(_: AllocError) -> ReplayFault {
        ReplayFault::Memory
    }
}

impl<T: Drop> From<AllocFailed<T>> for ReplayFault {
    ghost from_gives = { λ _ e. e ≡ Memory };

    fn from(_: AllocFailed<T>) -> ReplayFault {
        ReplayFault::Memory
    }
}
