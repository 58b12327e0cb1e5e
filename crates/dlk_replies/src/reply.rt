// What the program answers.
ghost use Rattle.std.specs.Prelude.{◌≡◌};
ghost use Rattle.dlk_replies.specs.Replies.{code_of, printing};
ghost use Rattle.dlk_replies.specs.Shown.{reply_of};

/// How a report is laid out.
#[derive(Clone, Copy, Debug, PartialEq, Eq)]
pub enum Layout {
    /// Lines of text.
    Text,
    /// A JSON object on a line.
    Json,
}

/// What is shown of a proof that is accepted.
#[derive(Clone, Copy, Debug, PartialEq, Eq)]
pub enum Showing {
    /// Its report.
    Reported(Layout),
    /// Its leaves, as a script for a solver.
    Exported,
    /// How many lines and leaves it has and whether it is closed, and that its model has so many assignments.
    Summed(u32),
}

/// How a command ended, or that the words name none.
#[derive(Clone, Copy, Debug, PartialEq, Eq)]
pub enum Status {
    /// The proof is closed.
    Closed,
    /// What was asked for is printed.
    Done,
    /// The proof is open: goals are left.
    Open,
    /// An input is refused, or what comes of the inputs is.
    Refused,
    /// The words of the command line are none of the forms.
    Words,
}

impl Status {
    /// The exit status of the program where it gives the whole of a reply with this status.
    pub fn code(self) -> u8
        ensures { result ≡ code_of self }
    {
        match self {
            Status::Closed | Status::Done => 0,
            Status::Open => 1,
            Status::Refused => 2,
            Status::Words => 3,
        }
    }
}

/// A status, what is printed, and the bytes of the output file, if one is written.
#[derive(Drop, Debug)]
pub struct Reply {
    pub status: Status,
    pub printed: Vec<u8>,
    pub written: Option<Vec<u8>>,
}

/// A reply that writes no file.
pub fn printing(status: Status, printed: Vec<u8>) -> Reply
    ensures { reply_of result ≡ printing status printed.items }
{
    Reply {
        status,
        printed,
        written: None,
    }
}
