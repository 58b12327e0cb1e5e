//! Replies.
use dlk_elab::FailWhy;

/// What a line of a session answers, where it shows nothing.
#[derive(Clone, Copy, Debug, PartialEq, Eq)]
pub enum Reply {
    /// It was done, and the last row has so many goals.
    Ok { goals: u32 },
    /// The last row has no such goal.
    NoGoal,
    /// The strategy fails, at a byte of its text.
    Fails { at: usize, why: FailWhy },
    /// The 16,001st run of an atom would start at this byte.
    Budget { at: usize },
    /// There is nothing to undo.
    Nothing,
    /// So many steps are saved.
    Saved { lines: u32 },
}
