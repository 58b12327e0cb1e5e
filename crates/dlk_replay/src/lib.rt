//! Replays proof-term files of both versions on a kernel: what their lines say, and what becomes of them.
#![tactic(auto)]

mod fault;
mod laws;
mod replaying;
mod taking;
mod version;

pub use fault::{Ending, LineWhy, Outcome, ReplayFault};
pub use laws::{
    accepted_derived, accepted_says_steps, accepted_steps_have_symbols, one_list_of_steps,
    one_said, one_verdict, recorded_lines_give_rows, some_said, some_verdict,
};
pub use replaying::{replay, replay_watched};
pub use taking::first_line;
