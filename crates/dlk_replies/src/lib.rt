//! What the words of a command line are, and what replies are: commands, the forms of their words, refusals, and why there is no reply.
#![tactic(auto)]

mod command;
mod ended;
mod fault;
mod form;
mod refusal;
mod reply;

pub use command::Command;
pub use ended::{Ended, answer_of, end_by};
pub use fault::NoReply;
pub use form::{Form, LastWord, Role, count_of};
pub use refusal::{refuse_at, refuse_text, refused};
pub use reply::{Layout, Reply, Showing, Status, printing};
