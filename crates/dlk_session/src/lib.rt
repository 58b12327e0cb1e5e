//! Sessions: strategies run line by line on chosen goals.
#![tactic(auto)]

mod copies;
mod fault;
mod goals;
mod laws;
mod reply;
mod runner;
mod session;

pub use fault::SessionFault;
pub use laws::{one_session, session_is_kept, undo_gives_back};
pub use reply::Reply;
pub use runner::Runner;
pub use session::Session;
