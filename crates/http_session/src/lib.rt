//! Sessions: from any reader's bytes to answers on any writer, by anything that answers messages; and the
//! connections of a listener, served one after another, each by such a session.
#![tactic(auto)]

mod answers;
mod connection;
mod lingering;
mod listener;
mod network;
mod replying;
mod serving;
mod sessions;

pub use answers::{Answers, Unavailable};
pub use connection::Connection;
pub use io_retries::Tries;
pub use lingering::{MAX_DROPPED, drop_rest};
pub use listener::Listener;
pub use network::{HostNetwork, Network};
pub use serving::{ServeFault, serve};
pub use sessions::{Ended, SessionFault, session, session_with_tries};
