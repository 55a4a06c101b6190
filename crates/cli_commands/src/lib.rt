//! The commands that need no file of a desk: what each reads, prints and ends with; a session, or
//! connections, by the desk of any store; and whose desk a new one is.
#![tactic(auto)]

mod answer_submission;
mod body_answer;
mod check_incoming;
mod file_feed;
mod file_verdict;
mod input;
mod message_session;
mod new_identity;
mod output;
mod remembered_desk;
mod sample_bank;
mod served_port;
mod served_store;
mod status;
mod store_session;
mod submit_entries;

pub use answer_submission::first_run;
pub use body_answer::{NoMemory, submission_answer};
pub use check_incoming::check_file;
pub use message_session::answer_messages;
pub use new_identity::{OptionFault, identity_of};
pub use output::{end_line, print_answer, print_line, print_unavailable, write_line};
pub use remembered_desk::{answer_remembering, serve_remembering};
pub use status::Status;
pub use submit_entries::submit_list;
