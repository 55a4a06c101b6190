//! This crate makes the message that hands a company's entries to the desk: one POST request over
//! HTTP/1.1 whose body is the submission that a list of entries in CSV is.
//!
//! Of the rules for submissions it knows only what it needs to write the message. The rest the desk
//! checks when it takes the message.
#![tactic(auto)]

mod body;
mod fault;
mod laws;
mod message;
mod options;
mod row;
mod rows;

pub use fault::{InputFault, RowFault, SubmitFault};
pub use laws::bodies_are_drafts;
pub use message::submit_message;
pub use options::SubmitOptions;
