//! Writes the bodies of the desk's answers, and gives their HTTP statuses.
//!
//! A body is compact JSON with its keys in byte order, except that of a file, which is the file's
//! text. The result of a command is written into room that was reserved before the command, so that
//! nothing can fail once the desk has committed to it. The result of a read is written with growth.
#![tactic(auto)]

mod answer;
mod company;
mod faults;
mod list;
mod operator;
mod refusal;
mod statuses;

pub use answer::{BODY_ROOM, is_command, write_answer};
pub use faults::{MessageFault, message_fault_text};
pub use statuses::{CallKind, content_of, kind_of_call, one_kind, status_of};
