//! After a crash a desk represents the history of the messages that it answered, or that history with one
//! message more. This crate has laws over the clauses of `desk_http::answer`, and no code.
//!
//! A message is pending if it is not a read, it was not answered or was answered 503, and no message
//! answered after it wrote anything. A crash may come at any moment, also in the middle of a message, which
//! was then not answered. The desk that is opened afterwards represents all answered messages, or these and
//! one pending message, as if it had been answered.
#![tactic(auto)]

mod files;
mod laws;

pub use files::{
    desks_in_files, desks_in_memory, desks_in_tables, files_survive, first_over_bytes,
    stands_after_migration,
};
pub use laws::{answers_survive, nothing_is_lost, stands_after_crash, stands_after_lives};
