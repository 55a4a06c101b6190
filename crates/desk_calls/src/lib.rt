//! The desk: its calls and their answers, over any store.
//!
//! The meaning of the desk is defined in `desk_history`, its store in `desk_store`, and the book of
//! a store in `desk_book`.
#![tactic(auto)]

mod company;
mod desk;
mod laws;
mod operator;
mod respond;
mod retry;

pub use desk::Desk;
pub use laws::{crashes_leave, desk_alone, two_desks};
