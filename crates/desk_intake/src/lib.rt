//! Takes an incoming file: the resolution of each item, and the rows that the file writes.
//!
//! `take_file` reads the bytes, asks the store once for the entries that the traces of all items
//! name, and makes the one write of the plan. The plan depends on those entries alone:
//! `plan_intake` reads and writes nothing. An item returns its entry, reports a change, or goes to
//! suspense with its money. `desk_book` defines what an item means; the contract of `plan_intake`
//! is that the plan agrees.
#![tactic(auto)]

mod agreement;
mod counts;
mod file_bytes;
mod found_item;
mod intake;
mod judged_item;
mod matched_item;
mod named_entries;
mod plan;
mod postings;
mod resolution;
mod returned_entries;
mod rows;

pub use found_item::FoundItem;
pub use intake::take_file;
pub use plan::{IntakePlan, plan_intake};
