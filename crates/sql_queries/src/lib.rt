//! This crate asks the tables of a desk: one function for each query, outside of a transaction, which
//! finds what `TableReads` of `sql_tables` says of the tables.
//!
//! Each query names its rows by a key or by the first columns of an index, and gives them in the order
//! of the table's key: a company's returns come by their days, and are put in that order. What waits for
//! a cut stands first in an index, and is read one row at a time, up to the first that does not wait. A
//! row that stores no value within its ranges is `Error::InvalidQuery`.
#![tactic(auto)]

mod entries;
mod files;
mod holidays;
mod items;
mod lines;
mod reading;
mod registry;
mod rows;
mod submissions;
mod waiting;

pub use entries::{
    amounts_of, cents_of, entries_of, entry_places, infos_of, last_number, place, places,
    sent_entry,
};
pub use files::{file_text, modifiers, taken_file};
pub use holidays::calendar;
pub use items::{
    change_lines, entry_return, last_suspense_number, orders_returned, return_lines, returns,
    suspense,
};
pub use lines::{postings, sums};
pub use registry::{companies, company, day, identity, operator_key};
pub use submissions::{
    authorization, facts, last_order, numbered_submission, open_submissions, order_and_settlement,
    retries, settled_submissions, submission, submissions_of, waiting_submissions,
};
