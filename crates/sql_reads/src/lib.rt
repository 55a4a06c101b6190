//! This crate reads the tables of a desk where a read takes several queries, outside of a transaction.
//!
//! Each read finds what `Composed` of `sql_tables` says of the tables as they were at its first
//! query. Whatever goes wrong, the store could not act: `StoreFault::Unavailable`.
#![tactic(auto)]

mod balances;
mod files;
mod held;
mod held_sizes;
mod items;
mod key;
mod last_submission;
mod latest;
mod open_row;
mod returned;
mod rows;
mod traced;

pub use balances::balances_of;
pub use files::{file, files_on};
pub use held::{due, waiting, waiting_of};
pub use held_sizes::held_sizes_of;
pub use items::{changes_of, returns_of};
pub use key::key_of;
pub use latest::latest_settled;
pub use open_row::open_rows;
pub use rows::{entries_of, retries_of, submission};
pub use traced::traced_entries;
