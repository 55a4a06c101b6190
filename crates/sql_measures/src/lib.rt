//! This crate reads of the tables of a desk what a company's entries come to: its exposures, by sums of cents, and
//! its return rates, by what lies in their window.
//!
//! Each read finds what `Composed` of `sql_tables` says of the tables as they were at its first
//! query. Whatever goes wrong, the store could not act: `StoreFault::Unavailable`.
#![tactic(auto)]

mod facts;
mod open_cents;
mod rates;
mod submissions;

pub use open_cents::exposures;
pub use rates::rates_of;
pub use submissions::open_entries;
