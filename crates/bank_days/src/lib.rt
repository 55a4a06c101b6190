//! Days by number, a bank's holiday list, and the banking days that it leaves.
//!
//! Contracts see a [`Day`] as its number (1970-01-01 is 0) and a [`Calendar`] as the list of its
//! holidays. Only the calls that read or copy a list take memory. Calls accept days up to
//! 2100-06-30, so that every day they count to is a [`Day`] too.
#![tactic(auto)]

mod calendar;
mod calendar_fault;
mod date;
mod day;
mod laws;
mod row;

pub use calendar::Calendar;
pub use calendar_fault::CalendarFault;
pub use day::Day;
pub use laws::{days_and_dates, days_and_texts, holiday_lists, nth_banking_days, rolled_days};
