//! This crate keeps the accounts of the desk: postings in pairs that sum to zero, and balances.
//!
//! Each company has an account; the operator has one, and one holds returns whose entry is not
//! known until somebody looks at them. Money is posted from one account to another, so the sum of
//! all accounts is zero on every day. Nothing here takes memory.
#![tactic(auto)]

mod account;
mod balances;
mod laws;
mod pairs;
mod posting;

pub use account::Account;
pub use balances::{balance, balance_of_days};
pub use laws::{balances_by_day, pairs_cancel};
pub use pairs::{post_cut, post_return, post_suspense};
pub use posting::{Cause, Posting};
