//! The lines of accounts are written here: each under the number after the last, and the sums of their
//! accounts and value days with them.

mod accounts;
mod balances;
mod lines;
mod pending;
mod rows;

pub(crate) use lines::put_lines;
