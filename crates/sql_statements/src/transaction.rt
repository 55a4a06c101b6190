//! A write is one transaction: its body, its loops over rows and its reads.

mod body;
mod live;
mod rows;
mod statement;

pub use body::{TransactionBody, commit};
pub use rows::{RowBody, run_each};
pub use statement::{execute_one, query_first_inside, query_inside};
