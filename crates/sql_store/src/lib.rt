//! This crate has the store of a desk over SQL tables.
//!
//! A `SqlStore` reads by `sql_queries`, `sql_reads` and `sql_measures`, and makes each write in one
//! transaction of the statements of `sql_writes`. That the tables say what the book says stands in the
//! laws of `sql_read_laws` and `sql_write_laws`.
#![tactic(auto)]

mod last_number;
mod open;
mod store;
mod whole_write;

pub use sql_setup::OpenFault;
pub use store::SqlStore;
