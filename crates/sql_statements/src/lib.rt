//! This crate has what SQL statements make of plain tables, by the shape of the statement, and the
//! transaction that makes one write of them.
//!
//! A table holds a list of values, each stored as a row. For each shape of a statement (a SELECT of
//! the rows that pass a test, an INSERT of one row, an UPDATE, a DELETE, an upsert, a CREATE) a lemma
//! of `proofs/` says what the table holds after it, or which rows it shows, as a filter, a map or an
//! insertion of the list. No table is named here: a crate above describes its tables and texts, says
//! how they stand in a database and what they encode, and gives each text its shape by computation.
//!
//! An edit says what becomes of all tables, and what is known of them once it is made. The statements
//! of a transaction's body, its reads and its loops over rows are joined into one edit by the lemmas of
//! `proofs/`; `commit` makes it whole, or leaves the tables. For a store that speaks of a book in place
//! of its tables, lemmas turn the promise of `commit` into those of the store's write and of its crash.
#![tactic(auto)]

mod parameter;
mod statement;
mod transaction;

pub use parameter::{blob, number, text};
pub use statement::{execute, query};
pub use transaction::{
    RowBody, TransactionBody, commit, execute_one, query_first_inside, query_inside, run_each,
};
