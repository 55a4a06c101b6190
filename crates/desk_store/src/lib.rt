//! This crate has the store of a desk: what it reads and writes, whatever keeps it.
//!
//! A store holds a book, which `desk_book` defines. Each read gives its value of the book, each
//! write makes its one step of it; or the store could not act, and holds what it held. For stores of
//! rows it has the book that flat rows are (`Rows`), and how writes change them.
#![tactic(auto)]

mod store;

pub use store::{CutRows, IntakeRows, LastNumber, Store, StoreFault};
