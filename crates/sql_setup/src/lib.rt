//! This crate makes the tables of a new desk on a connection, in their second version, and tells whether
//! a connection has a desk's tables. What it compares schemas with serves other versions of them too.
#![tactic(auto)]

mod blank;
mod check;
mod create;
mod fault;
mod new_desk;
mod pattern;
mod same;
mod version;

pub use check::check_desk;
pub use fault::{DeskFault, OpenFault};
pub use new_desk::make_desk;
pub use pattern::empty_tables;
pub use same::{are_same_indexes, are_same_tables};
pub use version::check_version;
