//! This crate has the writing statements of a desk, and the body of the transaction of each of its
//! writes.
//!
//! Each statement runs inside a transaction, and makes an edit of the tables: `sql_tables` says
//! which. What it depends on is read inside the transaction too: the last number of a table, the sum
//! before the first of an account's lines, the submission that a reference names. A body joins the
//! statements of one write, for `sql_statements::commit`.
#![tactic(auto)]

mod account_lines;
mod batches;
mod cell;
mod cut;
mod entries;
mod held_rows;
mod intake;
mod numbering;
mod registry;
mod runs;
mod submissions;

pub use cell::cell_inside;
pub use cut::CommitCut;
pub use intake::CommitIntake;
pub use registry::{PutCompany, PutLimits, SetDay, SetHolidays};
pub use submissions::AddSubmission;
