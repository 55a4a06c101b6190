//! An incoming file is written here: its returns and notifications of change, what stands in suspense,
//! the lines of accounts, and the file with its answer.

mod changes;
mod commit;
mod return_rows;
mod returns;
mod suspense;
mod taken;

pub use commit::CommitIntake;
