//! A cut is written here: it sends and lapses submissions, gives entries their places, keeps files, and
//! posts lines.

mod commit;
mod entries;
mod files;
mod marks;
mod numbers;
mod submissions;

pub use commit::CommitCut;
