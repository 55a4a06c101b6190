//! Files in memory, whose bytes are known: those of desks, by their paths, and those of files that are only
//! read.
//!
//! They show that the program's promise for all files is not empty: for these files it states which bytes a
//! command reads, and which it leaves.
#![tactic(auto)]

mod closing;
mod kept_files;
mod memory_files;
mod opening;
mod places;
mod running;

pub use kept_files::KeptFiles;
pub use memory_files::{MemoryFiles, OtherFile};
pub use places::Place;
pub use running::run_in_memory;
