//! Reads, writes and flushes that are made again if they are interrupted, a limited number of times.
//! All those of a run share its tries.
#![tactic(auto)]

mod reading;
mod sink;
mod source;
mod tries;
mod writing;

pub use reading::{RetryingReader, read_with_retries};
pub use sink::Sink;
pub use source::Source;
pub use tries::{MOST_TRIES, Tries};
pub use writing::{flush_with_retries, write_all_with_retries, write_with_retries};
