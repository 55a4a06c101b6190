//! Reads files of returns and notifications of change, and prints ACH files of any entries.
//!
//! A file to read has at most 4,194,304 bytes: a file header, batches of entries each with one
//! addenda, a file control, and fillers, each record of 94 characters followed by nothing, LF or CR
//! LF. `read_file` reads a file that is whole in memory, `Reader` one that arrives in pieces; both
//! return the first fault, by the first byte at which something is wrong. `print_file` prints a
//! file, with the counts, hashes and totals of its controls; `Printer` prints one batch by batch.
//!
//! `Item`s and their `ItemFacts` are read, and an `Outgoing` is printed. The structs of an
//! `Outgoing` hold references next to typed values, which `Vec::push` cannot take today: a list of
//! them grows by `extend_from_slice(&[entry])`.
#![tactic(auto)]

mod advance;
mod facts;
mod fault;
mod incoming;
mod judge;
mod laws;
mod limits;
mod outgoing;
mod place;
mod print;
mod read;
mod reader;
mod recogniser;
mod stage;
mod sums;
mod taken;

pub use facts::{ItemFacts, ReturnOrChange};
pub use fault::{Fault, FileFault};
pub use incoming::{Incoming, Item};
pub use laws::{
    facts_are_read_again, faults_stand, file_or_fault, fillers_are_few, long_bytes_have_faults,
    one_file, printed_is_file, returns_and_changes_are_read, rows_have_texts,
};
pub use outgoing::{Addenda, Outgoing, OutgoingBatch, OutgoingEntry, PrintFault};
pub use print::{Printer, print_file};
pub use read::read_file;
pub use reader::Reader;
pub use taken::Taken;
