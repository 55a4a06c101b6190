//! ACH files have nine kinds of records, by the layouts of the Nacha rules. Each has 94 bytes, which are
//! viewed by their fields and printed from values.
//!
//! The layouts are the tables in `specs/Layout.antt`: each field has a name, a width and a class there.
//! No function takes memory.
#![tactic(auto)]

mod fault;
mod fields;
mod kinds;
mod laws;
mod print;
mod readers;
mod reading;
mod row;
mod views;

pub use fault::RecordFault;
pub use kinds::{has_digits, kind_of};
pub use laws::{printed_is_viewed, records_are_fields, viewed_is_printed};
pub use print::{
    Addenda05Text, BatchControlText, BatchHeaderText, Change98Text, EntryText, FileControlText,
    FileHeaderText, Return99Text, print_addenda05, print_batch_control, print_batch_header,
    print_change98, print_entry, print_file_control, print_file_header, print_filler,
    print_return99,
};
pub use readers::{
    addenda_code, addenda_original_dfi, addenda_original_trace, batch_control_count,
    batch_control_credits, batch_control_debits, batch_control_hash, batch_sec, change_data,
    entry_cents, entry_dfi, entry_direction, entry_transaction_code, file_control_batches,
    file_control_blocks, file_control_count, file_control_credits, file_control_debits,
    file_control_hash, header_key, return_information,
};
pub use reading::view;
pub use views::{
    Addenda05, BatchControl, BatchHeader, Change98, Entry, FileControl, FileHeader, Filler, Record,
    Return99,
};

/// A `Kind` is the kind of a record.
///
/// It goes by the first character, and for a `7` by the two after it; 94 nines are a filler.
#[derive(Clone, Copy, Debug, PartialEq, Eq)]
pub enum Kind {
    /// A `1` says where the file comes from and where it goes.
    FileHeader,
    /// A `5` says the company and the kind of entries of a batch.
    BatchHeader,
    /// A `6` is one payment.
    Entry,
    /// A `705` is information about a payment.
    Addenda05,
    /// A `798` is a notification of change.
    Change98,
    /// A `799` is a return.
    Return99,
    /// A `7` of another type, which is not a record.
    OtherAddenda,
    /// An `8` says count, hash and totals of a batch.
    BatchControl,
    /// A `9` says counts, hash and totals of a file.
    FileControl,
    /// These are 94 nines, which fill the last block.
    Filler,
    /// Another first character begins no record.
    Other,
}
