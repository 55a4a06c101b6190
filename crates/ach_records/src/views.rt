//! A view of each kind of record: it borrows the 94 bytes and has a reader for each field.
//!
//! Digit fields are read as numbers, all others with the blanks at their end.

mod addenda05;
mod batch_control;
mod batch_header;
mod change98;
mod entry;
mod file_control;
mod file_header;
mod filler;
mod return99;

pub use addenda05::Addenda05;
pub use batch_control::BatchControl;
pub use batch_header::BatchHeader;
pub use change98::Change98;
pub use entry::Entry;
pub use file_control::FileControl;
pub use file_header::FileHeader;
pub use filler::Filler;
pub use return99::Return99;

/// A `Record` is the view of a record, by its kind.
#[derive(Clone, Copy)]
pub enum Record<'a> {
    /// This is a record 1.
    FileHeader(FileHeader<'a>),
    /// This is a record 5.
    BatchHeader(BatchHeader<'a>),
    /// This is a record 6.
    Entry(Entry<'a>),
    /// This is a record 705.
    Addenda05(Addenda05<'a>),
    /// This is a record 798.
    Change98(Change98<'a>),
    /// This is a record 799.
    Return99(Return99<'a>),
    /// This is a record 8.
    BatchControl(BatchControl<'a>),
    /// This is a record 9.
    FileControl(FileControl<'a>),
    /// These are 94 nines.
    Filler(Filler<'a>),
}
