//! An `Outgoing` is a file that is to be printed.
ghost use Rattle.std.specs.Prelude.{◌≡◌};
ghost use Rattle.ach_files.specs.declared.outgoing.PrintFault.TheVariants.{NoMemory};

use ach_fields::{Cents, Trace};
use ach_records::{BatchHeaderText, Change98Text, FileHeaderText, Return99Text};
use std::alloc::AllocError;

/// The addenda of an entry.
#[derive(Clone, Copy)]
pub enum Addenda<'a> {
    /// The entry has no addenda.
    Absent,
    /// The payment information of an addenda 05, whose digits are those of the entry's trace.
    Payment(&'a [u8]),
    /// An addenda 98.
    Change(Change98Text<'a>),
    /// An addenda 99.
    Return(Return99Text<'a>),
}

/// An `OutgoingEntry` is an entry and its addenda. The addenda indicator follows from the addenda.
#[derive(Clone, Copy)]
pub struct OutgoingEntry<'a> {
    /// The transaction code, of two digits.
    pub transaction: u8,
    /// The receiving DFI, of eight digits.
    pub dfi: u32,
    /// The ninth digit of the receiver's routing number.
    pub check_digit: u8,
    /// The account number, at most 17 characters.
    pub account: &'a [u8],
    /// The amount in cents, of at most ten digits.
    pub cents: Cents,
    /// The receiver's identification, at most 15 characters.
    pub identification: &'a [u8],
    /// The receiver's name, at most 22 characters.
    pub name: &'a [u8],
    pub trace: Trace,
    pub addenda: Addenda<'a>,
}

/// An `OutgoingBatch` is a batch. Its control says again the service class, company, originating DFI
/// and number of its header; its count, hash and totals are those of the entries.
#[derive(Clone, Copy)]
pub struct OutgoingBatch<'a> {
    pub header: BatchHeaderText<'a>,
    pub entries: &'a [OutgoingEntry<'a>],
}

/// An `Outgoing` is a file. Its counts, hash, totals and fillers follow from the batches.
#[derive(Clone, Copy)]
pub struct Outgoing<'a> {
    pub header: FileHeaderText<'a>,
    pub batches: &'a [OutgoingBatch<'a>],
}

/// The reason why a file is not printed. Of several the first is returned.
#[derive(Clone, Copy, Debug, PartialEq, Eq, Drop)]
pub enum PrintFault {
    /// A field does not fit its width, or has a character that records may not have.
    BadField = 1,
    /// The debits or the credits exceed 999,999,999,999 cents.
    TotalTooLarge = 2,
    /// A batch has more than 999,999 entries and addenda, or the file more than 999,999 batches or
    /// blocks.
    TooManyRecords = 3,
    /// Memory ran out.
    NoMemory = 4,
}

impl PrintFault {
    ghost use Rattle.ach_files.specs.FaultNumbers.{print_number_of};

    /// Gives the number of the fault.
    pub fn number(self) -> u8
        ensures { result ≡ print_number_of self }
    {
        self as u8
    }
}

impl From<AllocError> for PrintFault {
    ghost from_gives = { λ _ e. e ≡ NoMemory };

    fn from(_error: AllocError) -> PrintFault {
        PrintFault::NoMemory
    }
}
