//! A cut and an incoming file add these to the book, as flat rows.
use ach_fields::Id;
use bank_days::Day;
use desk_history::{ChangeRow, FilePlace, ListOf, ReturnRow};
use desk_rules::RuleDay;

/// A `ReturnedRow` is a return of a company's entry.
#[derive(Clone, Copy, Debug, PartialEq, Eq, Drop)]
pub struct ReturnedRow {
    pub company: Id,
    /// The order number in the company of the submission that had the entry.
    pub order: u64,
    pub row: ReturnRow,
}

/// A `ChangedRow` is a change of a company's entry.
#[derive(Clone, Copy, Debug, PartialEq, Eq, Drop)]
pub struct ChangedRow {
    pub company: Id,
    /// The order number in the company of the submission that had the entry.
    pub order: u64,
    pub row: ChangeRow,
}

/// A `SentRow` is a submission that a cut sent.
#[derive(Clone, Copy, Debug, PartialEq, Eq, Drop)]
pub struct SentRow {
    pub company: Id,
    /// Its order number in the company.
    pub order: u64,
    /// The day on which it settles.
    pub settled: RuleDay,
    pub printed: FilePlace,
}

/// A `LapsedRow` is a retry that a cut let lapse.
#[derive(Clone, Copy, Debug, PartialEq, Eq, Drop)]
pub struct LapsedRow {
    pub company: Id,
    /// Its order number in the company.
    pub order: u64,
}

/// A `FileRow` is a file that a cut made.
#[derive(Drop)]
pub struct FileRow {
    pub day: Day,
    pub modifier: u8,
    pub text: ListOf<u8>,
}
