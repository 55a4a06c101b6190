//! A cut sends entries, and prints their submission in a file.
use ach_fields::{Id, Ref};
use bank_days::Day;
use desk_rules::{Entry, RuleDay, SecCode};

/// A `SentEntry` is an entry that was sent.
#[derive(Clone, Copy, Debug, PartialEq, Eq, Drop)]
pub struct SentEntry {
    /// The last seven digits of its trace.
    pub sequence: u32,
    pub company: Id,
    pub reference: Ref,
    /// The number of its submission in the company.
    pub order: u64,
    /// Its number in the submission, from 1.
    pub index: u64,
    /// The day on which it settles.
    pub settled: RuleDay,
    pub sec: SecCode,
    pub debit: bool,
    pub entry: Entry,
}

/// A `FilePlace` says where a submission was printed.
#[derive(Clone, Copy, Debug, PartialEq, Eq, Drop)]
pub struct FilePlace {
    /// The day of its file.
    pub day: Day,
    /// The modifier of its file.
    pub modifier: u8,
    /// The number of its batch there, from 1.
    pub batch: u64,
}
