//! Answers to the operator's commands.
use crate::ListOf;
use ach_fields::Cents;
use bank_days::Day;

/// The result of a cut.
#[derive(Drop)]
pub struct CutSummary {
    pub day: Day,
    /// The number of entries that it sent.
    pub entries: u64,
    /// The modifiers of the files that it made, in order.
    pub files: ListOf<u8>,
    /// The number of retries that lapsed.
    pub lapsed: u64,
}

/// An `Intake` counts the items of an incoming file, as of the day on which it was first taken.
#[derive(Clone, Copy, Debug, PartialEq, Eq, Drop)]
pub struct Intake {
    /// The number of changes that were listed.
    pub changes: u64,
    pub day: Day,
    /// The number of returns that came after their deadline.
    pub late: u64,
    /// The number of entries that were returned.
    pub returns: u64,
    /// The number of items in suspense.
    pub suspense: u64,
}

/// A `DaySum` is the sum of an account's lines of one value day.
#[derive(Clone, Copy, Debug, PartialEq, Eq, Drop)]
pub struct DaySum {
    /// The sum in cents.
    pub cents: i128,
    pub day: Day,
}

/// A `Settlement` is the operator's account on the desk day.
#[derive(Drop)]
pub struct Settlement {
    /// The sum of the lines that count on the day, in cents.
    pub balance: i128,
    pub day: Day,
    /// The sums of all value days, ascending.
    pub days: ListOf<DaySum>,
}

/// The reason why an item of an incoming file is in suspense.
#[derive(Clone, Copy, Debug, PartialEq, Eq, Drop)]
pub enum SuspenseReason {
    /// No sent entry has its original trace.
    NoTrace,
    /// The entry that has the trace is another one: in its SEC code, its transaction code, its receiving
    /// bank or, for a return, its amount.
    Differs,
    /// The return code is outside R01 to R29, or the change code outside C01 to C14.
    CodeOutside,
    /// The entry was returned before.
    AlreadyReturned,
}

/// An item in suspense.
#[derive(Clone, Copy, Debug, PartialEq, Eq, Drop)]
pub struct SuspenseRow {
    /// The amount of a return in cents, zero for a change.
    pub cents: Cents,
    /// Its return or change code.
    pub code: [u8; 3],
    /// The day on which it was taken.
    pub day: Day,
    /// The key of its file.
    pub file: [u8; 21],
    /// Its number among the items of the file, from 1.
    pub item: u64,
    /// The trace of the entry that it answers.
    pub trace: [u8; 15],
    pub why: SuspenseReason,
}

/// A `TakenFile` is an incoming file that was taken, with its answer.
#[derive(Clone, Copy, Debug, PartialEq, Eq, Drop)]
pub struct TakenFile {
    /// Origin, date, time and modifier, as its header has them.
    pub key: [u8; 21],
    /// The SHA-256 digest of its records.
    pub digest: [u8; 32],
    pub answer: Intake,
}
