//! Answers to a company's reads.
use crate::ListOf;
use ach_fields::{Cents, Ref};
use bank_days::Day;
use desk_accounts::Cause;
use desk_rules::{Direction, EntryState, Limits, Rates, ReturnCode, SecCode};

/// A `Receipt` acknowledges an accepted submission or retry.
#[derive(Clone, Copy, Debug, PartialEq, Eq, Drop)]
pub struct Receipt {
    /// The sum of its entries in cents.
    pub cents: Cents,
    /// The number of its entries.
    pub entries: u64,
    /// Its number among the company's accepted submissions and retries, from 1.
    pub order: u64,
    pub reference: Ref,
}

/// A `ReportedEntry` is an entry of a submission that was looked up.
#[derive(Clone, Copy, Debug, PartialEq, Eq, Drop)]
pub struct ReportedEntry {
    pub cents: Cents,
    /// Its number in the submission, from 1.
    pub index: u64,
    pub state: EntryState,
}

/// A `RetriedEntry` is the entry that a retry tries again.
#[derive(Clone, Copy, Debug, PartialEq, Eq, Drop)]
pub struct RetriedEntry {
    /// The reference of the submission that has the entry.
    pub of: Ref,
    /// The entry's number there, from 1.
    pub index: u64,
}

/// A `SubmissionReport` is a submission that was looked up.
#[derive(Drop)]
pub struct SubmissionReport {
    /// The sum of its entries in cents.
    pub cents: Cents,
    /// The day on which the company wants it to settle.
    pub day: Day,
    pub direction: Direction,
    pub entries: ListOf<ReportedEntry>,
    /// The entry that a retry tries again.
    pub retried: Option<RetriedEntry>,
    /// Its number among the company's accepted submissions and retries, from 1.
    pub order: u64,
    pub reference: Ref,
    pub sec: SecCode,
}

/// A `ReturnRow` is a return of an entry.
#[derive(Clone, Copy, Debug, PartialEq, Eq, Drop)]
pub struct ReturnRow {
    pub code: ReturnCode,
    /// The day on which it was taken.
    pub day: Day,
    /// The entry's number in its submission, from 1.
    pub index: u64,
    /// The addenda information of the returning bank (the RDFI), with the blanks at its end.
    pub info: [u8; 44],
    /// Was it taken after its return deadline?
    pub late: bool,
    pub reference: Ref,
}

/// A `ChangeRow` is a notification of change of an entry.
#[derive(Clone, Copy, Debug, PartialEq, Eq, Drop)]
pub struct ChangeRow {
    /// The change code, C01 to C14.
    pub code: [u8; 3],
    /// The day on which it was taken.
    pub day: Day,
    /// The entry's number in its submission, from 1.
    pub index: u64,
    pub reference: Ref,
    /// The corrected data of the notification, as the file has it.
    pub text: [u8; 29],
}

/// A `StatementLine` is a line of a company's account.
#[derive(Clone, Copy, Debug, PartialEq, Eq)]
pub struct StatementLine {
    pub cause: Cause,
    /// The cents that it adds to the account, below zero where it takes.
    pub cents: i64,
    /// The first day on which it counts.
    pub day: Day,
    /// The number of the returned entry in its submission, from 1; 0 for a whole submission.
    pub index: u64,
    pub reference: Ref,
}

/// A `Statement` is a company's statement on the desk day.
#[derive(Drop)]
pub struct Statement {
    /// The sum of the lines that count on the day, in cents.
    pub balance: i128,
    pub day: Day,
    /// All lines, also those that count later.
    pub lines: ListOf<StatementLine>,
}

/// `DayRates` are a company's return rates on the desk day.
#[derive(Clone, Copy, Debug, PartialEq, Eq, Drop)]
pub struct DayRates {
    pub day: Day,
    pub rates: Rates,
}

/// The cents that a company's entries may still cost the bank on the desk day, and its limits.
#[derive(Clone, Copy, Debug, PartialEq, Eq, Drop)]
pub struct Exposure {
    /// The credit exposure in cents.
    pub credit: u128,
    /// The debit exposure in cents.
    pub debit: u128,
    pub day: Day,
    pub limits: Limits,
}
