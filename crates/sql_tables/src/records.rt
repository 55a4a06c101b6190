//! The rows of a desk's tables are these records, in the order of the tables.
use crate::row::submissions::SubmissionHead;
use ach_fields::Id;
use bank_days::Day;
use desk_accounts::{Account, Posting};
use desk_history::{FilePlace, Identity, SuspenseRow};
use desk_rules::{Entry, ReturnCode, RuleDay};

/// A `DeskRecord` is the one row of `desk`: whose desk it is.
pub struct DeskRecord {
    pub identity: Identity,
    /// The SHA-256 digest of the operator's key.
    pub operator_key: [u8; 32],
    /// The desk day, once one was set.
    pub day: Option<RuleDay>,
}

/// A `SubmissionRecord` is a row of `submissions`: an accepted submission or retry.
pub struct SubmissionRecord {
    pub head: SubmissionHead,
    /// Where a cut printed it, once one has sent it.
    pub printed: Option<FilePlace>,
}

/// An `EntryRecord` is a row of `entries`: an entry of a submission or retry.
pub struct EntryRecord {
    pub company: Id,
    /// The number of its submission in the company.
    pub order: u64,
    /// Its number in the submission, from 1.
    pub index: u64,
    pub entry: Entry,
    /// Its place among all sent entries, from 1, once a cut has sent it.
    pub place: Option<u64>,
}

/// A `ReturnRecord` is a row of `returns`: a return of an entry.
#[derive(Clone, Copy, Drop)]
pub struct ReturnRecord {
    /// Its number among all returns, from 1, in the order in which they came.
    pub number: u64,
    pub company: Id,
    /// The number of the entry's submission in the company.
    pub order: u64,
    /// The entry's number in its submission, from 1.
    pub index: u64,
    pub code: ReturnCode,
    /// The day on which it was taken.
    pub day: Day,
    /// Was it taken after its return deadline?
    pub late: bool,
    /// The addenda information of the returning bank (the RDFI), with the blanks at its end.
    pub info: [u8; 44],
}

/// A `ChangeRecord` is a row of `changes`: a notification of change of an entry.
#[derive(Clone, Copy, Drop)]
pub struct ChangeRecord {
    /// Its number among all changes, from 1, in the order in which they came.
    pub number: u64,
    pub company: Id,
    /// The number of the entry's submission in the company.
    pub order: u64,
    /// The entry's number in its submission, from 1.
    pub index: u64,
    /// The change code, C01 to C14.
    pub code: [u8; 3],
    /// The day on which it was taken.
    pub day: Day,
    /// The corrected data, as it stands in the file.
    pub text: [u8; 29],
}

/// A `PostingRecord` is a row of `postings`: a line of an account.
pub struct PostingRecord {
    /// Its number among all lines, from 1, in the order in which they came.
    pub number: u64,
    pub posting: Posting,
}

/// A `SuspenseRecord` is a row of `suspense`: an item that names no sent entry.
pub struct SuspenseRecord {
    /// Its number among all of them, from 1, in the order in which they came.
    pub number: u64,
    pub row: SuspenseRow,
}

/// A `BalanceRecord` is a row of `balances`: the sum of an account's lines of a value day.
pub struct BalanceRecord {
    pub account: Account,
    pub value_day: Day,
    pub cents: i128,
}

/// A `NumberRecord` is a row of `numbers`: which sent entry has a sequence.
#[derive(Clone, Copy, Debug, PartialEq, Eq, Drop)]
pub struct NumberRecord {
    /// The last seven digits of a trace.
    pub sequence: u32,
    /// The place of the youngest entry that has it among all sent entries, from 1.
    pub place: u64,
}

/// An `AuthorizationRecord` is a row of `authorizations`: a retry of a stopped payment.
pub struct AuthorizationRecord {
    pub company: Id,
    /// The retry's number in the company.
    pub order: u64,
    /// The day on which the receiver authorized the payment again.
    pub day: Day,
}
