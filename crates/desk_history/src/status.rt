//! The answer to the operator's request for the desk's status.
use crate::ListOf;
use ach_fields::{Id, ShortText};
use bank_days::Day;

/// A number of submissions and their total in cents.
#[derive(Clone, Copy, Debug, PartialEq, Eq, Drop)]
pub struct Tally {
    /// The sum of their entries in cents.
    pub cents: u128,
    pub submissions: u64,
}

/// `Tallies` are those of submissions by direction. A retry is a submission of one entry.
#[derive(Clone, Copy, Debug, PartialEq, Eq, Drop)]
pub struct Tallies {
    pub credits: Tally,
    pub debits: Tally,
}

/// A `DueDay` is what a cut of the desk day would send that settles on a day.
#[derive(Clone, Copy, Debug, PartialEq, Eq, Drop)]
pub struct DueDay {
    pub day: Day,
    pub sums: Tallies,
}

/// What a company has waiting, without accounts and names of receivers.
#[derive(Drop)]
pub struct CompanyStatus {
    /// What a cut of the desk day would send, by settlement day, ascending.
    pub due: ListOf<DueDay>,
    /// The submissions that no cut has decided.
    pub held: Tallies,
    pub id: Id,
    /// The number of retries that a cut of the desk day would let lapse.
    pub lapsing: u64,
    pub name: ShortText<16>,
}

/// The status of the desk.
#[derive(Drop)]
pub struct DeskStatus {
    /// All registered companies, in the byte order of their identifications.
    pub companies: ListOf<CompanyStatus>,
    /// The desk day; none before the first.
    pub day: Option<Day>,
    /// The number of files that a cut of the desk day would make, also if the day has no modifiers
    /// for them; 0 before the first day.
    pub due_files: u64,
    /// The number of entry and addenda records that it would send.
    pub due_records: u64,
    /// The modifiers of the day's files, in the order in which they were made.
    pub files: ListOf<u8>,
    /// The number of entry and addenda records of all submissions that no cut has decided.
    pub held_records: u64,
    /// The number of holidays.
    pub holidays: u64,
    /// The number of entries that were ever sent.
    pub sent: u64,
    /// The number of items in suspense.
    pub suspense: u64,
}
