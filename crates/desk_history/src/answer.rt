use crate::{
    ChangeRow, CutSummary, DayRates, DeskCompanies, DeskStatus, Exposure, Intake, ListOf, Receipt,
    ReturnRow, Settlement, Statement, SubmissionReport, SuspenseRow,
};
use ach_fields::Id;
use ach_files::Fault;
use bank_days::{CalendarFault, Day};

/// An `Outcome` is what a call that was not refused did or found.
#[derive(Drop)]
pub enum Outcome {
    /// The receipt of an accepted submission or retry, for the first time or again.
    Submitted(Receipt),
    /// The report of a submission that was looked up; none where the reference is unknown.
    Found(Option<SubmissionReport>),
    /// The returns in the order in which they came.
    Returns(ListOf<ReturnRow>),
    /// The changes in the order in which they came.
    Changes(ListOf<ChangeRow>),
    Statement(Statement),
    Rates(DayRates),
    Exposure(Exposure),
    /// The new desk day.
    Day(Day),
    /// The number of days of the new holiday list.
    Holidays(u64),
    /// The company that was registered, or whose limits were set.
    Company(Id),
    Cut(CutSummary),
    Taken(Intake),
    /// The text of a file, or `None` if there is no such file.
    File(Option<ListOf<u8>>),
    Settlement(Settlement),
    /// The items in suspense, in the order in which they came.
    Suspense(ListOf<SuspenseRow>),
    Status(DeskStatus),
    Companies(DeskCompanies),
}

/// A `CallRefusal` says why a call is refused.
#[derive(Clone, Copy, Debug, PartialEq, Eq, Drop)]
pub enum CallRefusal {
    /// A rule of the desk refuses it.
    Rule(desk_rules::Refusal),
    /// The file has this fault.
    BadFile(Fault),
    /// The holiday list has this fault.
    BadCalendar(CalendarFault),
}

/// An `Answer` is the answer to a call: it is done, or refused.
#[derive(Drop)]
pub enum Answer {
    Done(Outcome),
    Refused(CallRefusal),
}
