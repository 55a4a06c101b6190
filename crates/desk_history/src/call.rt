use crate::ListOf;
use ach_fields::{Id, Ref};
use bank_days::Day;
use desk_rules::{CompanyDraft, Draft, DraftText, LimitsDraft, RetryDraft};

/// A `Call` is what the desk is asked: by the operator, or by a company, which the call names
/// first.
#[derive(Drop)]
pub enum Call {
    /// Registers a company.
    PutCompany(CompanyDraft),
    /// Sets new limits of a company.
    PutLimits(LimitsDraft),
    /// Sets the desk day, from the text of a date.
    SetDay(Option<DraftText>),
    /// Sets the holiday list, from its CSV text.
    SetHolidays(ListOf<u8>),
    /// Sends what is due.
    Cut,
    /// Takes a file of returns and changes, from its bytes.
    TakeFile(ListOf<u8>),
    /// Reads the text of a file that a cut made, by its day and its modifier.
    FileText(Day, u8),
    /// Reads the operator's account.
    Settlement,
    /// Reads the items in suspense.
    SuspenseItems,
    /// Reads the desk's status.
    Status,
    /// Reads the exposures, limits and return rates of all companies.
    Companies,
    /// Hands in a submission.
    Submit(Id, Draft),
    /// Asks to try a returned debit again (Nacha's reinitiation).
    Retry(Id, RetryDraft),
    /// Looks up a submission and the states of its entries.
    LookUp(Id, Ref),
    /// Reads the returns of a company's entries.
    ReturnsOf(Id),
    /// Reads the notifications of change of a company's entries.
    ChangesOf(Id),
    /// Reads the lines of a company's account, and its balance.
    StatementOf(Id),
    /// Reads a company's return rates.
    RatesOf(Id),
    /// Reads a company's exposure, and its limits.
    ExposureOf(Id),
}
