//! Each refusal has a name here, with its number and its HTTP status.
ghost use Rattle.std.specs.Prelude.{◌≡◌};

use crate::Refusal;

/// A `RefusalName` is the name of a refusal.
#[derive(Clone, Copy, Debug, PartialEq, Eq, Drop)]
pub enum RefusalName {
    NoDay,
    BadField,
    RefReused,
    TooManyEntries,
    TotalTooLarge,
    DateRange,
    EntryLimit,
    CreditLimit,
    DebitLimit,
    NoEntry,
    NotReturned,
    NotRetryable,
    RetriesSpent,
    RetryTooLate,
    DayNotLater,
    NotBankingDay,
    CompanyExists,
    NoCompany,
    TracesSpent,
    ModifiersSpent,
    FileKeyReused,
    /// The bytes are not a file of returns and changes.
    BadFile,
    /// The text is not a holiday list.
    BadCalendar,
}

/// A row of the table of names.
#[derive(Clone, Copy)]
struct NameRow {
    number: u64,
    status: u16,
    text: &'static str,
}

fn row(number: u64, status: u16, text: &'static str) -> NameRow
    ensures number { result.number ≡ number }
    ensures status { result.status ≡ status }
    ensures text { result.text.now ≡ text.now }
{
    NameRow {
        number,
        status,
        text,
    }
}

impl RefusalName {
    ghost use Rattle.desk_rules.specs.RefusalNames.{number_of, status_of, text_of};

    /// The table. The status is 422 if the body itself is invalid, and 409 if it conflicts with what
    /// the desk has.
    fn row(self) -> NameRow
        ensures number { result.number ≡ number_of self }
        ensures status { result.status ≡ status_of self }
        ensures text { result.text.now ≡ text_of self }
    {
        match self {
            RefusalName::NoDay => row(1, 409, "NoDay"),
            RefusalName::BadField => row(2, 422, "BadField"),
            RefusalName::RefReused => row(3, 409, "RefReused"),
            RefusalName::TooManyEntries => row(4, 422, "TooManyEntries"),
            RefusalName::TotalTooLarge => row(5, 422, "TotalTooLarge"),
            RefusalName::DateRange => row(6, 422, "DateRange"),
            RefusalName::EntryLimit => row(7, 409, "EntryLimit"),
            RefusalName::CreditLimit => row(8, 409, "CreditLimit"),
            RefusalName::DebitLimit => row(9, 409, "DebitLimit"),
            RefusalName::NoEntry => row(10, 409, "NoEntry"),
            RefusalName::NotReturned => row(11, 409, "NotReturned"),
            RefusalName::NotRetryable => row(12, 409, "NotRetryable"),
            RefusalName::RetriesSpent => row(13, 409, "RetriesSpent"),
            RefusalName::RetryTooLate => row(14, 409, "RetryTooLate"),
            RefusalName::DayNotLater => row(20, 409, "DayNotLater"),
            RefusalName::NotBankingDay => row(21, 409, "NotBankingDay"),
            RefusalName::CompanyExists => row(22, 409, "CompanyExists"),
            RefusalName::NoCompany => row(23, 409, "NoCompany"),
            RefusalName::TracesSpent => row(24, 409, "TracesSpent"),
            RefusalName::ModifiersSpent => row(25, 409, "ModifiersSpent"),
            RefusalName::FileKeyReused => row(26, 409, "FileKeyReused"),
            RefusalName::BadFile => row(27, 422, "BadFile"),
            RefusalName::BadCalendar => row(28, 422, "BadCalendar"),
        }
    }

    /// Returns the refusal's number in answers to companies.
    pub fn number(self) -> u64
        ensures { result ≡ number_of self }
    {
        self.row().number
    }

    /// Returns the HTTP status of the answer.
    pub fn status(self) -> u16
        ensures { result ≡ status_of self }
    {
        self.row().status
    }

    /// Gives the name as bodies write it.
    pub fn text(self) -> &'static str
        ensures { result.now ≡ text_of self }
    {
        self.row().text
    }
}

impl Refusal {
    ghost use Rattle.desk_rules.specs.RefusalNames.{name_of};

    /// Gives its name.
    pub fn name(self) -> RefusalName
        ensures { result ≡ name_of self }
    {
        match self {
            Refusal::NoDay => RefusalName::NoDay,
            Refusal::BadField { .. } => RefusalName::BadField,
            Refusal::RefReused => RefusalName::RefReused,
            Refusal::TooManyEntries => RefusalName::TooManyEntries,
            Refusal::TotalTooLarge => RefusalName::TotalTooLarge,
            Refusal::DateRange => RefusalName::DateRange,
            Refusal::EntryLimit => RefusalName::EntryLimit,
            Refusal::CreditLimit => RefusalName::CreditLimit,
            Refusal::DebitLimit => RefusalName::DebitLimit,
            Refusal::NoEntry => RefusalName::NoEntry,
            Refusal::NotReturned => RefusalName::NotReturned,
            Refusal::NotRetryable(_) => RefusalName::NotRetryable,
            Refusal::RetriesSpent => RefusalName::RetriesSpent,
            Refusal::RetryTooLate => RefusalName::RetryTooLate,
            Refusal::DayNotLater => RefusalName::DayNotLater,
            Refusal::NotBankingDay => RefusalName::NotBankingDay,
            Refusal::CompanyExists => RefusalName::CompanyExists,
            Refusal::NoCompany => RefusalName::NoCompany,
            Refusal::TracesSpent => RefusalName::TracesSpent,
            Refusal::ModifiersSpent => RefusalName::ModifiersSpent,
            Refusal::FileKeyReused => RefusalName::FileKeyReused,
        }
    }
}
