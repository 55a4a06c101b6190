ghost use Rattle.std.specs.Prelude.{◌≡◌};
ghost use Rattle.desk_rules.specs.declared.refusals.refusal.RuleFault.TheVariants.{Refused, NoMemory};

use crate::ReturnCode;
use std::alloc::{AllocError, AllocFailed};

/// A `Field` is a field of a body.
#[derive(Clone, Copy, Debug, PartialEq, Eq, Drop)]
pub enum Field {
    Reference,
    Sec,
    Direction,
    Description,
    Day,
    Entries,
    Routing,
    Account,
    Kind,
    Prenote,
    Cents,
    Id,
    Name,
    Info,
    Of,
    Index,
    Authorized,
    Key,
    EntryLimit,
    CreditLimit,
    DebitLimit,
}

/// The reason why a command is refused. The faults of a file or holiday list are defined by the
/// crates that read them.
#[derive(Clone, Copy, Debug, PartialEq, Eq, Drop)]
pub enum Refusal {
    /// No desk day was set.
    NoDay,
    /// This is the first bad field. The index counts entries from 1, and is 0 at a field of the
    /// whole.
    BadField { field: Field, index: u64 },
    /// The reference has other content.
    RefReused,
    /// There are more than 1,000 entries.
    TooManyEntries,
    /// The total is more than 999,999,999,999 cents.
    TotalTooLarge,
    /// The asked day is not 1 to 60 days after the desk day.
    DateRange,
    /// An entry is above the company's limit.
    EntryLimit,
    /// The credit exposure would be above the company's limit.
    CreditLimit,
    /// The debit exposure would be above the company's limit.
    DebitLimit,
    /// The entry does not exist, belongs to a retry, or is not a live debit.
    NoEntry,
    /// The original or the newest attempt is not returned.
    NotReturned,
    /// The code of the newest return does not allow another attempt.
    NotRetryable(ReturnCode),
    /// The entry was tried again twice.
    RetriesSpent,
    /// It would settle more than 180 days after the original.
    RetryTooLate,
    /// The day is not after the desk day.
    DayNotLater,
    /// The day is not a banking day.
    NotBankingDay,
    /// A company has the identification.
    CompanyExists,
    /// No company has the identification.
    NoCompany,
    /// A batch of the cut would take a sequence that may not be used again yet.
    TracesSpent,
    /// The cut would make more than 36 files on the day.
    ModifiersSpent,
    /// The file's key was taken with another digest.
    FileKeyReused,
}

/// A `RuleFault` says why a rule that takes memory gives no answer.
#[derive(Clone, Copy, Debug, PartialEq, Eq, Drop)]
pub enum RuleFault {
    Refused(Refusal),
    /// The rule is out of memory.
    NoMemory,
}

impl From<Refusal> for RuleFault {
    ghost from_gives = { λ r e. e ≡ Refused r };

    fn from(refusal: Refusal) -> RuleFault {
        RuleFault::Refused(refusal)
    }
}

impl From<AllocError> for RuleFault {
    ghost from_gives = { λ _ e. e ≡ NoMemory };

    fn from(_error: AllocError) -> RuleFault {
        RuleFault::NoMemory
    }
}

impl<T: Drop> From<AllocFailed<T>> for RuleFault {
    ghost from_gives = { λ _ e. e ≡ NoMemory };

    fn from(_error: AllocFailed<T>) -> RuleFault {
        RuleFault::NoMemory
    }
}
