//! The table of refusals.
use desk_rules::RefusalName;
use std::alloc::{AllocError, Global};

const NAMES: [RefusalName; 23] = [
    RefusalName::NoDay,
    RefusalName::BadField,
    RefusalName::RefReused,
    RefusalName::TooManyEntries,
    RefusalName::TotalTooLarge,
    RefusalName::DateRange,
    RefusalName::EntryLimit,
    RefusalName::CreditLimit,
    RefusalName::DebitLimit,
    RefusalName::NoEntry,
    RefusalName::NotReturned,
    RefusalName::NotRetryable,
    RefusalName::RetriesSpent,
    RefusalName::RetryTooLate,
    RefusalName::DayNotLater,
    RefusalName::NotBankingDay,
    RefusalName::CompanyExists,
    RefusalName::NoCompany,
    RefusalName::TracesSpent,
    RefusalName::ModifiersSpent,
    RefusalName::FileKeyReused,
    RefusalName::BadFile,
    RefusalName::BadCalendar,
];

/// Counts the refusals that have a row in the page that begins with their number, name and HTTP status.
pub(crate) fn count_rows(alloc: Global, page: &str) -> Result<usize, AllocError> {
    let mut count = 0usize;
    for name in NAMES {
        let number = name.number();
        let text = name.text();
        let status = name.status();
        let row = format!(in alloc; "\n| {number} | `{text}` | {status} | ")?;
        if page.contains(row.as_str()) {
            count = count.saturating_add(1);
        }
    }
    Ok(count)
}
