//! The report of a company's submission.
ghost use Rattle.std.specs.Prelude.{◌≡◌, IfOk, option_map};
ghost use Rattle.desk_history.specs.Reports.{retried_entry};
ghost use Rattle.desk_book.specs.OnBook.{row_report};
ghost use Rattle.desk_calls.specs.Telling.{reported_entries};

use desk_book::Row;
use desk_history::{ListOf, ReportedEntry, RetriedEntry, SubmissionReport};
use desk_rules::{Entry, EntryState, Retry};
use std::alloc::{AllocError, Global};

fn retried_entry(retry: &Option<Retry>) -> Option<RetriedEntry>
    ensures { result ≡ option_map retried_entry retry.now }
{
    match retry {
        Some(retry) => Some(RetriedEntry {
            of: retry.of,
            index: retry.index,
        }),
        None => None,
    }
}

// The entries with their numbers and states.
fn reported_entries(
    alloc: Global,
    entries: &[Entry],
    states: &[EntryState],
) -> Result<Vec<ReportedEntry>, AllocError>
    ensures { IfOk result (λ v. v.items ≡ reported_entries entries.now states.now) }
{
    let mut found = Vec::new(alloc);
    let mut index = 0;
    for (entry, state) in entries.iter().zip(states) {
        index += 1;
        found.push(ReportedEntry {
            cents: entry.cents.as_cents(),
            index,
            state: *state,
        })?;
    }
    Ok(found)
}

/// Gives a submission with the states of its entries.
pub(crate) fn submission_report(alloc: Global, row: &Row) -> Result<SubmissionReport, AllocError>
    ensures { IfOk result (λ f. f ≡ row_report row.now) }
{
    let content = row.content.submission();
    let entries = content.entries.as_slice();
    Ok(SubmissionReport {
        cents: row.content.total(),
        day: content.day.day(),
        direction: content.direction,
        entries: ListOf::new(reported_entries(alloc, entries, row.states.as_slice())?),
        retried: retried_entry(&row.retry),
        order: row.order,
        reference: content.reference,
        sec: content.sec,
    })
}

/// Gives the same where there is a row.
pub(crate) fn report_or_none(
    alloc: Global,
    row: &Option<Row>,
) -> Result<Option<SubmissionReport>, AllocError>
    ensures { IfOk result (λ f. f ≡ option_map row_report row.now) }
{
    match row {
        Some(row) => Ok(Some(submission_report(alloc, row)?)),
        None => Ok(None),
    }
}
