//! Rows of a book are assembled of the parts that queries find.
ghost use Rattle.std.specs.Prelude.{◌≡◌, ◌==◌, ◌∷◌, map, find, option_map, IfOk};
ghost use Rattle.sql_tables.specs.Encodes.{unless_lapsed};
ghost use Rattle.sql_tables.specs.Composed.{fact_among};
ghost use Rattle.sql_tables.specs.RowParts.{state_with, state_among, states_among, content_of, retry_with, row_of_parts};

use crate::row::entries::{EntryAmount, NumberedEntry};
use crate::row::items::EntryReturn;
use crate::row::submissions::SubmissionHead;
use bank_days::Day;
use desk_book::Row;
use desk_history::ListOf;
use desk_rules::{Entries, EntryFact, EntryState, Retry, SizedSubmission, Submission};
use desk_store::StoreFault;
use std::alloc::{AllocError, Global};

/// Gives the state of an entry of a submission, of which this return came, if any.
pub fn entry_state(head: &SubmissionHead, back: Option<EntryReturn>) -> EntryState
    ensures { result ≡ unless_lapsed head.now.lapsed (state_with head.now.settled back) }
{
    if head.lapsed {
        return EntryState::Lapsed;
    }
    match (head.settled, back) {
        (None, _) => EntryState::Held,
        (Some(settled), None) => EntryState::Sent { settled },
        (Some(settled), Some(back)) => EntryState::Returned {
            settled,
            code: back.code,
            day: back.day,
            late: back.late,
        },
    }
}

// The first return of the entry with this number.
fn return_among(returns: &[EntryReturn], index: u64) -> Option<EntryReturn>
    ensures { result ≡ find (λ r. r.index == index) returns.now }
{
    for back in returns {
        if back.index == index {
            return Some(*back);
        }
    }
    None
}

fn state_among(head: &SubmissionHead, returns: &[EntryReturn], index: u64) -> EntryState
    ensures { result ≡ state_among head.now returns.now index }
{
    entry_state(head, return_among(returns, index))
}

fn states_of(
    alloc: Global,
    head: &SubmissionHead,
    entries: &[NumberedEntry],
    returns: &[EntryReturn],
) -> Result<Vec<EntryState>, AllocError>
    ensures { IfOk result (λ states. states.items ≡ states_among head.now returns.now entries.now) }
{
    let mut states = Vec::new(alloc);
    for entry in entries {
        states.push(state_among(head, returns, entry.index))?;
    }
    Ok(states)
}

fn entries_of(
    alloc: Global,
    first: &NumberedEntry,
    others: &[NumberedEntry],
) -> Result<Entries, AllocError>
    ensures { IfOk result (λ list. list ≡ map (λ e. e.entry) (first.now ∷ others.now)) }
{
    let mut list = Entries::new(alloc, first.entry)?;
    for other in others {
        let entry = other.entry;
        // The checker follows a move of `Entry` only where its parts' types are seen.
        let _info = entry.info;
        list.push(entry)?;
    }
    Ok(list)
}

fn content_from(
    alloc: Global,
    head: &SubmissionHead,
    entries: &[NumberedEntry],
) -> Result<SizedSubmission, StoreFault>
    ensures { IfOk result (λ content. content ≡ content_of head.now entries.now) }
{
    let Some((first, others)) = entries.split_first() else {
        return Err(StoreFault::Unavailable);
    };
    let content = Submission {
        reference: head.reference,
        sec: head.sec,
        direction: head.direction,
        description: head.description,
        day: head.asked,
        entries: entries_of(alloc, first, others)?,
    };
    match SizedSubmission::new(content) {
        Ok(content) => Ok(content),
        Err(_) => Err(StoreFault::Unavailable),
    }
}

/// Gives what the rules read of the entries of a submission, by what they count for and by its returns
/// in the order in which they came.
pub fn facts_from(
    alloc: Global,
    head: &SubmissionHead,
    amounts: &[EntryAmount],
    returns: &[EntryReturn],
) -> Result<Vec<EntryFact>, AllocError>
    ensures { IfOk result
        (λ facts. facts.items ≡ map (fact_among head.now returns.now) amounts.now) }
{
    let debit = head.direction.is_debit();
    let mut facts = Vec::new(alloc);
    for amount in amounts {
        facts.push(EntryFact {
            debit,
            prenote: amount.prenote,
            cents: amount.cents.as_cents(),
            state: state_among(head, returns, amount.index),
        })?;
    }
    Ok(facts)
}

// What a retry asked.
fn retry_from(head: &SubmissionHead, authorized: Option<Day>) -> Option<Retry>
    ensures { result ≡ option_map (retry_with head.now authorized) head.now.retried }
{
    let tried = head.retried?;
    Some(Retry {
        reference: head.reference,
        of: tried.of,
        index: tried.index,
        day: head.asked,
        authorized,
    })
}

/// Makes the row of a submission, its entries, its returns in the order in which they came, and the
/// day on which a retry was authorized again. Entries that are none, more than 1,000 or of a total
/// past twelve digits, as no submission has them, make no row: `Unavailable`.
pub fn row_from(
    alloc: Global,
    head: &SubmissionHead,
    entries: &[NumberedEntry],
    returns: &[EntryReturn],
    authorized: Option<Day>,
) -> Result<Row, StoreFault>
    ensures { IfOk result (λ row. row ≡ row_of_parts head.now entries.now returns.now authorized) }
{
    let content = content_from(alloc, head, entries)?;
    let states = states_of(alloc, head, entries, returns)?;
    Ok(Row {
        order: head.order,
        content,
        retry: retry_from(head, authorized),
        settled: head.settled,
        lapsed: head.lapsed,
        states: ListOf::new(states),
    })
}
