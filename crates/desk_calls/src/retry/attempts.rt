//! A retry is judged by these plain values: the entry that it names, and its attempts.
ghost use Rattle.std.specs.Prelude.{◌≡◌, ◌-◌, ◌++◌, [], ◌∷◌, IfOk, OnOk, filter_map, slice_get};
ghost use Rattle.desk_rules.specs.Attempts.{attempt_of};
ghost use Rattle.desk_history.specs.Accepted.{content_of};
ghost use Rattle.desk_history.specs.Retries.{live_debit};
ghost use Rattle.desk_book.specs.Standing.{state_at};
ghost use Rattle.desk_admission.specs.Verdicts.{attempts_of};
ghost use Rattle.desk_calls.specs.Retrying.{may_try_again, retry_attempts};

use ach_fields::ShortText;
use bank_days::{Calendar, Day};
use desk_book::{Row, state_numbered};
use desk_rules::{
    Attempt, Direction, Entry, EntryState, Refusal, Retry, SizedSubmission, Submission, may_retry,
};
use desk_store::StoreFault;
use std::alloc::{AllocError, Global};

fn entry_numbered(entries: &[Entry], index: u64) -> Option<Entry>
    ensures { result ≡ slice_get entries.now (index - 1) }
{
    let at = index.saturating_sub(1) as usize;
    if at < entries.len() {
        Some(entries[at])
    } else {
        None
    }
}

/// Returns the live debit with this number in a submission that is not a retry.
pub(crate) fn entry_named(row: &Row, index: u64) -> Option<Entry>
    ensures { result ≡ live_debit row.now.content row.now.retry index }
{
    let content = row.content.submission();
    if row.retry.is_some() || content.direction == Direction::Credit {
        return None;
    }
    let entry = entry_numbered(content.entries.as_slice(), index)?;
    if entry.prenote {
        return None;
    }
    Some(entry)
}

/// Gives the state of the entry with this number.
pub(crate) fn state_at(row: &Row, index: u64) -> EntryState
    ensures { result ≡ state_at row.now index }
{
    state_numbered(row.states.as_slice(), index)
}

fn push_attempt(tried: &mut Vec<Attempt>, state: EntryState) -> Result<(), AllocError>
    ensures { OnOk result
        (tried.new.items ≡ tried.old.items ++ filter_map attempt_of (state ∷ [])) }
{
    if let Some(attempt) = state.attempt() {
        tried.push(attempt)?;
    }
    Ok(())
}

fn push_retries(tried: &mut Vec<Attempt>, retries: &[Row]) -> Result<(), AllocError>
    ensures { OnOk result (tried.new.items ≡ tried.old.items ++ retry_attempts retries.now) }
{
    for retry in retries {
        push_attempt(tried, state_at(retry, 1))?;
    }
    Ok(())
}

/// Gives the attempts to collect an entry of a row, which has these retries.
fn attempts_of(
    alloc: Global,
    retries: &[Row],
    row: &Row,
    index: u64,
) -> Result<Vec<Attempt>, AllocError>
    ensures { IfOk result (λ tried. tried.items ≡ attempts_of retries.now row.now index) }
{
    let mut tried = Vec::new(alloc);
    push_attempt(&mut tried, state_at(row, index))?;
    push_retries(&mut tried, retries)?;
    Ok(tried)
}

/// Gives the submission of a retry: the original's kind and entry, under the description of
/// retries.
pub(crate) fn content_of(
    alloc: Global,
    retry: &Retry,
    content: &Submission,
    entry: Entry,
) -> Result<SizedSubmission, AllocError>
    ensures { IfOk result (λ made. made ≡ content_of retry.now content.now entry) }
{
    SizedSubmission::of_one(
        alloc,
        retry.reference,
        content.sec,
        content.direction,
        ShortText::new(b"RETRY PYMT").unwrap(),
        retry.day,
        entry,
    )
}

/// May the entry of a row, which has these retries, be tried again? An entry has an attempt unless it
/// lapsed, which only a retry does: other lists are of no desk.
pub(crate) fn first_of_attempts(
    alloc: Global,
    retries: &[Row],
    row: &Row,
    retry: &Retry,
    today: Day,
    calendar: &Calendar,
) -> Result<Result<(), Refusal>, StoreFault>
    ensures { IfOk result
        (λ v. v ≡ may_try_again retries.now row.now retry.now today calendar.now) }
{
    let tried = attempts_of(alloc, retries, row, retry.index)?;
    if tried.is_empty() {
        return Err(StoreFault::Unavailable);
    }
    Ok(may_retry(&tried, retry.day, retry.authorized, today, calendar))
}
