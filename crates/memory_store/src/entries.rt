//! Reads of one company's rows in memory, in place, for the few that are wanted.
ghost use Rattle.std.specs.Prelude.{◌≡◌, ◌&&◌, ◌∷◌, [], bytes_eq, option_map, IfOk, OnOk};
ghost use Rattle.std.specs.List.{list_any};
ghost use Rattle.desk_rules.specs.Exposure.{is_open_credit};
ghost use Rattle.desk_history.specs.Retries.{is_same_entry};
ghost use Rattle.desk_book.specs.Standing.{is_held, row_under, state_at};
ghost use Rattle.memory_store.specs.Finds.{Adds, found_row, passes, passing_among, passing_at, rows_among};
ghost use Rattle.memory_store.specs.Kept.{row_in};
ghost use Rattle.memory_store.specs.Open.{may_be_open, is_found_open};

use crate::list_store::KeptSubmission;
use crate::reads::{is_submission_of, row_like};
use ach_fields::{Id, Ref};
use bank_days::Day;
use desk_book::{Row, state_numbered};
use desk_rules::{EntryState, Retry, RuleDay, is_open_credit};
use std::alloc::{AllocError, Global};

/// The rows of a company that a read wants.
#[derive(Clone, Copy)]
pub(crate) enum RowFilter {
    /// Those with an entry that is held or settled since a day.
    OpenSince(Day),
    /// The retries of the entry that has this number in the submission with this reference.
    RetriesOf(Ref, u64),
    /// Those that no cut has decided.
    Held,
}

fn is_any_open(states: &[EntryState], since: Day) -> bool
    ensures { result ≡ list_any (λ s. is_open_credit s since) states.now }
{
    states.iter().any(|state| is_open_credit(*state, since))
}

/// May a submission that settled on this day have an entry that is held or settled since a day? This
/// is asked before its entries are gone through: most of a company's settled long ago.
pub(crate) fn may_be_open(settled: Option<RuleDay>, since: Day) -> bool
    ensures { result ≡ may_be_open since settled }
{
    match settled {
        Some(settled) => settled.day() >= since,
        None => true,
    }
}

fn is_same_entry(of: Ref, index: u64, retry: Option<Retry>) -> bool
    ensures { result ≡ is_same_entry of index retry }
{
    match retry {
        Some(retry) => retry.of.bytes() == of.bytes() && retry.index == index,
        None => false,
    }
}

fn is_held(kept: &KeptSubmission) -> bool
    ensures { result ≡ is_held (row_in kept.now).row }
{
    kept.settled.is_none() && !kept.lapsed
}

fn passes(kept: &KeptSubmission, which: &RowFilter) -> bool
    ensures { result ≡ passes which.now (row_in kept.now).row }
{
    match *which {
        RowFilter::OpenSince(since) => {
            may_be_open(kept.settled, since) && is_any_open(&kept.states, since)
        }
        RowFilter::RetriesOf(of, index) => is_same_entry(of, index, kept.retry),
        RowFilter::Held => is_held(kept),
    }
}

/// Is it a company's, and does it pass a filter?
pub(crate) fn passes_of(kept: &KeptSubmission, company: Id, which: &RowFilter) -> bool
    ensures { result ≡
        (bytes_eq kept.now.company company && passes which.now (row_in kept.now).row) }
{
    kept.company.bytes() == company.bytes() && passes(kept, which)
}

/// Appends the row at a place, if it is the company's and passes.
fn push_passing(
    alloc: Global,
    rows: &mut Vec<Row>,
    kept: &[KeptSubmission],
    place: usize,
    company: Id,
    which: &RowFilter,
) -> Result<(), AllocError>
    ensures { OnOk result (Adds (passing_at kept.now place company which.now) rows.old rows.new) }
{
    if place < kept.len() {
        let one = &kept[place];
        if passes_of(one, company, which) {
            rows.push(row_like(alloc, one)?)?;
        }
    }
    Ok(())
}

/// Returns a company's rows that pass, among those at these places.
pub(crate) fn rows_passing(
    alloc: Global,
    kept: &[KeptSubmission],
    places: &[usize],
    company: Id,
    which: &RowFilter,
) -> Result<Vec<Row>, AllocError>
    ensures { IfOk result
        (λ rows. rows.items ≡ passing_among kept.now places.now company which.now) }
{
    let mut rows = Vec::new(alloc);
    for place in places {
        push_passing(alloc, &mut rows, kept, *place, company, which)?;
    }
    Ok(rows)
}

/// Returns the row at a place, if it is the company's submission with this reference.
fn submission_at<'a>(
    kept: &'a [KeptSubmission],
    place: usize,
    company: Id,
    reference: Ref,
) -> Option<&'a KeptSubmission>
    ensures { found_row result ≡ row_under (rows_among kept.now (place ∷ []) company) reference }
{
    if place < kept.len() {
        let one = &kept[place];
        if is_submission_of(one, company, reference) {
            return Some(one);
        }
    }
    None
}

/// Returns a company's submission with a reference, among those at these places.
pub(crate) fn submission_among<'a>(
    kept: &'a [KeptSubmission],
    places: &[usize],
    company: Id,
    reference: Ref,
) -> Option<&'a KeptSubmission>
    ensures { found_row result ≡ row_under (rows_among kept.now places.now company) reference }
{
    for place in places {
        let found = submission_at(kept, *place, company, reference);
        if found.is_some() {
            return found;
        }
    }
    None
}

/// Copies a row that was found.
pub(crate) fn row_of(
    alloc: Global,
    found: Option<&KeptSubmission>,
) -> Result<Option<Row>, AllocError>
    ensures { IfOk result (λ row. row ≡ found_row found.entry) }
{
    match found {
        Some(one) => Ok(Some(row_like(alloc, one)?)),
        None => Ok(None),
    }
}

/// Gives the state of an entry of a row that was found.
pub(crate) fn state_of(found: Option<&KeptSubmission>, index: u64) -> Option<EntryState>
    ensures { result ≡ option_map (λ row. state_at row index) (found_row found.entry) }
{
    match found {
        Some(one) => Some(state_numbered(&one.states, index)),
        None => None,
    }
}
