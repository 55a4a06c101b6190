//! A cut writes the places of entries: those of a run by one statement.
ghost use Rattle.std.specs.Prelude.{◌≡◌, ◌<◌, true, length};
ghost use Rattle.sql_statements.specs.Edits.{each_edit_from};
ghost use Rattle.sql_tables.specs.Layout.{desk_layout};
ghost use Rattle.sql_writes.specs.DeskEdits.{Edits};
ghost use Rattle.sql_writes.specs.EntryRuns.{stands_after, comes_after, are_counted};
ghost use Rattle.sql_writes.specs.PlaceEdits.{mark_entry_edit};
ghost use Rattle.sql_writes.specs.Runs.{is_run};

use crate::runs::{Follows, RunBody, execute_all, run_length, span_of};
use desk_history::SentEntry;
use sql_tables::{characters, natural};
use sqlite::{Alter, Error, Transaction};

/// `MarkEntries` writes the place of each entry of a list. An entry that is not there or was sent
/// already is refused with `Error::InvalidQuery`.
#[derive(Clone, Copy)]
pub(crate) struct MarkEntries;

/// The entries of a run follow one another by their numbers in one submission, or each has the same
/// number in one submission after another.
#[derive(Clone, Copy)]
pub(crate) enum EntryRun {
    OfOne,
    OfMany,
}

impl RunBody for MarkEntries {
    type Row = SentEntry;

    type Way = EntryRun;

    ghost layout = { desk_layout };

    ghost edit = { λ _ place e. mark_entry_edit place e };

    ghost are_run = { λ _ way es. are_counted way es };

    fn first_run(&self, entries: &[SentEntry]) -> (EntryRun, usize) {
        let of_one = run_length(&InOne, entries);
        let of_many = run_length(&InMany, entries);
        if of_one < of_many {
            (EntryRun::OfMany, of_many)
        } else {
            (EntryRun::OfOne, of_one)
        }
    }

    fn run_rows<S: Alter>(
        &self,
        tx: &mut Transaction<'_, S>,
        place: u64,
        way: EntryRun,
        run: &[SentEntry],
    ) -> Result<(), Error> {
        match way {
            EntryRun::OfOne => mark_in_one(tx, place, run)?,
            EntryRun::OfMany => mark_in_many(tx, place, run)?,
        }
        Ok(())
    }
}

// Entries of one submission follow one another by their numbers there.
#[derive(Clone, Copy)]
struct InOne;

impl Follows for InOne {
    type Row = SentEntry;

    ghost stands_after = { λ _ first after e. stands_after first after e };

    fn follows(&self, first: &SentEntry, after: u64, entry: &SentEntry) -> bool {
        match first.index.checked_add(after) {
            None => false,
            Some(index) => {
                entry.company.bytes() == first.company.bytes()
                    && entry.order == first.order
                    && entry.index == index
            }
        }
    }
}

// Entries that have one number in a company's submissions follow one another by the submissions' orders.
#[derive(Clone, Copy)]
struct InMany;

impl Follows for InMany {
    type Row = SentEntry;

    ghost stands_after = { λ _ first after e. comes_after first after e };

    fn follows(&self, first: &SentEntry, after: u64, entry: &SentEntry) -> bool {
        match first.order.checked_add(after) {
            None => false,
            Some(order) => {
                entry.company.bytes() == first.company.bytes()
                    && entry.order == order
                    && entry.index == first.index
            }
        }
    }
}

// Writes the places of entries that follow one another in one submission.
fn mark_in_one<S: Alter>(
    tx: &mut Transaction<'_, S>,
    place: u64,
    run: &[SentEntry],
) -> Result<(), Error>
    requires some { 0 < length run.now }
    requires run { is_run stands_after run.now ≡ true }
    ensures { Edits S.Store tx.old tx.new result (each_edit_from mark_entry_edit place run.now) }
{
    let first = &run[0];
    let span = span_of(place, first.index, run.len())?;
    let order = natural(first.order)?;
    let from = natural(first.index)?;
    let to = natural(span.last)?;
    execute_all(
        tx,
        "UPDATE entries SET seq = ?3 + idx WHERE company = ?1 AND ord = ?2 AND idx BETWEEN ?4 AND ?5 AND seq IS NULL",
        &[
            characters(first.company.bytes()),
            order,
            span.added,
            from,
            to,
        ],
        run.len(),
    )?;
    Ok(())
}

// Writes the places of entries that have one number in submissions that follow one another.
fn mark_in_many<S: Alter>(
    tx: &mut Transaction<'_, S>,
    place: u64,
    run: &[SentEntry],
) -> Result<(), Error>
    requires some { 0 < length run.now }
    requires run { is_run comes_after run.now ≡ true }
    ensures { Edits S.Store tx.old tx.new result (each_edit_from mark_entry_edit place run.now) }
{
    let first = &run[0];
    let span = span_of(place, first.order, run.len())?;
    let index = natural(first.index)?;
    let from = natural(first.order)?;
    let to = natural(span.last)?;
    execute_all(
        tx,
        "UPDATE entries SET seq = ?3 + ord WHERE company = ?1 AND ord BETWEEN ?4 AND ?5 AND idx = ?2 AND seq IS NULL",
        &[
            characters(first.company.bytes()),
            index,
            span.added,
            from,
            to,
        ],
        run.len(),
    )?;
    Ok(())
}
