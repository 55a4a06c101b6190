//! A cut writes the place of the youngest entry that has each sequence: the numbers of a range of
//! sequences are taken out by one statement, and the new ones put in, sixteen by one as long as there are
//! so many.
ghost use Rattle.std.specs.Prelude.{◌≡◌, ◌≤◌, ◌<◌, ◌+◌, IfOk, OnOk};
ghost use Rattle.sqlite.specs.Values.{bound};
ghost use Rattle.ach_fields.specs.Trace.{most_sequence};
ghost use Rattle.sql_tables.specs.Layout.{desk_layout};
ghost use Rattle.sql_writes.specs.NumberRows.{held_number, stored_number};
ghost use Rattle.sql_writes.specs.PlaceEdits.{put_number_edit, follows_in_sequence, clear_numbers_edit, insert_number_edit};
ghost use Rattle.sql_writes.specs.DeskEdits.{Edits};
ghost use Rattle.sql_writes.specs.Runs.{is_run};

use crate::batches::{BatchBody, run_batches};
use crate::held_rows::{HoldBody, hold_sixteen};
use crate::runs::{Follows, RunBody, run_length};
use ach_fields::MOST_SEQUENCE;
use desk_history::SentEntry;
use sql_statements::{RowBody, execute, number};
use sql_tables::{integer, natural};
use sqlite::types::ValueRef;
use sqlite::{Alter, Error, Transaction};

/// `PutNumbers` gives the sequence of each entry of a list its place. A sequence that is not from 1 to
/// 9,999,999 is refused with `Error::InvalidQuery`.
#[derive(Clone, Copy)]
pub(crate) struct PutNumbers;

impl Follows for PutNumbers {
    type Row = SentEntry;

    ghost stands_after = { λ _ first after e. follows_in_sequence first after e };

    fn follows(&self, first: &SentEntry, after: u64, entry: &SentEntry) -> bool {
        match u64::from(first.sequence).checked_add(after) {
            None => false,
            Some(sequence) => u64::from(entry.sequence) == sequence,
        }
    }
}

impl RunBody for PutNumbers {
    type Row = SentEntry;

    type Way = ();

    ghost layout = { desk_layout };

    ghost edit = { λ _ place e. put_number_edit place e };

    ghost are_run = { λ _ _ es. is_run follows_in_sequence es };

    fn first_run(&self, entries: &[SentEntry]) -> ((), usize) {
        ((), run_length(self, entries))
    }

    fn run_rows<S: Alter>(
        &self,
        tx: &mut Transaction<'_, S>,
        place: u64,
        _way: (),
        run: &[SentEntry],
    ) -> Result<(), Error> {
        let from = u64::from(run[0].sequence);
        let to = last_sequence(from, run.len())?;
        clear_numbers(tx, from, to)?;
        run_batches(tx, &NumberRows, place, run)?;
        Ok(())
    }
}

// The last of so many sequences. `Error::InvalidQuery` says that they are not from 1 to 9,999,999.
fn last_sequence(from: u64, many: usize) -> Result<u64, Error>
    requires { 0 < many }
    ensures last { IfOk result (λ last. last + 1 ≡ from + many) }
    ensures low { OnOk result (1 ≤ from) }
    ensures high { IfOk result (λ last. last ≤ most_sequence) }
{
    match from.checked_add(many as u64 - 1) {
        Some(last) if from >= 1 && last <= u64::from(MOST_SEQUENCE) => Ok(last),
        _ => Err(Error::InvalidQuery),
    }
}

// Takes out the numbers of a range of sequences.
fn clear_numbers<S: Alter>(tx: &mut Transaction<'_, S>, from: u64, to: u64) -> Result<(), Error>
    ensures { Edits S.Store tx.old tx.new result (clear_numbers_edit from to) }
{
    let first = natural(from)?;
    let last = natural(to)?;
    execute(
        tx,
        "DELETE FROM numbers WHERE sequence BETWEEN ?1 AND ?2",
        &[first, last],
    )?;
    Ok(())
}

// The number of a sequence that has none is written.
#[derive(Clone, Copy)]
struct NumberRows;

impl RowBody for NumberRows {
    type Row = SentEntry;

    ghost layout = { desk_layout };

    ghost edit = { λ _ place e. insert_number_edit place e };

    fn run_row<S: Alter>(
        &self,
        tx: &mut Transaction<'_, S>,
        place: u64,
        entry: &SentEntry,
    ) -> Result<(), Error> {
        let row = self.hold(place, entry)?;
        execute(tx, "INSERT INTO numbers VALUES (?1, ?2)", &values_of(&row))?;
        Ok(())
    }
}

impl BatchBody for NumberRows {
    fn run_batch<S: Alter>(
        &self,
        tx: &mut Transaction<'_, S>,
        first: u64,
        entries: &[SentEntry],
    ) -> Result<(), Error> {
        let rows = hold_sixteen(self, first, entries)?;
        let values = rows.each_ref().map(values_of);
        execute(
            tx,
            "INSERT INTO numbers VALUES (?, ?), (?, ?), (?, ?), (?, ?), (?, ?), (?, ?), (?, ?), (?, ?), \
             (?, ?), (?, ?), (?, ?), (?, ?), (?, ?), (?, ?), (?, ?), (?, ?)",
            values.as_flattened(),
        )?;
        Ok(())
    }
}

impl HoldBody for NumberRows {
    type Held = NumberRow;

    ghost held = { λ _. held_number };

    fn hold(&self, place: u64, entry: &SentEntry) -> Result<NumberRow, Error> {
        Ok(NumberRow {
            sequence: integer(u64::from(entry.sequence))?,
            place: integer(place)?,
        })
    }
}

/// A `NumberRow` is what a row stores.
#[derive(Clone, Copy)]
pub(crate) struct NumberRow {
    sequence: i64,
    place: i64,
}

// The values of a row.
fn values_of<'a>(row: &'a NumberRow) -> [ValueRef<'a>; 2]
    ensures { bound result ≡ stored_number row.now }
{
    [number(row.sequence), number(row.place)]
}
