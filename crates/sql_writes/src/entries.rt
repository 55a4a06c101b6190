//! The entries of a new submission are written, sixteen by one statement as long as there are so many.
ghost use Rattle.std.specs.Prelude.{◌≡◌};
ghost use Rattle.sqlite.specs.Values.{bound};
ghost use Rattle.sql_tables.specs.Layout.{desk_layout};
ghost use Rattle.sql_tables.specs.TableEdits.{put_entry_edit};
ghost use Rattle.sql_writes.specs.EntryEdits.{held_entry, stored_entry};

use crate::batches::BatchBody;
use crate::held_rows::{HoldBody, hold_sixteen};
use ach_fields::Id;
use desk_rules::Entry;
use sql_statements::{RowBody, execute, number};
use sql_tables::{characters, integer, optional_text, savings, switch};
use sqlite::types::ValueRef;
use sqlite::{Alter, Error, Transaction};

/// `EntryRows` are the rows of the entries of a company's submission, which number them.
#[derive(Clone, Copy)]
pub(crate) struct EntryRows {
    pub(crate) company: Id,
    pub(crate) order: u64,
}

impl RowBody for EntryRows {
    type Row = Entry;

    ghost layout = { desk_layout };

    ghost edit = { λ b. put_entry_edit b.company b.order };

    fn run_row<S: Alter>(
        &self,
        tx: &mut Transaction<'_, S>,
        number: u64,
        entry: &Entry,
    ) -> Result<(), Error> {
        let row = self.hold(number, entry)?;
        execute(
            tx,
            "INSERT INTO entries VALUES (?1, ?2, ?3, ?4, ?5, ?6, ?7, ?8, ?9, ?10, ?11, ?12)",
            &values_of(&row),
        )?;
        Ok(())
    }
}

impl BatchBody for EntryRows {
    fn run_batch<S: Alter>(
        &self,
        tx: &mut Transaction<'_, S>,
        first: u64,
        entries: &[Entry],
    ) -> Result<(), Error> {
        let rows = hold_sixteen(self, first, entries)?;
        let values = rows.each_ref().map(values_of);
        execute(
            tx,
            "INSERT INTO entries VALUES \
             (?, ?, ?, ?, ?, ?, ?, ?, ?, ?, ?, ?), (?, ?, ?, ?, ?, ?, ?, ?, ?, ?, ?, ?), \
             (?, ?, ?, ?, ?, ?, ?, ?, ?, ?, ?, ?), (?, ?, ?, ?, ?, ?, ?, ?, ?, ?, ?, ?), \
             (?, ?, ?, ?, ?, ?, ?, ?, ?, ?, ?, ?), (?, ?, ?, ?, ?, ?, ?, ?, ?, ?, ?, ?), \
             (?, ?, ?, ?, ?, ?, ?, ?, ?, ?, ?, ?), (?, ?, ?, ?, ?, ?, ?, ?, ?, ?, ?, ?), \
             (?, ?, ?, ?, ?, ?, ?, ?, ?, ?, ?, ?), (?, ?, ?, ?, ?, ?, ?, ?, ?, ?, ?, ?), \
             (?, ?, ?, ?, ?, ?, ?, ?, ?, ?, ?, ?), (?, ?, ?, ?, ?, ?, ?, ?, ?, ?, ?, ?), \
             (?, ?, ?, ?, ?, ?, ?, ?, ?, ?, ?, ?), (?, ?, ?, ?, ?, ?, ?, ?, ?, ?, ?, ?), \
             (?, ?, ?, ?, ?, ?, ?, ?, ?, ?, ?, ?), (?, ?, ?, ?, ?, ?, ?, ?, ?, ?, ?, ?)",
            values.as_flattened(),
        )?;
        Ok(())
    }
}

impl HoldBody for EntryRows {
    type Held = EntryRow;

    ghost held = { λ b. held_entry b.company b.order };

    fn hold(&self, index: u64, entry: &Entry) -> Result<EntryRow, Error> {
        Ok(EntryRow {
            company: self.company,
            order: integer(self.order)?,
            index: integer(index)?,
            routing: entry.routing.text(),
            cents: integer(entry.cents.get())?,
            entry: *entry,
        })
    }
}

/// An `EntryRow` is what a row of an entry stores that was not sent, beside the entry whose texts it
/// borrows.
#[derive(Clone, Copy)]
pub(crate) struct EntryRow {
    company: Id,
    order: i64,
    index: i64,
    routing: [u8; 9],
    cents: i64,
    entry: Entry,
}

// The values of a row of an entry that was not sent.
fn values_of<'a>(row: &'a EntryRow) -> [ValueRef<'a>; 12]
    ensures { bound result ≡ stored_entry row.now }
{
    [
        characters(row.company.bytes()),
        number(row.order),
        number(row.index),
        characters(&row.routing),
        characters(row.entry.account.bytes()),
        savings(row.entry.kind),
        switch(row.entry.prenote),
        number(row.cents),
        characters(row.entry.id.bytes()),
        characters(row.entry.name.bytes()),
        optional_text(&row.entry.info),
        ValueRef::Null,
    ]
}
