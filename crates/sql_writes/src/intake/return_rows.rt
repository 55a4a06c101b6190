//! The rows of returns are written, sixteen by one statement as long as there are so many.
ghost use Rattle.std.specs.Prelude.{◌≡◌};
ghost use Rattle.sqlite.specs.Values.{bound};
ghost use Rattle.sql_tables.specs.Layout.{desk_layout};
ghost use Rattle.sql_tables.specs.TableEdits.{put_return_edit};
ghost use Rattle.sql_writes.specs.ReturnRows.{held_return, stored_return};

use crate::batches::BatchBody;
use crate::held_rows::{HoldBody, hold_sixteen};
use desk_book::ReturnedRow;
use sql_statements::{RowBody, execute, number};
use sql_tables::{characters, date, integer, switch};
use sqlite::types::ValueRef;
use sqlite::{Alter, Error, Transaction};

/// `ReturnRows` are the rows of returns, each under its number. A return of an entry that was returned
/// before is refused by the key of the table.
#[derive(Clone, Copy)]
pub(crate) struct ReturnRows;

impl RowBody for ReturnRows {
    type Row = ReturnedRow;

    ghost layout = { desk_layout };

    ghost edit = { λ _. put_return_edit };

    fn run_row<S: Alter>(
        &self,
        tx: &mut Transaction<'_, S>,
        number: u64,
        returned: &ReturnedRow,
    ) -> Result<(), Error> {
        let row = self.hold(number, returned)?;
        execute(
            tx,
            "INSERT INTO returns VALUES (?1, ?2, ?3, ?4, ?5, ?6, ?7, ?8)",
            &values_of(&row),
        )?;
        Ok(())
    }
}

impl BatchBody for ReturnRows {
    fn run_batch<S: Alter>(
        &self,
        tx: &mut Transaction<'_, S>,
        first: u64,
        returned: &[ReturnedRow],
    ) -> Result<(), Error> {
        let rows = hold_sixteen(self, first, returned)?;
        let values = rows.each_ref().map(values_of);
        execute(
            tx,
            "INSERT INTO returns VALUES \
             (?, ?, ?, ?, ?, ?, ?, ?), (?, ?, ?, ?, ?, ?, ?, ?), (?, ?, ?, ?, ?, ?, ?, ?), (?, ?, ?, ?, ?, ?, ?, ?), \
             (?, ?, ?, ?, ?, ?, ?, ?), (?, ?, ?, ?, ?, ?, ?, ?), (?, ?, ?, ?, ?, ?, ?, ?), (?, ?, ?, ?, ?, ?, ?, ?), \
             (?, ?, ?, ?, ?, ?, ?, ?), (?, ?, ?, ?, ?, ?, ?, ?), (?, ?, ?, ?, ?, ?, ?, ?), (?, ?, ?, ?, ?, ?, ?, ?), \
             (?, ?, ?, ?, ?, ?, ?, ?), (?, ?, ?, ?, ?, ?, ?, ?), (?, ?, ?, ?, ?, ?, ?, ?), (?, ?, ?, ?, ?, ?, ?, ?)",
            values.as_flattened(),
        )?;
        Ok(())
    }
}

impl HoldBody for ReturnRows {
    type Held = ReturnRow;

    ghost held = { λ _. held_return };

    fn hold(&self, number: u64, returned: &ReturnedRow) -> Result<ReturnRow, Error> {
        Ok(ReturnRow {
            number: integer(number)?,
            order: integer(returned.order)?,
            index: integer(returned.row.index)?,
            code: returned.row.code.text(),
            returned: *returned,
        })
    }
}

/// A `ReturnRow` is what a row stores, beside the return whose text it borrows.
#[derive(Clone, Copy)]
pub(crate) struct ReturnRow {
    number: i64,
    order: i64,
    index: i64,
    code: [u8; 3],
    returned: ReturnedRow,
}

// The values of a row.
fn values_of<'a>(row: &'a ReturnRow) -> [ValueRef<'a>; 8]
    ensures { bound result ≡ stored_return row.now }
{
    [
        number(row.number),
        characters(row.returned.company.bytes()),
        number(row.order),
        number(row.index),
        characters(&row.code),
        date(row.returned.row.day),
        switch(row.returned.row.late),
        characters(&row.returned.row.info),
    ]
}
