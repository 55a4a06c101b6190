//! Each sent entry's place becomes the number of the sequence that it has.
ghost use Rattle.sql_migration.specs.Migration.{put_number_edit, number_entries_edit, number_in, seen_layout, if_seen, EditsIfSeen};

use sql_statements::{RowBody, execute, number, query_inside, run_each};
use sql_tables::{natural, read_only_column};
use sqlite::{Alter, Error, Row, Transaction};

/// Writes a number for each entry that was sent: its sequence was used once, and is its place.
pub(crate) fn number_entries<S: Alter>(tx: &mut Transaction<'_, S>) -> Result<(), Error>
    ensures { EditsIfSeen S.Store tx.old tx.new result number_entries_edit }
{
    let rows = query_inside(
        tx,
        "SELECT seq FROM entries WHERE seq >= ?1 ORDER BY company, ord, idx",
        &[number(1)],
    )?;
    run_each(tx, &NumberEntries, 1, &rows)?;
    Ok(())
}

// A row of the query has the place of an entry.
#[derive(Clone, Copy)]
struct NumberEntries;

impl RowBody for NumberEntries {
    type Row = Row;

    ghost layout = { seen_layout };

    ghost edit = { λ _ _ row. if_seen (put_number_edit (number_in row)) };

    fn run_row<S: Alter>(
        &self,
        tx: &mut Transaction<'_, S>,
        _number: u64,
        row: &Row,
    ) -> Result<(), Error> {
        match read_only_column(row) {
            Some(place) => put_number(tx, place),
            None => Err(Error::InvalidQuery),
        }
    }
}

// Writes the place of the one entry that has a sequence, which is the sequence.
fn put_number<S: Alter>(tx: &mut Transaction<'_, S>, place: u64) -> Result<(), Error>
    ensures { EditsIfSeen S.Store tx.old tx.new result (put_number_edit place) }
{
    let sequence = natural(place)?;
    let at = natural(place)?;
    execute(tx, "INSERT INTO numbers VALUES (?1, ?2)", &[sequence, at])?;
    Ok(())
}
