//! Rows of submissions that still count for a company's exposures.
ghost use Rattle.std.specs.Prelude.{◌≡◌};
ghost use Rattle.desk_book.specs.OpenRows.{is_open_row};
ghost use Rattle.sql_queries.specs.Asking.{Asks, AreThe};
ghost use Rattle.sql_reads.specs.RowsFound.{open_rows_in};

use crate::rows::rows;
use ach_fields::Id;
use bank_days::Day;
use desk_book::Row;
use desk_rules::is_open_credit;
use desk_store::StoreFault;
use sql_queries::open_submissions;
use sql_read_steps::or_unavailable;
use sqlite::{Alter, Connection};
use std::alloc::Global;

// Is an entry of the row held, or settled on the day or after it?
fn is_open(row: &Row, since: Day) -> bool
    ensures { result ≡ is_open_row since row.now }
{
    row.states
        .as_slice()
        .iter()
        .any(|state| is_open_credit(*state, since))
}

/// Reads a company's submissions and retries with their entries, by order number, of which an entry
/// is held or settled on a day or later, also where it came back.
pub fn open_rows<S: Alter>(
    conn: &mut Connection<S>,
    alloc: Global,
    company: Id,
    since: Day,
) -> Result<Vec<Row>, StoreFault>
    ensures { Asks S.Store conn.old conn.new result (AreThe (open_rows_in company since)) }
{
    let heads = or_unavailable(open_submissions(conn, alloc, company, since))?;
    let mut found = rows(conn, alloc, heads)?;
    found.retain(|row| is_open(row, since));
    Ok(found)
}
