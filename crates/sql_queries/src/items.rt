//! What came back of entries.
ghost use Rattle.std.specs.Prelude.{IsPermutation, IsSorted};
ghost use Rattle.sql_queries.specs.ByNumber.{by_line_number};
ghost use Rattle.sql_tables.specs.TableReads.{returns_in, return_at, orders_returned, return_lines_in, change_lines_in, suspense_in};
ghost use Rattle.sql_queries.specs.Suspense.{last_suspense_in};
ghost use Rattle.sql_queries.specs.Asking.{Asks, AreThe, IsThe};

use crate::rows::{all_of, cell_of, column_of, first_of};
use ach_fields::Id;
use desk_history::SuspenseRow;
use sql_tables::{ChangeLine, EntryReturn, ReturnLine, characters, natural};
use sqlite::{Alter, Connection, Error};
use std::alloc::Global;

/// Gives the returns of the entries of the submission with a number in its company.
pub fn returns<S: Alter>(
    conn: &mut Connection<S>,
    alloc: Global,
    company: Id,
    order: u64,
) -> Result<Vec<EntryReturn>, Error>
    ensures { Asks S.Store conn.old conn.new result (AreThe (returns_in company order)) }
{
    all_of(
        conn,
        alloc,
        "SELECT idx, code, day, late FROM returns WHERE company = ?1 AND ord = ?2 ORDER BY no",
        &[characters(company.bytes()), natural(order)?],
    )
}

/// Finds the return of the entry with a number in its submission.
pub fn entry_return<S: Alter>(
    conn: &mut Connection<S>,
    company: Id,
    order: u64,
    index: u64,
) -> Result<Option<EntryReturn>, Error>
    ensures { Asks S.Store conn.old conn.new result (IsThe (return_at company order index)) }
{
    first_of(
        conn,
        "SELECT idx, code, day, late FROM returns WHERE company = ?1 AND ord = ?2 AND idx = ?3 ORDER BY no",
        &[
            characters(company.bytes()),
            natural(order)?,
            natural(index)?,
        ],
    )
}

/// Gives the number of the submission of each return of a company that was taken on the day with a
/// number or later, in the order in which they came.
pub fn orders_returned<S: Alter>(
    conn: &mut Connection<S>,
    alloc: Global,
    company: Id,
    since: u64,
) -> Result<Vec<u64>, Error>
    ensures { Asks S.Store conn.old conn.new result (AreThe (orders_returned company since)) }
{
    column_of(
        conn,
        alloc,
        "SELECT ord FROM returns WHERE company = ?1 AND day >= ?2 ORDER BY no",
        &[characters(company.bytes()), natural(since)?],
    )
}

/// Gives the returns of a company, in the order in which they came.
pub fn return_lines<S: Alter>(
    conn: &mut Connection<S>,
    alloc: Global,
    company: Id,
) -> Result<Vec<ReturnLine>, Error>
    ensures { Asks S.Store conn.old conn.new result (AreThe (return_lines_in company)) }
{
    // No index gives them by their numbers, and the engine would hold all of them to sort them.
    let lines = all_of(
        conn,
        alloc,
        "SELECT no, ord, idx, code, day, late, info FROM returns WHERE company = ?1 ORDER BY day",
        &[characters(company.bytes())],
    )?;
    Ok(in_order(lines))
}

// The lines by their numbers, in the place that they have.
fn in_order(mut lines: Vec<ReturnLine>) -> Vec<ReturnLine>
    ensures same { IsPermutation lines.items result.items }
    ensures sorted { IsSorted by_line_number result.items }
{
    lines.sort_unstable_by_key(|line| line.number);
    lines
}

/// Gives the notifications of change of a company, in the order in which they came.
pub fn change_lines<S: Alter>(
    conn: &mut Connection<S>,
    alloc: Global,
    company: Id,
) -> Result<Vec<ChangeLine>, Error>
    ensures { Asks S.Store conn.old conn.new result (AreThe (change_lines_in company)) }
{
    all_of(
        conn,
        alloc,
        "SELECT ord, idx, code, day, text FROM changes WHERE company = ?1 ORDER BY no",
        &[characters(company.bytes())],
    )
}

/// Gives the items that name no sent entry, in the order in which they came.
pub fn suspense<S: Alter>(
    conn: &mut Connection<S>,
    alloc: Global,
) -> Result<Vec<SuspenseRow>, Error>
    ensures { Asks S.Store conn.old conn.new result (AreThe suspense_in) }
{
    all_of(
        conn,
        alloc,
        "SELECT file_key, item, why, code, trace, cents, day FROM suspense ORDER BY no",
        &[],
    )
}

/// Gives the number of the last item in suspense, 0 before the first.
pub fn last_suspense_number<S: Alter>(conn: &mut Connection<S>) -> Result<u64, Error>
    ensures { Asks S.Store conn.old conn.new result (IsThe last_suspense_in) }
{
    match cell_of(
        conn,
        "SELECT no FROM suspense ORDER BY no DESC LIMIT 1",
        &[],
    )? {
        Some(number) => Ok(number),
        None => Ok(0),
    }
}
