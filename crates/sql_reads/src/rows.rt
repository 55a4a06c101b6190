//! Rows of submissions, assembled of what several queries find.
ghost use Rattle.std.specs.Prelude.{◌≡◌};
ghost use Rattle.desk_book.specs.declared.row.Row.{Row};
ghost use Rattle.sql_tables.specs.TableReads.{whole_row, row_under_in, rows_in, is_of, is_retry_of};
ghost use Rattle.sql_queries.specs.Asking.{Asks, AreThe, IsThe};
ghost use Rattle.sql_read_steps.specs.Answers.{LearnsOn};
ghost use Rattle.sql_reads.specs.RowsFound.{GivesRetryOf, whole_rows};

use crate::returned::returns_for;
use ach_fields::{Id, Ref};
use bank_days::Day;
use desk_book::Row;
use desk_store::StoreFault;
use sql_read_steps::{ItemRead, or_unavailable, read_each};
use sql_tables::{SubmissionHead, row_from};
use sqlite::{Alter, Connection};
use std::alloc::Global;

// The day on which a retry was authorized again. Of a submission nothing is asked.
fn authorized_for<S: Alter>(
    conn: &mut Connection<S>,
    head: &SubmissionHead,
) -> Result<Option<Day>, StoreFault>
    ensures { LearnsOn S.Store conn.old conn.new result (GivesRetryOf head.now) }
{
    match head.retried {
        None => Ok(None),
        Some(_) => {
            let day = or_unavailable(sql_queries::authorization(conn, head.company, head.order))?;
            Ok(day)
        }
    }
}

/// Reads the row of a submission or retry of which the head is known.
pub(crate) fn row<S: Alter>(
    conn: &mut Connection<S>,
    alloc: Global,
    head: &SubmissionHead,
) -> Result<Row, StoreFault>
    ensures { Asks S.Store conn.old conn.new result (λ found t. found ≡ whole_row t head.now) }
{
    let entries = or_unavailable(sql_queries::entries_of(conn, alloc, head.company, head.order))?;
    let returns = returns_for(conn, alloc, head)?;
    let authorized = authorized_for(conn, head)?;
    row_from(alloc, head, &entries, &returns, authorized)
}

// The row of each head of a list.
#[derive(Clone, Copy)]
struct WholeRows;

impl ItemRead for WholeRows {
    type Item = SubmissionHead;

    type Found = Row;

    ghost Shown = { Row };

    ghost shown = { λ row. row };

    ghost value = { λ _ t head. whole_row t head };

    fn read_item<S: Alter>(
        &self,
        conn: &mut Connection<S>,
        alloc: Global,
        head: &SubmissionHead,
    ) -> Result<Row, StoreFault> {
        row(conn, alloc, head)
    }
}

/// Reads the rows of submissions and retries of which the heads are known, in their order.
pub(crate) fn rows<S: Alter>(
    conn: &mut Connection<S>,
    alloc: Global,
    heads: Vec<SubmissionHead>,
) -> Result<Vec<Row>, StoreFault>
    ensures { LearnsOn S.Store conn.old conn.new result (AreThe (whole_rows heads.items)) }
{
    let found = read_each(conn, alloc, &WholeRows, heads)?;
    Ok(found)
}

/// Finds a company's submission or retry with its entries, by its reference.
pub fn submission<S: Alter>(
    conn: &mut Connection<S>,
    alloc: Global,
    company: Id,
    reference: Ref,
) -> Result<Option<Row>, StoreFault>
    ensures { Asks S.Store conn.old conn.new result (IsThe (row_under_in company reference)) }
{
    match or_unavailable(sql_queries::submission(conn, company, reference))? {
        Some(head) => {
            let row = row(conn, alloc, &head)?;
            Ok(Some(row))
        }
        None => Ok(None),
    }
}

/// Reads a company's submissions and retries with their entries, by order number.
pub fn entries_of<S: Alter>(
    conn: &mut Connection<S>,
    alloc: Global,
    company: Id,
) -> Result<Vec<Row>, StoreFault>
    ensures { Asks S.Store conn.old conn.new result (AreThe (rows_in (is_of company))) }
{
    let heads = or_unavailable(sql_queries::submissions_of(conn, alloc, company))?;
    rows(conn, alloc, heads)
}

/// Reads a company's retries of the entry that has this number in the submission with this
/// reference, by order number.
pub fn retries_of<S: Alter>(
    conn: &mut Connection<S>,
    alloc: Global,
    company: Id,
    of: Ref,
    index: u64,
) -> Result<Vec<Row>, StoreFault>
    ensures { Asks S.Store conn.old conn.new result
        (AreThe (rows_in (is_retry_of company of index))) }
{
    let heads = or_unavailable(sql_queries::retries(conn, alloc, company, of, index))?;
    rows(conn, alloc, heads)
}
