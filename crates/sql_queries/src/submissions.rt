//! Submissions.
ghost use Rattle.std.specs.Prelude.{◌++◌, IfOk, IsPermutation, IsSorted};
ghost use Rattle.sql_tables.specs.CutTables.{is_row};
ghost use Rattle.sql_tables.specs.TableReads.{is_of, is_open_of, is_waiting_of, is_retry_of, heads_in, head_under, order_in, facts_in, last_order, authorized_in};
ghost use Rattle.sql_queries.specs.Waiting.{by_head_order, is_settled_of};
ghost use Rattle.sql_queries.specs.Asking.{Asks, AreThe, IsThe};

use crate::reading::read_while;
use crate::rows::{all_of, cell_of, first_of};
use crate::waiting::Waiting;
use ach_fields::{Id, Ref};
use bank_days::Day;
use sql_tables::{
    OrderAndSettlement, SubmissionFacts, SubmissionHead, characters, natural, number_of,
};
use sqlite::{Alter, Connection, Error};
use std::alloc::Global;

/// Gives the submissions and retries of a company, in their order.
pub fn submissions_of<S: Alter>(
    conn: &mut Connection<S>,
    alloc: Global,
    company: Id,
) -> Result<Vec<SubmissionHead>, Error>
    ensures { Asks S.Store conn.old conn.new result (AreThe (heads_in (is_of company))) }
{
    all_of(
        conn,
        alloc,
        "SELECT company, ord, ref, sec, direction, description, asked, of_ref, of_index, lapsed, settled FROM submissions WHERE company = ?1 ORDER BY company, ord",
        &[characters(company.bytes())],
    )
}

/// Gives those of a company that settle on a day or later, or that still wait.
pub fn open_submissions<S: Alter>(
    conn: &mut Connection<S>,
    alloc: Global,
    company: Id,
    since: Day,
) -> Result<Vec<SubmissionHead>, Error>
    ensures { Asks S.Store conn.old conn.new result (AreThe (heads_in (is_open_of company since))) }
{
    let waiting = waiting_submissions(conn, alloc, company)?;
    let settled = settled_submissions(conn, alloc, company, number_of(since))?;
    in_order(waiting, &settled)
}

// Both lists, in the order of their numbers.
fn in_order(
    mut these: Vec<SubmissionHead>,
    others: &[SubmissionHead],
) -> Result<Vec<SubmissionHead>, Error>
    ensures same { IfOk result (λ all. IsPermutation (these.items ++ others.now) all.items) }
    ensures sorted { IfOk result (λ all. IsSorted by_head_order all.items) }
{
    these.extend_from_slice(others)?;
    these.sort_by_key(|head| head.order)?;
    Ok(these)
}

/// Gives those of a company that settle on the day with a number or later.
pub fn settled_submissions<S: Alter>(
    conn: &mut Connection<S>,
    alloc: Global,
    company: Id,
    since: u64,
) -> Result<Vec<SubmissionHead>, Error>
    ensures { Asks S.Store conn.old conn.new result
        (AreThe (heads_in (is_settled_of company since))) }
{
    all_of(
        conn,
        alloc,
        "SELECT company, ord, ref, sec, direction, description, asked, of_ref, of_index, lapsed, settled FROM submissions WHERE company = ?1 AND settled >= ?2 ORDER BY company, ord",
        &[characters(company.bytes()), natural(since)?],
    )
}

/// Gives those of a company that wait for a cut.
pub fn waiting_submissions<S: Alter>(
    conn: &mut Connection<S>,
    alloc: Global,
    company: Id,
) -> Result<Vec<SubmissionHead>, Error>
    ensures { Asks S.Store conn.old conn.new result (AreThe (heads_in (is_waiting_of company))) }
{
    read_while(
        conn,
        alloc,
        "SELECT company, ord, ref, sec, direction, description, asked, of_ref, of_index, lapsed, settled FROM submissions WHERE company = ?1 ORDER BY company, settled, lapsed, ord",
        &[characters(company.bytes())],
        &Waiting,
    )
}

/// Gives the retries of an entry of a company: of the submission under a reference, the entry with a
/// number.
pub fn retries<S: Alter>(
    conn: &mut Connection<S>,
    alloc: Global,
    company: Id,
    of: Ref,
    index: u64,
) -> Result<Vec<SubmissionHead>, Error>
    ensures { Asks S.Store conn.old conn.new result
        (AreThe (heads_in (is_retry_of company of index))) }
{
    all_of(
        conn,
        alloc,
        "SELECT company, ord, ref, sec, direction, description, asked, of_ref, of_index, lapsed, settled FROM submissions WHERE company = ?1 AND of_ref = ?2 AND of_index = ?3 ORDER BY company, ord",
        &[
            characters(company.bytes()),
            characters(of.bytes()),
            natural(index)?,
        ],
    )
}

/// Gives the submission or retry with a number in its company, and none where there is none.
pub fn numbered_submission<S: Alter>(
    conn: &mut Connection<S>,
    alloc: Global,
    company: Id,
    order: u64,
) -> Result<Vec<SubmissionHead>, Error>
    ensures { Asks S.Store conn.old conn.new result (AreThe (heads_in (is_row company order))) }
{
    all_of(
        conn,
        alloc,
        "SELECT company, ord, ref, sec, direction, description, asked, of_ref, of_index, lapsed, settled FROM submissions WHERE company = ?1 AND ord = ?2 ORDER BY company, ord",
        &[characters(company.bytes()), natural(order)?],
    )
}

/// Finds the submission or retry of a company under a reference.
pub fn submission<S: Alter>(
    conn: &mut Connection<S>,
    company: Id,
    reference: Ref,
) -> Result<Option<SubmissionHead>, Error>
    ensures { Asks S.Store conn.old conn.new result (IsThe (head_under company reference)) }
{
    first_of(
        conn,
        "SELECT company, ord, ref, sec, direction, description, asked, of_ref, of_index, lapsed, settled FROM submissions WHERE company = ?1 AND ref = ?2 ORDER BY company, ord",
        &[characters(company.bytes()), characters(reference.bytes())],
    )
}

/// Finds which submission of a company is under a reference, and when it settles.
pub fn order_and_settlement<S: Alter>(
    conn: &mut Connection<S>,
    company: Id,
    reference: Ref,
) -> Result<Option<OrderAndSettlement>, Error>
    ensures { Asks S.Store conn.old conn.new result (IsThe (order_in company reference)) }
{
    first_of(
        conn,
        "SELECT ord, settled FROM submissions WHERE company = ?1 AND ref = ?2 ORDER BY company, ord",
        &[characters(company.bytes()), characters(reference.bytes())],
    )
}

/// Finds what the submission with a number in its company says of each of its entries.
pub fn facts<S: Alter>(
    conn: &mut Connection<S>,
    company: Id,
    order: u64,
) -> Result<Option<SubmissionFacts>, Error>
    ensures { Asks S.Store conn.old conn.new result (IsThe (facts_in company order)) }
{
    first_of(
        conn,
        "SELECT ref, sec, direction, settled FROM submissions WHERE company = ?1 AND ord = ?2 ORDER BY company, ord",
        &[characters(company.bytes()), natural(order)?],
    )
}

/// Finds the day on which the payment of a retry was authorized again.
pub fn authorization<S: Alter>(
    conn: &mut Connection<S>,
    company: Id,
    order: u64,
) -> Result<Option<Day>, Error>
    ensures { Asks S.Store conn.old conn.new result (IsThe (authorized_in company order)) }
{
    cell_of(
        conn,
        "SELECT day FROM authorizations WHERE company = ?1 AND ord = ?2 ORDER BY company, ord",
        &[characters(company.bytes()), natural(order)?],
    )
}

/// Gives the number of the last submission or retry of a company, 0 before the first.
pub fn last_order<S: Alter>(conn: &mut Connection<S>, company: Id) -> Result<u64, Error>
    ensures { Asks S.Store conn.old conn.new result (IsThe (last_order company)) }
{
    match cell_of(
        conn,
        "SELECT ord FROM submissions WHERE company = ?1 ORDER BY company DESC, ord DESC LIMIT 1",
        &[characters(company.bytes())],
    )? {
        Some(order) => Ok(order),
        None => Ok(0),
    }
}
