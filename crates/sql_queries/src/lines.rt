//! The lines of accounts, and their sums.
ghost use Rattle.std.specs.Prelude.{◌≡◌, IfOk, map};
ghost use Rattle.sql_tables.specs.TableReads.{lines_in, sums_in};
ghost use Rattle.sql_query_laws.specs.Postings.{posting_of};
ghost use Rattle.sql_queries.specs.Asking.{Asks, AreThe};

use crate::rows::all_of;
use desk_accounts::{Account, Posting};
use desk_history::DaySum;
use emptying_lists::EmptyingList;
use sql_tables::{PostingLine, account_text, characters};
use sqlite::{Alter, Connection, Error};
use std::alloc::Global;

/// Gives the lines of an account, in the order in which they came.
pub fn postings<S: Alter>(
    conn: &mut Connection<S>,
    alloc: Global,
    account: Account,
) -> Result<Vec<Posting>, Error>
    ensures { Asks S.Store conn.old conn.new result (AreThe (lines_in account)) }
{
    let text = account_text(&account);
    let lines = all_of(
        conn,
        alloc,
        "SELECT value_day, cents, cause, ref, idx FROM postings WHERE account = ?1 ORDER BY no",
        &[characters(text.as_slice())],
    )?;
    of_account(alloc, &account, lines)
}

// The lines, with their account. They come into the place of what was read.
fn of_account(
    alloc: Global,
    account: &Account,
    lines: Vec<PostingLine>,
) -> Result<Vec<Posting>, Error>
    ensures { IfOk result (λ postings. postings.items ≡ map (posting_of account.now) lines.items) }
{
    let mut left = EmptyingList::new(lines);
    let mut postings = Vec::new(alloc);
    while let Some(line) = left.take_first() {
        postings.push(Posting {
            account: *account,
            value_day: line.value_day,
            cents: line.cents,
            cause: line.cause,
            reference: line.reference,
            idx: line.idx,
        })?;
    }
    Ok(postings)
}

/// Gives the sums of an account's lines of each value day, from the first.
pub fn sums<S: Alter>(
    conn: &mut Connection<S>,
    alloc: Global,
    account: Account,
) -> Result<Vec<DaySum>, Error>
    ensures { Asks S.Store conn.old conn.new result (AreThe (sums_in account)) }
{
    let text = account_text(&account);
    all_of(
        conn,
        alloc,
        "SELECT value_day, cents FROM balances WHERE account = ?1 ORDER BY account, value_day",
        &[characters(text.as_slice())],
    )
}
