//! What a company's entries may still cost the bank, by the sums of the cents of what is open.
ghost use Rattle.std.specs.Prelude.{◌≡◌, ℕ, true, sum_by};
ghost use Rattle.sql_tables.specs.TableReads.{whole_row};
ghost use Rattle.sql_queries.specs.Asking.{Asks, IsThe};
ghost use Rattle.sql_read_steps.specs.Answers.{LearnsOn};
ghost use Rattle.sql_measures.specs.Counted.{HaveExposuresOf, IsCreditExposure, IsDebitExposure, IsOpenExposure, IsWhole, company_exposures, head_debit_exposure, row_exposures};

use crate::facts::facts;
use ach_fields::Id;
use bank_days::{Calendar, Day};
use desk_book::first_open_day;
use desk_rules::{Direction, debit_exposure, is_open_credit, is_open_debit};
use desk_store::StoreFault;
use sql_queries::{calendar, cents_of, open_submissions, returns, submissions_of};
use sql_read_steps::{ItemRead, or_unavailable, read_each};
use sql_tables::{SubmissionHead, entry_state};
use sqlite::{Alter, Connection};
use std::alloc::Global;

// The credit exposure of a submission of credits.
fn credit_of<S: Alter>(
    conn: &mut Connection<S>,
    head: &SubmissionHead,
    today: Day,
) -> Result<u64, StoreFault>
    ensures { LearnsOn S.Store conn.old conn.new result (IsCreditExposure head.now today) }
{
    if is_open_credit(entry_state(head, None), today) {
        let cents = or_unavailable(cents_of(conn, head.company, head.order))?;
        Ok(cents)
    } else {
        Ok(0)
    }
}

// Did no entry of a submission come back? Of one that is held nothing is asked.
fn is_whole<S: Alter>(
    conn: &mut Connection<S>,
    alloc: Global,
    head: &SubmissionHead,
) -> Result<bool, StoreFault>
    ensures { LearnsOn S.Store conn.old conn.new result
        (λ found t. found ≡ true → IsWhole t head.now) }
{
    match head.settled {
        None => Ok(true),
        Some(_) => {
            let back = or_unavailable(returns(conn, alloc, head.company, head.order))?;
            Ok(back.is_empty())
        }
    }
}

// The cents of the debits of a submission that did not come back.
fn standing_debits<S: Alter>(
    conn: &mut Connection<S>,
    alloc: Global,
    head: &SubmissionHead,
    today: Day,
    calendar: &Calendar,
) -> Result<u64, StoreFault>
    ensures { LearnsOn S.Store conn.old conn.new result
        (IsThe (head_debit_exposure head.now today calendar.now)) }
{
    let found = facts(conn, alloc, head)?;
    match u64::try_from(debit_exposure(&found, today, calendar)) {
        Ok(cents) => Ok(cents),
        Err(_) => Err(StoreFault::Unavailable),
    }
}

// The debit exposure of a submission of debits that is open.
fn open_debit_of<S: Alter>(
    conn: &mut Connection<S>,
    alloc: Global,
    head: &SubmissionHead,
    today: Day,
    calendar: &Calendar,
) -> Result<u64, StoreFault>
    ensures { LearnsOn S.Store conn.old conn.new result
        (IsOpenExposure head.now today calendar.now) }
{
    let whole = is_whole(conn, alloc, head)?;
    if whole {
        let cents = or_unavailable(cents_of(conn, head.company, head.order))?;
        Ok(cents)
    } else {
        let cents = standing_debits(conn, alloc, head, today, calendar)?;
        Ok(cents)
    }
}

// The debit exposure of a submission of debits.
fn debit_of<S: Alter>(
    conn: &mut Connection<S>,
    alloc: Global,
    head: &SubmissionHead,
    today: Day,
    calendar: &Calendar,
) -> Result<u64, StoreFault>
    ensures { LearnsOn S.Store conn.old conn.new result
        (IsDebitExposure head.now today calendar.now) }
{
    if is_open_debit(entry_state(head, None), today, calendar) {
        let cents = open_debit_of(conn, alloc, head, today, calendar)?;
        Ok(cents)
    } else {
        Ok(0)
    }
}

// The exposures of each submission of a list.
#[derive(Clone, Copy)]
struct OpenCents<'c> {
    today: Day,
    calendar: &'c Calendar,
}

impl ItemRead for OpenCents<'_> {
    type Item = SubmissionHead;

    type Found = (u64, u64);

    ghost Shown = { ℕ × ℕ };

    ghost shown = { λ sums. sums };

    ghost value = { λ read t head. row_exposures read.today read.calendar.now (whole_row t head) };

    fn read_item<S: Alter>(
        &self,
        conn: &mut Connection<S>,
        alloc: Global,
        head: &SubmissionHead,
    ) -> Result<(u64, u64), StoreFault> {
        match head.direction {
            Direction::Credit => {
                let cents = credit_of(conn, head, self.today)?;
                Ok((cents, 0))
            }
            Direction::Debit => {
                let cents = debit_of(conn, alloc, head, self.today, self.calendar)?;
                Ok((0, cents))
            }
        }
    }
}

// The sum of the first numbers.
fn credits_of(pairs: &[(u64, u64)]) -> u128
    ensures { result ≡ sum_by (λ pair. pair.0) pairs.now }
{
    let mut cents = 0;
    for pair in pairs {
        cents += u128::from(pair.0);
    }
    cents
}

// The sum of the second numbers.
fn debits_of(pairs: &[(u64, u64)]) -> u128
    ensures { result ≡ sum_by (λ pair. pair.1) pairs.now }
{
    let mut cents = 0;
    for pair in pairs {
        cents += u128::from(pair.1);
    }
    cents
}

// The submissions of a company whose entries have all its exposures: those that are open, and all where
// there is no day before which none is open.
fn exposed_submissions<S: Alter>(
    conn: &mut Connection<S>,
    alloc: Global,
    company: Id,
    today: Day,
    calendar: &Calendar,
) -> Result<Vec<SubmissionHead>, StoreFault>
    ensures { Asks S.Store conn.old conn.new result (HaveExposuresOf company today calendar.now) }
{
    match first_open_day(calendar, today) {
        Some(since) => {
            let heads = or_unavailable(open_submissions(conn, alloc, company, since))?;
            Ok(heads)
        }
        None => {
            let heads = or_unavailable(submissions_of(conn, alloc, company))?;
            Ok(heads)
        }
    }
}

/// Reads a company's credit exposure and its debit exposure on a day. Of entries it reads the sums of
/// their cents alone, but for those of a submission of which some came back.
pub fn exposures<S: Alter>(
    conn: &mut Connection<S>,
    alloc: Global,
    company: Id,
    today: Day,
) -> Result<(u128, u128), StoreFault>
    ensures { Asks S.Store conn.old conn.new result (IsThe (company_exposures company today)) }
{
    let calendar = or_unavailable(calendar(conn, alloc))?;
    let heads = exposed_submissions(conn, alloc, company, today, &calendar)?;
    let read = OpenCents {
        today,
        calendar: &calendar,
    };
    let pairs = read_each(conn, alloc, &read, heads)?;
    Ok((credits_of(&pairs), debits_of(&pairs)))
}
