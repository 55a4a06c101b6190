//! Submissions that wait for a cut.
ghost use Rattle.std.specs.Prelude.{List};
ghost use Rattle.desk_book.specs.OnCut.{due_submissions};
ghost use Rattle.desk_book.specs.declared.held_submission.HeldSubmission.{HeldSubmission};
ghost use Rattle.sql_tables.specs.Composed.{original_in, held_in, waiting_of_in, waiting_in};
ghost use Rattle.sql_tables.specs.TableReads.{whole_row};
ghost use Rattle.sql_queries.specs.Asking.{Asks, AreThe, IsThe};
ghost use Rattle.sql_read_steps.specs.Answers.{LearnsOn};

use crate::rows::row;
use ach_fields::Id;
use bank_days::Calendar;
use desk_book::{HeldSubmission, is_due};
use desk_rules::{Company, Retry, RuleDay};
use desk_store::StoreFault;
use sql_queries::{companies, order_and_settlement, waiting_submissions};
use sql_read_steps::{ItemRead, joined, or_unavailable, read_each};
use sql_tables::SubmissionHead;
use sqlite::{Alter, Connection};
use std::alloc::Global;

// The day on which the original of a retry settled. Of a submission nothing is asked.
fn original_of<S: Alter>(
    conn: &mut Connection<S>,
    company: Id,
    retry: Option<Retry>,
) -> Result<Option<RuleDay>, StoreFault>
    ensures { LearnsOn S.Store conn.old conn.new result (IsThe (original_in company retry)) }
{
    match retry {
        None => Ok(None),
        Some(retry) => match or_unavailable(order_and_settlement(conn, company, retry.of))? {
            Some(original) => Ok(original.settled),
            None => Ok(None),
        },
    }
}

// The held submissions of a company, of which the heads are known.
#[derive(Clone, Copy)]
struct HeldSubmissions {
    company: Company,
}

impl ItemRead for HeldSubmissions {
    type Item = SubmissionHead;

    type Found = HeldSubmission;

    ghost Shown = { HeldSubmission };

    ghost shown = { λ held. held };

    ghost value = { λ held t head. held_in held.company t (whole_row t head) };

    fn read_item<S: Alter>(
        &self,
        conn: &mut Connection<S>,
        alloc: Global,
        head: &SubmissionHead,
    ) -> Result<HeldSubmission, StoreFault> {
        let row = row(conn, alloc, head)?;
        let original_settled = original_of(conn, self.company.id, row.retry)?;
        Ok(HeldSubmission {
            company: self.company,
            row,
            original_settled,
        })
    }
}

/// Reads the held submissions of a company, by order number.
pub fn waiting_of<S: Alter>(
    conn: &mut Connection<S>,
    alloc: Global,
    company: &Company,
) -> Result<Vec<HeldSubmission>, StoreFault>
    ensures { Asks S.Store conn.old conn.new result (AreThe (waiting_of_in company.now)) }
{
    let heads = or_unavailable(waiting_submissions(conn, alloc, company.id))?;
    let held = HeldSubmissions { company: *company };
    let found = read_each(conn, alloc, &held, heads)?;
    Ok(found)
}

// The held submissions of each company of a list.
#[derive(Clone, Copy)]
struct HeldByCompany;

impl ItemRead for HeldByCompany {
    type Item = Company;

    type Found = Vec<HeldSubmission>;

    ghost Shown = { List HeldSubmission };

    ghost shown = { λ found. found.items };

    ghost value = { λ _ t company. waiting_of_in company t };

    fn read_item<S: Alter>(
        &self,
        conn: &mut Connection<S>,
        alloc: Global,
        company: &Company,
    ) -> Result<Vec<HeldSubmission>, StoreFault> {
        waiting_of(conn, alloc, company)
    }
}

/// Reads the held submissions of all companies, by identification and then by order number.
pub fn waiting<S: Alter>(
    conn: &mut Connection<S>,
    alloc: Global,
) -> Result<Vec<HeldSubmission>, StoreFault>
    ensures { Asks S.Store conn.old conn.new result (AreThe waiting_in) }
{
    let companies = or_unavailable(companies(conn, alloc))?;
    let lists = read_each(conn, alloc, &HeldByCompany, companies)?;
    let all = joined(alloc, lists)?;
    Ok(all)
}

// The due ones of the held submissions of each company of a list.
#[derive(Clone, Copy)]
struct DueByCompany<'a> {
    day: RuleDay,
    holidays: &'a Calendar,
}

impl ItemRead for DueByCompany<'_> {
    type Item = Company;

    type Found = Vec<HeldSubmission>;

    ghost Shown = { List HeldSubmission };

    ghost shown = { λ found. found.items };

    ghost value = { λ due t company.
        due_submissions due.holidays.now due.day (waiting_of_in company t) };

    // The heads decide, so that no entry is read of what is not due.
    fn read_item<S: Alter>(
        &self,
        conn: &mut Connection<S>,
        alloc: Global,
        company: &Company,
    ) -> Result<Vec<HeldSubmission>, StoreFault> {
        let mut heads = or_unavailable(waiting_submissions(conn, alloc, company.id))?;
        let (day, holidays) = (self.day, self.holidays);
        heads.retain(|head| is_due(head.direction, head.asked, day, holidays));
        let held = HeldSubmissions { company: *company };
        let found = read_each(conn, alloc, &held, heads)?;
        Ok(found)
    }
}

/// Reads those of the held submissions of all companies that a cut on a day decides, by
/// identification and then by order number.
pub fn due<S: Alter>(
    conn: &mut Connection<S>,
    alloc: Global,
    day: RuleDay,
    holidays: &Calendar,
) -> Result<Vec<HeldSubmission>, StoreFault>
    ensures { Asks S.Store conn.old conn.new result
        (AreThe (λ t. due_submissions holidays.now day (waiting_in t))) }
{
    let companies = or_unavailable(companies(conn, alloc))?;
    let due = DueByCompany { day, holidays };
    let lists = read_each(conn, alloc, &due, companies)?;
    let all = joined(alloc, lists)?;
    Ok(all)
}
