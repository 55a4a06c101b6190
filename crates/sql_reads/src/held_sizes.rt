//! The sizes of submissions that wait for a cut.
ghost use Rattle.std.specs.Prelude.{◌≡◌, ◌≤◌, IfOk, length, sum_by};
ghost use Rattle.desk_book.specs.HeldSizes.{held_size};
ghost use Rattle.desk_book.specs.declared.held_size.HeldSize.{HeldSize};
ghost use Rattle.desk_history.specs.Sendings.{records_of};
ghost use Rattle.sql_tables.specs.Composed.{held_in};
ghost use Rattle.sql_tables.specs.TableReads.{whole_row};
ghost use Rattle.sql_queries.specs.Asking.{Asks, AreThe, IsThe};
ghost use Rattle.sql_read_steps.specs.Answers.{LearnsOn};
ghost use Rattle.sql_reads.specs.HeldSizes.{held_sizes_in, original_of_entry, size_by, size_of_head};

use ach_fields::{Cents, Id, ShortText};
use desk_book::HeldSize;
use desk_history::RetriedEntry;
use desk_rules::{Company, MOST_ENTRIES, RuleDay};
use desk_store::StoreFault;
use sql_queries::{cents_of, infos_of, order_and_settlement, waiting_submissions};
use sql_read_steps::{ItemRead, or_unavailable, read_each};
use sql_tables::SubmissionHead;
use sqlite::{Alter, Connection};
use std::alloc::Global;

// The day on which the original of a retry settled. Of a submission nothing is asked.
fn original_of<S: Alter>(
    conn: &mut Connection<S>,
    company: Id,
    retried: Option<RetriedEntry>,
) -> Result<Option<RuleDay>, StoreFault>
    ensures { LearnsOn S.Store conn.old conn.new result
        (IsThe (original_of_entry company retried)) }
{
    match retried {
        None => Ok(None),
        Some(retried) => {
            match or_unavailable(order_and_settlement(conn, company, retried.of))? {
                Some(original) => Ok(original.settled),
                None => Ok(None),
            }
        }
    }
}

// How many entry and addenda records entries with these addenda have.
fn records_of(infos: &[Option<ShortText<80>>]) -> u32
    requires { length infos.now ≤ 1_000 }
    ensures value { result ≡ sum_by records_of infos.now }
    ensures within { result ≤ 2_000 }
{
    let mut records = 0;
    for info in infos {
        records += if info.is_some() { 2 } else { 1 };
    }
    records
}

// The size of a submission of which the entries have these cents and addenda.
fn size_by(
    head: &SubmissionHead,
    original_settled: Option<RuleDay>,
    cents: u64,
    infos: &[Option<ShortText<80>>],
) -> Result<HeldSize, StoreFault>
    ensures { IfOk result (λ size. size ≡ size_by head.now original_settled cents infos.now) }
{
    if infos.len() > MOST_ENTRIES {
        return Err(StoreFault::Unavailable);
    }
    match Cents::new(cents) {
        Some(cents) => Ok(HeldSize {
            order: head.order,
            direction: head.direction,
            asked: head.asked,
            is_retry: head.retried.is_some(),
            original_settled,
            cents,
            entries: infos.len() as u32,
            records: records_of(infos),
        }),
        None => Err(StoreFault::Unavailable),
    }
}

// Reads the size of a submission of which the head is known.
fn size<S: Alter>(
    conn: &mut Connection<S>,
    alloc: Global,
    company: Id,
    head: &SubmissionHead,
) -> Result<HeldSize, StoreFault>
    ensures { Asks S.Store conn.old conn.new result (IsThe (size_of_head company head.now)) }
{
    let cents = or_unavailable(cents_of(conn, head.company, head.order))?;
    let infos = or_unavailable(infos_of(conn, alloc, head.company, head.order))?;
    let original_settled = original_of(conn, company, head.retried)?;
    size_by(head, original_settled, cents, &infos)
}

// The sizes of the held submissions of a company, of which the heads are known.
#[derive(Clone, Copy)]
struct HeldSizes {
    company: Company,
}

impl ItemRead for HeldSizes {
    type Item = SubmissionHead;

    type Found = HeldSize;

    ghost Shown = { HeldSize };

    ghost shown = { λ size. size };

    ghost value = { λ held t head. held_size (held_in held.company t (whole_row t head)) };

    fn read_item<S: Alter>(
        &self,
        conn: &mut Connection<S>,
        alloc: Global,
        head: &SubmissionHead,
    ) -> Result<HeldSize, StoreFault> {
        size(conn, alloc, self.company.id, head)
    }
}

/// Reads the sizes of the held submissions of a company, by order number: of their entries the sum of the
/// cents and the addenda alone.
pub fn held_sizes_of<S: Alter>(
    conn: &mut Connection<S>,
    alloc: Global,
    company: &Company,
) -> Result<Vec<HeldSize>, StoreFault>
    ensures { Asks S.Store conn.old conn.new result (AreThe (held_sizes_in company.now)) }
{
    let heads = or_unavailable(waiting_submissions(conn, alloc, company.id))?;
    let held = HeldSizes { company: *company };
    let found = read_each(conn, alloc, &held, heads)?;
    Ok(found)
}
