//! The plan of a cut.
ghost use Rattle.std.specs.Prelude.{◌≡◌, ◌≤◌, ◌+◌, All, IfOk, length, sum};
ghost use Rattle.desk_plan.specs.Modifiers.{most_files};
ghost use Rattle.desk_plan.specs.Runs.{in_runs};
ghost use Rattle.desk_cut.specs.Numbers.{batches_in, sendings_in, write_in, summary_in};
ghost use Rattle.desk_cut.specs.Sendable.{IsSendable, AreSendable};
ghost use Rattle.desk_cut.specs.Plan.{Plans, cut_in, plan_write};
ghost use Rattle.desk_cut.specs.Sent.{sent_in};

use crate::batches::{batches_of, entries_of};
use crate::due::{Sending, settle};
use crate::fault::CutFault;
use crate::files::{files_of, modifiers_of, rows_of, texts_of};
use crate::numbers::{CutNumbers, NumberedCut, are_past};
use crate::postings::postings_of;
use bank_days::Day;
use desk_accounts::Posting;
use desk_book::{FileRow, LapsedRow, SentRow};
use desk_history::{CutSummary, Identity, ListOf, SentEntry};
use desk_plan::{divide, made_before};
use std::alloc::{AllocError, Global};

/// A `CutPlan` is all that a cut does.
#[derive(Drop)]
pub struct CutPlan {
    /// The submissions that it sends, each with its place in a file.
    pub sent: Vec<SentRow>,
    /// The retries that lapse.
    pub lapsed: Vec<LapsedRow>,
    /// The entries of what is sent, in the order of their traces.
    pub entries: Vec<SentEntry>,
    /// The lines of what is sent, each with its opposite.
    pub postings: Vec<Posting>,
    /// The files, with their texts.
    pub files: Vec<FileRow>,
    /// The summary for the operator.
    pub done: CutSummary,
}

// All rows of a cut that is not refused.
fn write(
    alloc: Global,
    identity: &Identity,
    day: Day,
    made: u32,
    sizes: &[usize],
    numbers: CutNumbers<'_>,
    sent: &[Sending<'_>],
) -> Result<CutPlan, AllocError>
    requires settled { sent_in sent.now ≡ sendings_in numbers }
    requires made { made + length sizes.now ≤ most_files }
    requires sendable { All IsSendable (batches_in numbers) }
    requires runs { All AreSendable (in_runs sizes.now (batches_in numbers)) }
    requires whole { sum sizes.now ≡ length (batches_in numbers) }
    ensures write { IfOk result
        (λ plan. plan_write plan ≡ write_in identity.now day made sizes.now numbers.entry) }
    ensures done { IfOk result (λ plan. plan.done ≡ summary_in day made sizes.now numbers.entry) }
{
    desk_plan::modifiers_of_a_day();
    let batches = batches_of(alloc, sent, &numbers.ranges)?;
    let files = files_of(alloc, day, made, sizes, &batches)?;
    let entries = entries_of(alloc, &batches)?;
    let postings = postings_of(alloc, sent, &numbers.loads)?;
    let done = CutSummary {
        day,
        entries: entries.len() as u64,
        files: ListOf::new(modifiers_of(alloc, &files)?),
        lapsed: numbers.lapsed.len() as u64,
    };
    Ok(CutPlan {
        sent: rows_of(alloc, &files)?,
        lapsed: numbers.lapsed,
        entries,
        postings,
        files: texts_of(alloc, identity, &files)?,
        done,
    })
}

/// Plans a cut that is numbered, where the day has so many files already. `latest` has for each of its
/// ranges the latest day on which a youngest entry with one of their sequences settled.
///
/// A cut is refused in this order:
///
/// - `TracesSpent`: a batch would take a sequence of an entry that settled less than 366 days before
///   the day;
/// - `ModifiersSpent`: the day has no modifiers left for the files;
/// - `DaysSpent`: a submission would settle after 2100-01-31.
///
/// `NoMemory` may come in the place of each. Each field and each total of the files has a text.
pub fn plan_cut(
    alloc: Global,
    identity: &Identity,
    numbered: NumberedCut<'_>,
    made: u64,
    latest: &[Option<Day>],
) -> Result<CutPlan, CutFault>
    ensures { Plans (cut_in identity.now numbered.entry made) latest.now result }
{
    let NumberedCut { day, numbers, .. } = numbered;
    let today = day.day();
    if !are_past(today, latest) {
        return Err(CutFault::TracesSpent);
    }
    let sizes = divide(alloc, &numbers.loads)?;
    let Some(made) = made_before(made, sizes.len()) else {
        return Err(CutFault::ModifiersSpent);
    };
    let sent = match settle(alloc, &numbers.sent) {
        Ok(sent) => sent,
        Err(fault) => return Err(fault),
    };
    desk_plan::one_division();
    Ok(write(alloc, identity, today, made, &sizes, numbers, &sent)?)
}
