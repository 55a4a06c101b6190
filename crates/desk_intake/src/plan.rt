//! The plan of an incoming file.
ghost use Rattle.std.specs.Prelude.{IfOk};
ghost use Rattle.desk_intake.specs.Plans.{IsPlanOf, write_of_found, write_of_items};

use crate::counts::counts;
use crate::found_item::FoundItem;
use crate::judged_item::{JudgedItem, judge};
use crate::postings::postings_of;
use crate::rows::{changed_rows, returned_rows, suspense_rows};
use bank_days::{Calendar, Day};
use desk_accounts::Posting;
use desk_book::{ChangedRow, ReturnedRow};
use desk_history::{SuspenseRow, TakenFile};
use std::alloc::{AllocError, Global};

/// An `IntakePlan` is all that an incoming file writes.
#[derive(Drop)]
pub struct IntakePlan {
    /// The returned entries.
    pub returned: Vec<ReturnedRow>,
    /// The entries with a notification of change.
    pub changed: Vec<ChangedRow>,
    /// The items that give no event.
    pub suspense: Vec<SuspenseRow>,
    /// The lines of companies and of suspense, each with its opposite after it.
    pub postings: Vec<Posting>,
    /// The file, with its answer.
    pub file: TakenFile,
}

fn plan_of_items(
    alloc: Global,
    key: [u8; 21],
    digest: [u8; 32],
    judged: &[JudgedItem],
    day: Day,
    holidays: &Calendar,
) -> Result<IntakePlan, AllocError>
    ensures { IfOk result (IsPlanOf (write_of_items key digest judged.now day holidays.now)) }
{
    let returned = returned_rows(alloc, judged, day, holidays)?;
    let changed = changed_rows(alloc, judged, day)?;
    let suspense = suspense_rows(alloc, judged, key, day)?;
    let postings = postings_of(alloc, judged, day)?;
    let answer = counts(day, &returned, &changed, &suspense);
    Ok(IntakePlan {
        returned,
        changed,
        suspense,
        postings,
        file: TakenFile {
            key,
            digest,
            answer,
        },
    })
}

/// Plans a file with this key and digest that is taken on a day, by the resolutions of its items,
/// each with what its trace names.
pub fn plan_intake(
    alloc: Global,
    key: [u8; 21],
    digest: [u8; 32],
    found: &[FoundItem],
    day: Day,
    holidays: &Calendar,
) -> Result<IntakePlan, AllocError>
    ensures { IfOk result (IsPlanOf (write_of_found key digest found.now day holidays.now)) }
{
    let judged = judge(alloc, found)?;
    let plan = plan_of_items(alloc, key, digest, &judged, day, holidays)?;
    Ok(plan)
}
