//! The operator's call that takes an incoming file.
ghost use Rattle.std.specs.Prelude.{◌≡◌, Some, Ok};
ghost use Rattle.desk_book.specs.OnIntake.{New, intake_facts, taking_answer, taking_known, taking_on};
ghost use Rattle.desk_admission.specs.OverStores.{GivesAs};
ghost use Rattle.desk_intake.specs.OverStores.{AnswersFile, LeavesFile, TakesFile, WritesPlan};
ghost use Rattle.desk_intake.specs.Plans.{file_write, plan_write};

use crate::file_bytes::read_file;
use crate::named_entries::found_items;
use crate::plan::{IntakePlan, plan_intake};
use ach_files::Taken;
use bank_days::Day;
use desk_admission::{desk_day, refuse};
use desk_history::{Answer, CallRefusal, Outcome, TakenFile};
use desk_rules::Refusal;
use desk_store::{IntakeRows, Store, StoreFault};
use std::alloc::Global;

/// Plans a file that is new on a day.
fn plan<S: Store>(
    store: &mut S,
    alloc: Global,
    day: Day,
    file: &Taken,
) -> Result<IntakePlan, StoreFault>
    ensures { GivesAs S.Store store.old store.new plan_write result (file_write day file.now) }
{
    let holidays = store.calendar(alloc)?;
    let found = found_items(store, alloc, file.items())?;
    match plan_intake(alloc, file.key(), file.digest(), &found, day, &holidays) {
        Ok(plan) => Ok(plan),
        Err(_) => Err(StoreFault::Unavailable),
    }
}

/// Writes a plan, and answers.
fn write<S: Store>(store: &mut S, alloc: Global, plan: &IntakePlan) -> Result<Answer, StoreFault>
    ensures { WritesPlan S.Store store.old store.new result plan.now }
{
    let rows = IntakeRows {
        returned: plan.returned.as_slice(),
        changed: plan.changed.as_slice(),
        suspense: plan.suspense.as_slice(),
        postings: plan.postings.as_slice(),
        file: plan.file,
    };
    store.commit_intake(alloc, &rows)?;
    Ok(Answer::Done(Outcome::Taken(plan.file.answer)))
}

/// Takes a file that is new on a day.
fn take_new<S: Store>(
    store: &mut S,
    alloc: Global,
    day: Day,
    file: &Taken,
) -> Result<Answer, StoreFault>
    ensures { TakesFile S.Store store.old store.new result
        (λ b. New (intake_facts b day file.now)) }
{
    desk_book::entries_of_intakes();
    let plan = plan(store, alloc, day, file)?;
    write(store, alloc, &plan)
}

// A file under a known key: the same again is answered as the first time.
fn answer_again(first: &TakenFile, digest: [u8; 32]) -> Answer
    ensures { result ≡ taking_answer (taking_known digest first.now) }
{
    if first.digest == digest {
        Answer::Done(Outcome::Taken(first.answer))
    } else {
        refuse(Refusal::FileKeyReused)
    }
}

/// Takes a file on a day, if its key is new.
fn take_read<S: Store>(
    store: &mut S,
    alloc: Global,
    day: Day,
    file: &Taken,
) -> Result<Answer, StoreFault>
    ensures { TakesFile S.Store store.old store.new result
        (λ b. taking_on b (Some day) (Ok file.now)) }
{
    if let Some(first) = store.taken(alloc, file.key())? {
        return Ok(answer_again(&first, file.digest()));
    }
    take_new(store, alloc, day, file)
}

/// Takes an incoming file, from its bytes. A file that was taken before is answered as the first time,
/// and nothing is written.
pub fn take_file<S: Store>(store: &mut S, alloc: Global, bytes: &[u8]) -> Result<Answer, StoreFault>
    ensures before { S.is_clean store.new → S.is_clean store.old }
    ensures answers { AnswersFile S.Store store.old store.new result bytes.now }
    ensures left { LeavesFile S.Store store.old store.new result bytes.now }
{
    let day = match desk_day(store, alloc)? {
        Ok(day) => day,
        Err(why) => return Ok(refuse(why)),
    };
    match read_file(alloc, bytes)? {
        Ok(file) => take_read(store, alloc, day, &file),
        Err(fault) => Ok(Answer::Refused(CallRefusal::BadFile(fault))),
    }
}
