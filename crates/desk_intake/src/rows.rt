//! A file writes these rows.
ghost use Rattle.std.specs.Prelude.{◌≡◌, IfOk};
ghost use Rattle.desk_history.specs.Intake.{suspense_row, suspense_cents};
ghost use Rattle.desk_book.specs.OnIntake.{changed_row, returned_row};
ghost use Rattle.desk_intake.specs.Plans.{changed_rows, returned_rows, suspense_rows};
ghost use Rattle.desk_intake.specs.Resolutions.{resolution_of};

use crate::agreement::is_return;
use crate::judged_item::JudgedItem;
use crate::matched_item::Reaction;
use ach_fields::Cents;
use ach_files::ItemFacts;
use bank_days::{Calendar, Day};
use desk_book::{ChangedRow, ReturnedRow};
use desk_history::{ChangeRow, ReturnRow, SuspenseRow};
use desk_rules::is_late;
use std::alloc::{AllocError, Global};

fn returned_row(judged: &JudgedItem, day: Day, holidays: &Calendar) -> Option<ReturnedRow>
    ensures { result ≡ returned_row holidays.now day (resolution_of judged.now) }
{
    let Ok(met) = &judged.outcome else {
        return None;
    };
    let Reaction::Return { code, information } = met.reaction else {
        return None;
    };
    let row = ReturnRow {
        code,
        day,
        index: met.entry.index,
        info: information,
        late: is_late(code, met.entry.settled, day, holidays),
        reference: met.entry.reference,
    };
    Some(ReturnedRow {
        company: met.entry.company,
        order: met.entry.order,
        row,
    })
}

/// Returns the rows of returned entries.
pub(crate) fn returned_rows(
    alloc: Global,
    judged: &[JudgedItem],
    day: Day,
    holidays: &Calendar,
) -> Result<Vec<ReturnedRow>, AllocError>
    ensures { IfOk result (λ rows. rows.items ≡ returned_rows holidays.now day judged.now) }
{
    let mut rows = Vec::new(alloc);
    for one in judged {
        if let Some(row) = returned_row(one, day, holidays) {
            rows.push(row)?;
        }
    }
    Ok(rows)
}

fn changed_row(judged: &JudgedItem, day: Day) -> Option<ChangedRow>
    ensures { result ≡ changed_row day (resolution_of judged.now) }
{
    let Ok(met) = &judged.outcome else {
        return None;
    };
    let Reaction::Change { code, text } = met.reaction else {
        return None;
    };
    let row = ChangeRow {
        code,
        day,
        index: met.entry.index,
        reference: met.entry.reference,
        text,
    };
    Some(ChangedRow {
        company: met.entry.company,
        order: met.entry.order,
        row,
    })
}

/// Returns the rows of entries with a notification of change.
pub(crate) fn changed_rows(
    alloc: Global,
    judged: &[JudgedItem],
    day: Day,
) -> Result<Vec<ChangedRow>, AllocError>
    ensures { IfOk result (λ rows. rows.items ≡ changed_rows day judged.now) }
{
    let mut rows = Vec::new(alloc);
    for one in judged {
        if let Some(row) = changed_row(one, day) {
            rows.push(row)?;
        }
    }
    Ok(rows)
}

// A change moves no money.
fn suspense_cents(item: &ItemFacts) -> Cents
    ensures { result ≡ suspense_cents item.now }
{
    if is_return(item) {
        item.cents
    } else {
        Cents::new(0).unwrap()
    }
}

fn suspense_row(judged: &JudgedItem, key: [u8; 21], day: Day, number: u64) -> Option<SuspenseRow>
    ensures { result ≡ suspense_row key day number judged.now.item (resolution_of judged.now) }
{
    let Err(why) = judged.outcome else {
        return None;
    };
    Some(SuspenseRow {
        cents: suspense_cents(&judged.item),
        code: judged.item.code,
        day,
        file: key,
        item: number,
        trace: judged.item.original_trace,
        why,
    })
}

/// Returns the rows of items in suspense, with their numbers in the file, from 1.
pub(crate) fn suspense_rows(
    alloc: Global,
    judged: &[JudgedItem],
    key: [u8; 21],
    day: Day,
) -> Result<Vec<SuspenseRow>, AllocError>
    ensures { IfOk result (λ rows. rows.items ≡ suspense_rows key day judged.now) }
{
    let mut rows = Vec::new(alloc);
    for (index, one) in judged.iter().enumerate() {
        if let Some(row) = suspense_row(one, key, day, index as u64 + 1) {
            rows.push(row)?;
        }
    }
    Ok(rows)
}
