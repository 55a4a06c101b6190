//! The lists in memory have returns, changes, lines and files.
ghost use Rattle.std.specs.Prelude.{◌≡◌, ◌≢◌, None, find, count_by, ◌==◌, IfOk, OnErr};
ghost use Rattle.desk_accounts.specs.Balance.{lines_of};
ghost use Rattle.desk_history.specs.Intake.{has_key};
ghost use Rattle.desk_book.specs.Steps.{is_file};
ghost use Rattle.memory_store.specs.Finds.{changes_among, returns_among, text_among};

use crate::reads::copy_of;
use ach_fields::Id;
use bank_days::Day;
use desk_accounts::{Account, Posting};
use desk_book::{ChangedRow, FileRow, ReturnedRow};
use desk_history::{ChangeRow, ListOf, ReturnRow, TakenFile};
use std::alloc::{AllocError, Global};

/// Gives the returns of a company's entries.
pub(crate) fn returns_of(
    alloc: Global,
    returned: &[ReturnedRow],
    company: Id,
) -> Result<Vec<ReturnRow>, AllocError>
    ensures { IfOk result (λ rows. rows.items ≡ returns_among returned.now company) }
{
    let mut rows = Vec::new(alloc);
    for one in returned {
        if one.company.bytes() == company.bytes() {
            rows.push(one.row)?;
        }
    }
    Ok(rows)
}

/// Gives the changes of a company's entries.
pub(crate) fn changes_of(
    alloc: Global,
    changed: &[ChangedRow],
    company: Id,
) -> Result<Vec<ChangeRow>, AllocError>
    ensures { IfOk result (λ rows. rows.items ≡ changes_among changed.now company) }
{
    let mut rows = Vec::new(alloc);
    for one in changed {
        if one.company.bytes() == company.bytes() {
            rows.push(one.row)?;
        }
    }
    Ok(rows)
}

/// Gives the lines of an account.
pub(crate) fn lines_of(
    alloc: Global,
    postings: &[Posting],
    account: Account,
) -> Result<Vec<Posting>, AllocError>
    ensures { IfOk result (λ lines. lines.items ≡ lines_of account postings.now) }
{
    let mut lines = Vec::new(alloc);
    for line in postings {
        if line.account.is(&account) {
            lines.push(*line)?;
        }
    }
    Ok(lines)
}

/// Says how many files a day has.
pub(crate) fn count_on(files: &[FileRow], day: Day) -> u64
    ensures { result ≡ count_by (λ f. f.day == day) files.now }
{
    let mut count = 0;
    for file in files {
        if file.day == day {
            count += 1;
        }
    }
    count
}

/// Copies the text of a file. Takes no memory if there is no such file.
pub(crate) fn text_at(
    alloc: Global,
    files: &[FileRow],
    day: Day,
    modifier: u8,
) -> Result<Option<ListOf<u8>>, AllocError>
    ensures text { IfOk result (λ text. text ≡ text_among files.now day modifier) }
    ensures memory { OnErr result (find (is_file day modifier) files.now ≢ None) }
{
    for file in files {
        if file.day == day && file.modifier == modifier {
            return Ok(Some(ListOf::new(copy_of(alloc, file.text.as_slice())?)));
        }
    }
    Ok(None)
}

/// Gives the file that was taken under a key.
pub(crate) fn taken_file(taken: &[TakenFile], key: [u8; 21]) -> Option<TakenFile>
    ensures { result ≡ find (has_key key) taken.now }
{
    for file in taken {
        if file.key == key {
            return Some(*file);
        }
    }
    None
}
