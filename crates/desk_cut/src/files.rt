//! The files of a cut: their batches, their rows and their texts.
ghost use Rattle.std.specs.Prelude.{◌≡◌, ◌≤◌, ◌+◌, ◌++◌, All, IfOk, OnOk, length, map, sum};
ghost use Rattle.std.specs.List.{flat_map};
ghost use Rattle.desk_plan.specs.Modifiers.{most_files};
ghost use Rattle.desk_book.specs.OnCut.{sent_rows, file_row};
ghost use Rattle.desk_cut.specs.Numbers.{modifiers_of};
ghost use Rattle.desk_cut.specs.Sendable.{IsPrintable};
ghost use Rattle.desk_cut.specs.Sent.{file_in, files_of};

use crate::batches::NumberedBatch;
use crate::printing::text_of;
use bank_days::Day;
use desk_book::{FileRow, SentRow};
use desk_history::{FilePlace, Identity, ListOf};
use desk_plan::modifier;
use std::alloc::{AllocError, Global};

/// A `File` is a file that the cut makes.
#[derive(Clone, Copy)]
pub(crate) struct File<'a> {
    pub(crate) day: Day,
    pub(crate) modifier: u8,
    pub(crate) batches: &'a [NumberedBatch<'a>],
}

/// Returns the files with these sizes, on a day that already has this many.
pub(crate) fn files_of<'a>(
    alloc: Global,
    day: Day,
    made: u32,
    sizes: &[usize],
    batches: &'a [NumberedBatch<'a>],
) -> Result<Vec<File<'a>>, AllocError>
    requires made { made + length sizes.now ≤ most_files }
    requires whole { sum sizes.now ≡ length batches.now }
    ensures files { IfOk result
        (λ files. map file_in files.items ≡ files_of day made sizes.now batches.now) }
{
    desk_plan::modifiers_of_a_day();
    let mut files = Vec::new(alloc);
    let mut from = 0;
    for (index, size) in sizes.iter().enumerate() {
        let modifier = modifier(made + index as u32).unwrap();
        let to = from + *size;
        files.extend_from_slice(&[File {
            day,
            modifier,
            batches: &batches[from..to],
        }])?;
        from = to;
    }
    Ok(files)
}

// Adds a file's submissions, each with its place there.
fn push_rows(rows: &mut Vec<SentRow>, file: &File<'_>) -> Result<(), AllocError>
    ensures { OnOk result (rows.new.items ≡ rows.old.items ++ sent_rows (file_in file.now)) }
{
    for (index, batch) in file.batches.iter().enumerate() {
        rows.push(SentRow {
            company: batch.waiting.company.id,
            order: batch.waiting.row.order,
            settled: batch.settled,
            printed: FilePlace {
                day: file.day,
                modifier: file.modifier,
                batch: index as u64 + 1,
            },
        })?;
    }
    Ok(())
}

/// Gives the submissions of all files, each with its place.
pub(crate) fn rows_of(alloc: Global, files: &[File<'_>]) -> Result<Vec<SentRow>, AllocError>
    ensures { IfOk result (λ rows. rows.items ≡ flat_map sent_rows (map file_in files.now)) }
{
    let mut rows = Vec::new(alloc);
    for file in files {
        push_rows(&mut rows, file)?;
    }
    Ok(rows)
}

/// Gives the files with their texts.
pub(crate) fn texts_of(
    alloc: Global,
    identity: &Identity,
    files: &[File<'_>],
) -> Result<Vec<FileRow>, AllocError>
    requires { All (λ f. IsPrintable (file_in f)) files.now }
    ensures { IfOk result
        (λ rows. rows.items ≡ map (file_row identity.now) (map file_in files.now)) }
{
    let mut rows = Vec::new(alloc);
    for file in files {
        let text = text_of(alloc, identity, file.day, file.modifier, file.batches)?;
        rows.push(FileRow {
            day: file.day,
            modifier: file.modifier,
            text: ListOf::new(text),
        })?;
    }
    Ok(rows)
}

/// Gives the modifiers of the files, in order.
pub(crate) fn modifiers_of(alloc: Global, files: &[File<'_>]) -> Result<Vec<u8>, AllocError>
    ensures { IfOk result (λ modifiers. modifiers.items ≡ modifiers_of (map file_in files.now)) }
{
    let mut modifiers = Vec::new(alloc);
    for file in files {
        modifiers.push(file.modifier)?;
    }
    Ok(modifiers)
}
