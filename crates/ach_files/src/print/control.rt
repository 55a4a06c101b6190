//! The control of a file that is to be printed follows from its batches.
ghost use Rattle.std.specs.Prelude.{◌≡◌, ◌+◌, ◌*◌, OnOk, IfOk, IfErr, true};
ghost use Rattle.ach_records.specs.Print.{row_fits, file_control_row};
ghost use Rattle.ach_files.specs.Outgoing.{filler_count, PutsRow};
ghost use Rattle.ach_files.specs.Printing.{IsCounted, ForMeasured, IsControlOf, IsTotalsFaultOf};

use super::page::put_record;
use super::records::record_of;
use super::totals::is_large;
use crate::limits::{EIGHT_DIGITS, SIX_DIGITS};
use crate::outgoing::PrintFault;
use crate::sums::{Sums, cents_of, low_digits};
use ach_records::{FileControlText, print_file_control};
use std::alloc::AllocError;

/// Returns the control of a file with this many batches, or a million if there are more, and these
/// sums, or the fault of its numbers.
pub fn control_of(
    batches: u64,
    is_any_long: bool,
    sums: &Sums,
) -> Result<FileControlText, PrintFault>
    ensures ok { ForMeasured batches is_any_long sums.now (λ o. IfOk result (IsControlOf o)) }
    ensures err { ForMeasured batches is_any_long sums.now (λ o. IfErr result (IsTotalsFaultOf o)) }
    ensures counted { IfOk result (λ control. IsCounted control) }
    ensures fits { IfOk result (λ control. row_fits (file_control_row control) ≡ true) }
{
    if is_large(sums) {
        return Err(PrintFault::TotalTooLarge);
    }
    if is_any_long {
        return Err(PrintFault::TooManyRecords);
    }
    if batches > SIX_DIGITS {
        return Err(PrintFault::TooManyRecords);
    }
    if sums.count > EIGHT_DIGITS {
        return Err(PrintFault::TooManyRecords);
    }
    let blocks = (2 + 2 * batches + sums.count + 9) / 10;
    if blocks > SIX_DIGITS {
        return Err(PrintFault::TooManyRecords);
    }
    Ok(FileControlText {
        batches,
        blocks,
        count: sums.count,
        hash: low_digits(sums.hash),
        debits: cents_of(sums.debits),
        credits: cents_of(sums.credits),
    })
}

/// Counts the records of nines that come after the control.
pub fn fillers_of(control: &FileControlText) -> u64
    requires { IsCounted control.now }
    ensures { result ≡ filler_count (2 + 2 * control.now.batches + control.now.count) }
{
    control.blocks * 10 - (2 + 2 * control.batches + control.count)
}

/// Says how many bytes the blocks of a file have, each of ten records with their LF.
pub fn room_of(control: &FileControlText) -> usize
    requires { IsCounted control.now }
    ensures { result ≡ control.now.blocks * 950 }
{
    (control.blocks * 950) as usize
}

/// Adds the control of a file.
pub fn put_control(out: &mut Vec<u8>, control: &FileControlText) -> Result<(), AllocError>
    requires { row_fits (file_control_row control.now) ≡ true }
    ensures { OnOk result (PutsRow out.old.items out.new.items (file_control_row control.now)) }
{
    let mut record = [0; 94];
    let outcome = print_file_control(control, &mut record);
    put_record(out, record_of(outcome, record))
}
