//! The command that checks an incoming file.
ghost use Rattle.std.specs.Prelude.{◌≡◌, [], IfSome, IfOk, string_bytes};
ghost use Rattle.cli_commands.specs.BodyAnswers.{IsAnswer};
ghost use Rattle.cli_commands.specs.Endings.{IfAnswered, IfFailed};
ghost use Rattle.cli_commands.specs.Feeding.{TakesToFault};
ghost use Rattle.cli_commands.specs.FileChecks.{fault_line, counts_line, verdict_answer, IsCheckAnswer, HasChecked, IsFailedCheck};
ghost use Rattle.cli_commands.specs.Printing.{with_line_feed};

use crate::file_verdict::{Verdict, verdict_of};
use crate::output::{end_line, print_answer};
use crate::status::Status;
use ach_files::{Fault, faults_stand, file_or_fault, long_bytes_have_faults};
use io_retries::{Sink, Source, Tries};
use std::alloc::{AllocError, Global};

/// Reads an incoming file, at most 4,194,305 bytes of it in pieces of at most 65,536, and prints what
/// it has, as `ok 2 returns 1 changes`, or its first fault, as `BadHash at record 5`.
///
/// It reads no further than the piece that has the first fault. If a read fails or memory runs out, it prints
/// `unavailable`; if a write fails, nothing more is printed.
pub fn check_file<R: Source, W: Sink>(alloc: Global, reader: &mut R, writer: &mut W) -> Status
    ensures taken { TakesToFault [] (R.remaining reader.old) (R.remaining reader.new) }
    ensures answered { IfAnswered result W.Sink writer.old writer.new
        (HasChecked (R.remaining reader.old)) }
    ensures failed { IfFailed result W.Sink writer.old writer.new
        (IsFailedCheck (R.remaining reader.old)) }
{
    let mut tries = Tries::new();
    let answer = file_answer(alloc, reader, &mut tries);
    print_answer(writer, &answer, tries)
}

// The answer to an input, if it could be had.
fn file_answer<R: Source>(
    alloc: Global,
    reader: &mut R,
    tries: &mut Tries,
) -> Option<(bool, Vec<u8>)>
    ensures answer { IfSome result (IsCheckAnswer (R.remaining reader.old)) }
    ensures taken { TakesToFault [] (R.remaining reader.old) (R.remaining reader.new) }
{
    file_or_fault();
    faults_stand();
    long_bytes_have_faults();
    match verdict_of(alloc, reader, tries) {
        Some(verdict) => verdict_answer(alloc, &verdict),
        None => None,
    }
}

fn verdict_answer(alloc: Global, verdict: &Verdict) -> Option<(bool, Vec<u8>)>
    ensures { IfSome result (IsAnswer (with_line_feed (verdict_answer verdict.now))) }
{
    match verdict_text(alloc, verdict) {
        Ok(text) => end_line(is_fine(verdict), text.into_bytes()),
        Err(_) => None,
    }
}

fn is_fine(verdict: &Verdict) -> bool
    ensures { result ≡ (verdict_answer verdict.now).0 }
{
    match *verdict {
        Verdict::Fine { .. } => true,
        Verdict::Faulty(_) => false,
    }
}

// The line of a verdict, without its end.
fn verdict_text(alloc: Global, verdict: &Verdict) -> Result<String, AllocError>
    ensures { IfOk result (λ line. string_bytes line ≡ (verdict_answer verdict.now).1) }
{
    match *verdict {
        Verdict::Fine { returns, changes } => counts_text(alloc, returns, changes),
        Verdict::Faulty(fault) => fault_text(alloc, fault),
    }
}

fn counts_text(alloc: Global, returns: usize, changes: usize) -> Result<String, AllocError>
    ensures { IfOk result (λ line. string_bytes line ≡ counts_line returns changes) }
{
    format!(in alloc; "ok {returns} returns {changes} changes")
}

fn fault_text(alloc: Global, fault: Fault) -> Result<String, AllocError>
    ensures { IfOk result (λ line. string_bytes line ≡ fault_line fault) }
{
    let name = fault.kind.name();
    let at = fault.at;
    format!(in alloc; "{name} at record {at}")
}
