//! The command that reads one submission's body and answers it.
ghost use Rattle.std.specs.Prelude.{IfSome, IfOk};
ghost use Rattle.cli_commands.specs.BodyAnswers.{IsAnswer};
ghost use Rattle.cli_commands.specs.Endings.{IfAnswered, IfFailed};
ghost use Rattle.cli_commands.specs.InputRuns.{HasAnswered, IsFailedRun, IsInputAnswer};
ghost use Rattle.cli_commands.specs.Inputs.{most_read, TakesAtMost};
ghost use Rattle.cli_commands.specs.SubmissionRuns.{first_run_answer, first_run_line};

use crate::body_answer::{NoMemory, submission_answer};
use crate::input::{MOST_INPUT, read_input};
use crate::output::{end_line, print_answer};
use crate::status::Status;
use http_json::fault_text;
use io_retries::{Sink, Source, Tries};
use std::alloc::Global;

/// Reads a submission's body, and prints its answer as the first order of a desk with no limits.
///
/// At most 4,194,304 bytes are read; one more is `{"error":"TooLarge"}`. If a read fails or memory runs
/// out, it prints `unavailable`; if a write fails, nothing more is printed.
pub fn first_run<R: Source, W: Sink>(alloc: Global, reader: &mut R, writer: &mut W) -> Status
    ensures taken { TakesAtMost most_read (R.remaining reader.old) (R.remaining reader.new) }
    ensures answered { IfAnswered result W.Sink writer.old writer.new
        (HasAnswered first_run_line (R.remaining reader.old)) }
    ensures failed { IfFailed result W.Sink writer.old writer.new
        (IsFailedRun first_run_line (R.remaining reader.old)) }
{
    let mut tries = Tries::new();
    let answer = input_answer(alloc, reader, &mut tries);
    print_answer(writer, &answer, tries)
}

// The answer to an input, if it could be had.
fn input_answer<R: Source>(
    alloc: Global,
    reader: &mut R,
    tries: &mut Tries,
) -> Option<(bool, Vec<u8>)>
    ensures answer { IfSome result (IsInputAnswer first_run_line (R.remaining reader.old)) }
    ensures taken { TakesAtMost most_read (R.remaining reader.old) (R.remaining reader.new) }
{
    let Some(body) = read_input(alloc, reader, tries) else {
        return None;
    };
    answer_line(alloc, body.as_slice())
}

// Whether a body is accepted, and the line of its answer.
fn answer_line(alloc: Global, body: &[u8]) -> Option<(bool, Vec<u8>)>
    ensures { IfSome result (IsAnswer (first_run_line body.now)) }
{
    match first_run_answer(alloc, body) {
        Ok((is_accepted, line)) => end_line(is_accepted, line),
        Err(_) => None,
    }
}

fn first_run_answer(alloc: Global, body: &[u8]) -> Result<(bool, Vec<u8>), NoMemory>
    ensures { IfOk result (IsAnswer (first_run_answer body.now)) }
{
    if body.len() as u64 > MOST_INPUT {
        Ok((false, fault_text(alloc, "TooLarge")?))
    } else {
        submission_answer(alloc, body)
    }
}
