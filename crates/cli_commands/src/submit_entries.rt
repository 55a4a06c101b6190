//! The command that makes the message of a list of entries.
ghost use Rattle.std.specs.Prelude.{IfSome, Err};
ghost use Rattle.cli_commands.specs.BodyAnswers.{IsAnswer};
ghost use Rattle.cli_commands.specs.Endings.{IfAnswered, IfFailed};
ghost use Rattle.cli_commands.specs.InputRuns.{IsInputAnswer};
ghost use Rattle.cli_commands.specs.Inputs.{most_read, TakesAtMost};
ghost use Rattle.cli_commands.specs.ListRuns.{outcome_text, submit_answer, HasSubmitted, IsFailedSubmit};

use crate::input::read_input;
use crate::output::{end_line, print_answer};
use crate::status::Status;
use cli_submit::{InputFault, SubmitFault, SubmitOptions, submit_message};
use io_retries::{Sink, Source, Tries};
use std::alloc::Global;

/// Reads a list of entries in CSV, and prints the message that submits it to a desk, with nothing after it;
/// or the line of the first fault of the options and the list, as `row 3: bad cents`.
///
/// At most 4,194,304 bytes are read; one more is `too large`. If a read fails or memory runs out, it prints
/// `unavailable`; if a write fails, nothing more is printed.
pub fn submit_list<R: Source, W: Sink>(
    alloc: Global,
    options: &SubmitOptions<'_>,
    reader: &mut R,
    writer: &mut W,
) -> Status
    ensures taken { TakesAtMost most_read (R.remaining reader.old) (R.remaining reader.new) }
    ensures answered { IfAnswered result W.Sink writer.old writer.new
        (HasSubmitted options.now (R.remaining reader.old)) }
    ensures failed { IfFailed result W.Sink writer.old writer.new
        (IsFailedSubmit options.now (R.remaining reader.old)) }
{
    let mut tries = Tries::new();
    let answer = input_answer(alloc, options, reader, &mut tries);
    print_answer(writer, &answer, tries)
}

// The answer to print for an input, if it could be read.
fn input_answer<R: Source>(
    alloc: Global,
    options: &SubmitOptions<'_>,
    reader: &mut R,
    tries: &mut Tries,
) -> Option<(bool, Vec<u8>)>
    ensures answer { IfSome result (IsInputAnswer (submit_answer options.now) (R.remaining reader.old)) }
    ensures taken { TakesAtMost most_read (R.remaining reader.old) (R.remaining reader.new) }
{
    let Some(list) = read_input(alloc, reader, tries) else {
        return None;
    };
    list_answer(alloc, options, list.as_slice())
}

// Whether a list has a message, and the message or the line of the first fault.
fn list_answer(alloc: Global, options: &SubmitOptions<'_>, list: &[u8]) -> Option<(bool, Vec<u8>)>
    ensures { IfSome result (IsAnswer (submit_answer options.now list.now)) }
{
    match submit_message(alloc, options, list) {
        Ok(message) => Some((true, message)),
        Err(SubmitFault::Input(fault)) => fault_answer(alloc, fault),
        Err(SubmitFault::NoMemory) => None,
    }
}

fn fault_answer(alloc: Global, fault: InputFault) -> Option<(bool, Vec<u8>)>
    ensures { IfSome result (IsAnswer (outcome_text (Err fault))) }
{
    match fault.line(alloc) {
        Ok(line) => end_line(false, line.into_bytes()),
        Err(_) => None,
    }
}
