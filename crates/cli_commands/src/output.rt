//! The lines that a command prints.
ghost use Rattle.std.specs.Prelude.{◌≡◌, IfSome};
ghost use Rattle.io_retries.specs.Written.{IsCutOff, WritesAll};
ghost use Rattle.cli_commands.specs.BodyAnswers.{IsAnswer};
ghost use Rattle.cli_commands.specs.Endings.{IfAnswered, IfFailed};
ghost use Rattle.cli_commands.specs.Printing.{status_of, with_line_feed, FailsToPrint, PrintsAnswer, PrintsLine, SaysUnavailable};

use crate::status::Status;
use io_retries::{Sink, Tries, write_all_with_retries};
use std::io;

/// This line is printed if a read failed or memory ran out.
const UNAVAILABLE: &[u8; 12] = b"unavailable\n";

/// Ends the line of an answer: whether the input is accepted, and the text. Returns `None` if memory runs
/// out.
pub fn end_line(is_accepted: bool, mut line: Vec<u8>) -> Option<(bool, Vec<u8>)>
    ensures { IfSome result (IsAnswer (with_line_feed (is_accepted, line.items))) }
{
    match line.push(b'\n') {
        Ok(()) => Some((is_accepted, line)),
        Err(_) => None,
    }
}

/// Prints a line and flushes the writer, with the tries that the run has left.
///
/// # Errors
/// Only if a write or the flush of this writer failed. The writer has then taken a prefix of the line.
pub fn write_line<W: Sink>(writer: &mut W, line: &[u8], mut tries: Tries) -> io::Result<()>
    ensures { WritesAll line.now W.Sink writer.old writer.new result }
{
    write_all_with_retries(writer, line, &mut tries)
}

/// Prints that a read failed or memory ran out, or, if a write fails, a prefix of that line.
pub fn print_unavailable<W: Sink>(writer: &mut W, tries: Tries) -> Status
    ensures status { result ≡ Status.Failed }
    ensures printed { SaysUnavailable W.Sink writer.old writer.new }
{
    let _ = write_line(writer, UNAVAILABLE, tries);
    Status::Failed
}

/// Prints a command's answer: whether the input is accepted, and the text. Without an answer, it prints that
/// a read failed or memory ran out.
pub fn print_answer<W: Sink>(
    writer: &mut W,
    answer: &Option<(bool, Vec<u8>)>,
    tries: Tries,
) -> Status
    ensures printed { IfAnswered result W.Sink writer.old writer.new (PrintsLine answer.now) }
    ensures failed { IfFailed result W.Sink writer.old writer.new (FailsToPrint answer.now) }
{
    match answer {
        Some((is_accepted, line)) => match write_line(writer, line.as_slice(), tries) {
            Ok(()) => status_of(*is_accepted),
            Err(_) => Status::Failed,
        },
        None => print_unavailable(writer, tries),
    }
}

/// Prints a line that was given, with whether the input is accepted.
pub fn print_line<W: Sink>(writer: &mut W, is_accepted: bool, line: &[u8]) -> Status
    ensures printed { IfAnswered result W.Sink writer.old writer.new
        (PrintsAnswer (is_accepted, line.now)) }
    ensures failed { IfFailed result W.Sink writer.old writer.new (IsCutOff line.now) }
{
    match write_line(writer, line, Tries::new()) {
        Ok(()) => status_of(is_accepted),
        Err(_) => Status::Failed,
    }
}

fn status_of(is_accepted: bool) -> Status
    ensures { result ≡ status_of is_accepted }
{
    if is_accepted {
        Status::Done
    } else {
        Status::Refused
    }
}
