//! The line that is printed if a file is not opened as a desk.
ghost use Rattle.std.specs.Prelude.{◌≡◌, IfOk, IfSome, Some, string_bytes};
ghost use Rattle.cli_commands.specs.Endings.{IfAnswered, IfFailed};
ghost use Rattle.desk_cli.specs.OpenFaults.{fault_text, IsFaultAnswer, SaysFault, FailsToSayFault};

use cli_commands::{Status, end_line, print_answer};
use io_retries::{Sink, Tries};
use sql_files::OpenFault;
use std::alloc::{AllocError, Global};

/// Prints why a file is not opened as a desk: `NotADesk`, `WrongVersion 9`, `Exists` or `unavailable`.
/// Without memory for the line it prints `unavailable`.
pub fn print_open_fault<W: Sink>(alloc: Global, writer: &mut W, fault: OpenFault) -> Status
    ensures answered { IfAnswered result W.Sink writer.old writer.new (SaysFault fault) }
    ensures failed { IfFailed result W.Sink writer.old writer.new (FailsToSayFault fault) }
{
    print_answer(writer, &fault_answer(alloc, fault), Tries::new())
}

// The line of a fault, if it has one and there is memory for it.
fn fault_answer(alloc: Global, fault: OpenFault) -> Option<(bool, Vec<u8>)>
    ensures { IfSome result (IsFaultAnswer fault) }
{
    match fault_text(alloc, fault) {
        Some(Ok(text)) => end_line(false, text.into_bytes()),
        Some(Err(_)) | None => None,
    }
}

fn fault_text(alloc: Global, fault: OpenFault) -> Option<Result<String, AllocError>>
    ensures { IfSome result
        (λ text. IfOk text (λ text. fault_text fault ≡ Some (string_bytes text))) }
{
    match fault {
        OpenFault::NotADesk => Some(String::from_str(alloc, "NotADesk")),
        OpenFault::WrongVersion(version) => Some(format!(in alloc; "WrongVersion {version}")),
        OpenFault::Exists => Some(String::from_str(alloc, "Exists")),
        OpenFault::Unavailable => None,
    }
}
