//! The command that answers messages of HTTP/1.1.
ghost use Rattle.std.specs.Prelude.{◌≡◌};
ghost use Rattle.cli_commands.specs.Endings.{IfAnswered, IfFailed};
ghost use Rattle.cli_commands.specs.MessageRuns.{status_of_session, HasAnsweredMessages, HasBrokenOff};

use crate::output::print_unavailable;
use crate::sample_bank::sample_desk;
use crate::status::Status;
use desk_http::HttpDesk;
use http_routes::Routes;
use http_session::{Ended, SessionFault, session};
use io_retries::{Sink, Source, Tries};
use std::alloc::Global;

/// Answers the messages that a reader's bytes spell, in one session, by a new desk of the sample bank.
///
/// The command is done if the input ends between messages, if a message closes the session, and after 1,000
/// messages. It is refused if the input ends inside a message, and has failed if a read or a write fails. A
/// session prints only its answers. If memory runs out before it begins, it prints `unavailable`, and the
/// command has failed.
pub fn answer_messages<R: Source, W: Sink>(alloc: Global, reader: &mut R, writer: &mut W) -> Status
    ensures answered { IfAnswered result W.Sink writer.old writer.new
        (HasAnsweredMessages R.Source reader.old reader.new) }
    ensures failed { IfFailed result W.Sink writer.old writer.new
        (HasBrokenOff R.Source reader.old reader.new) }
{
    let Ok(routes) = Routes::new(alloc) else {
        return print_unavailable(writer, Tries::new());
    };
    let mut desk = HttpDesk::new(alloc, sample_desk(alloc), routes);
    status_of_session(session(alloc, &mut desk, reader, writer))
}

/// Returns how the command ends after a session.
pub fn status_of_session(ended: Result<Ended, SessionFault>) -> Status
    ensures { result ≡ status_of_session ended }
{
    match ended {
        Ok(Ended::Closed | Ended::Full) => Status::Done,
        Ok(Ended::Cut) => Status::Refused,
        Err(_) => Status::Failed,
    }
}
