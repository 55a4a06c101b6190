//! A session of a desk.
ghost use Rattle.isolated_runs.specs.Runs.{Begins};
ghost use Rattle.isolated_runs.specs.Sessions.{SpeaksFromParts};

use desk_http::HttpDesk;
use desk_store::Store;
use http_session::{Answers, Ended, SessionFault, session};
use io_retries::{Sink, Source};
use std::alloc::Global;

/// Answers the messages of a reader to a writer. After any run of a desk, each answer on a company's path is the reply to the
/// company's part of what came until then, by the law of runs.
pub fn desk_session<S: Store, R: Source, W: Sink>(
    alloc: Global,
    desk: &mut HttpDesk<S>,
    reader: &mut R,
    writer: &mut W,
) -> Result<Ended, SessionFault>
    ensures own { SpeaksFromParts Begins ⟦<HttpDesk<S> as Answers>⟧.step
        (⟦<HttpDesk<S> as Answers>⟧.is_clean desk.new) (⟦<HttpDesk<S> as Answers>⟧.stands_for desk.old)
        (R.remaining reader.old) (R.remaining reader.new) (W.contents writer.old) (W.contents writer.new) result }
{
    session(alloc, desk, reader, writer)
}
