//! What accepts connections, and closes them.
//!
//! That it accepted this connection and closed it in that state are facts of the listener, which only its
//! calls give. std's listeners say no such thing: of them each fact always holds.
use crate::connection::Connection;
use io_retries::{Sink, Source};
use std::io;
use std::net::{OpenListener, OpenStream};

/// Accepts connections, and takes them back to close them.
pub trait Listener {
    ghost use Rattle.std.specs.Prelude.{MatchResult};

    type Stream: Connection + Source + Sink + Drop;

    /// It accepted this connection.
    ghost accepts: { Self → Self.Stream → Self → Type 0 };

    /// It could not accept a connection.
    ghost fails: { Self → Self → Type 0 };

    /// It closed a connection that was left so.
    ghost closes: { Self → Self.Stream → Self → Type 0 };

    /// It closed a connection whose two handles were left so.
    ghost closes_both: { Self → Self.Stream → Self.Stream → Self → Type 0 };

    /// Accepts the next connection.
    fn accept(&mut self) -> io::Result<Self::Stream>
        ensures { MatchResult result (λ s. accepts self.old s self.new)
            (λ _. fails self.old self.new) };

    /// Closes a connection that has one handle.
    fn close(&mut self, stream: Self::Stream)
        ensures { closes self.old stream self.new };

    /// Closes a connection that has two handles.
    fn close_both(&mut self, first: Self::Stream, second: Self::Stream)
        ensures { closes_both self.old first second self.new };
}

impl<L: OpenListener> Listener for L
where
    L::Stream: io::Read + io::Write + OpenStream,
{
    ghost use Rattle.std.specs.Prelude.{⊤};

    type Stream = L::Stream;

    ghost accepts = { λ _ _ _. ⊤ };

    ghost fails = { λ _ _. ⊤ };

    ghost closes = { λ _ _ _. ⊤ };

    ghost closes_both = { λ _ _ _ _. ⊤ };

    fn accept(&mut self) -> io::Result<L::Stream> {
        let (stream, _) = OpenListener::accept(self)?;
        Ok(stream)
    }

    fn close(&mut self, _stream: L::Stream) {}

    fn close_both(&mut self, _first: L::Stream, _second: L::Stream) {}
}
