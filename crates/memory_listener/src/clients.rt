//! Clients in memory, as a listener.
use crate::client::Client;
use http_session::Listener;
use std::alloc::Global;
use std::io;
use std::io::ErrorKind;

/// Clients that wait, the next one first, and those that were answered.
#[derive(Drop)]
pub struct Clients<'a> {
    alloc: Global,
    /// What each that waits sends.
    pub waiting: &'a [&'a [u8]],
    /// The handle on which each was answered that was closed, the last one last.
    pub closed: Vec<Client<'a>>,
    /// Whether one was lost because memory to keep it was refused.
    pub is_short: bool,
}

impl<'a> Clients<'a> {
    ghost use Rattle.std.specs.Prelude.{◌≡◌, [], false};

    /// Returns clients that wait and send these bytes, of which none was answered.
    pub fn new(alloc: Global, waiting: &'a [&'a [u8]]) -> Clients<'a>
        ensures waiting { result.waiting ≡ waiting.entry }
        ensures closed { result.closed.items ≡ [] }
        ensures is_short { result.is_short ≡ false }
    {
        Clients {
            alloc,
            waiting,
            closed: Vec::new(alloc),
            is_short: false,
        }
    }
}

impl<'a> Listener for Clients<'a> {
    ghost use Rattle.memory_listener.specs.Listening.{TakesOne, HasNone, KeepsOne};
    ghost use Rattle.std.specs.Prelude.{⊤};

    type Stream = Client<'a>;

    ghost accepts = { TakesOne };

    ghost fails = { HasNone };

    ghost closes = { λ _ _ _. ⊤ };

    ghost closes_both = { λ old _ second new. KeepsOne old second new };

    fn accept(&mut self) -> io::Result<Client<'a>> {
        let [left, waiting @ ..] = self.waiting else {
            return Err(io::Error::from(ErrorKind::WouldBlock));
        };
        self.waiting = waiting;
        Ok(Client::new(self.alloc, *left))
    }

    fn close(&mut self, _stream: Client<'a>) {}

    fn close_both(&mut self, _first: Client<'a>, second: Client<'a>) {
        if self.closed.push(second).is_err() {
            self.is_short = true;
        }
    }
}
