//! Clients in memory are served.
ghost use Rattle.std.specs.Prelude.{◌≡◌, List, false};
ghost use Rattle.http_session.specs.Exchanges.{Exchange};
ghost use Rattle.http_session.specs.Serving.{all_messages};
ghost use Rattle.http_session.specs.Sides.{StandsOn};
ghost use Rattle.memory_listener.specs.Answered.{WereServed};

use crate::clients::Clients;
use http_session::{Answers, ServeFault, serve};
use std::alloc::Global;
use std::time::Duration;

/// Serves so many of the clients, one after another. Each gets the answers to the messages that its bytes
/// spell.
pub fn serve_clients<'a, D: Answers>(
    alloc: Global,
    desk: &mut D,
    clients: &mut Clients<'a>,
    connections: u64,
) -> Result<(), ServeFault>
    ensures before { D.is_clean desk.new → D.is_clean desk.old }
    ensures told { clients.new.is_short ≡ false → (sessions : List (List Exchange))
        × WereServed connections clients.old clients.new result sessions
        × StandsOn D.Answers desk.old desk.new (all_messages sessions) }
{
    serve(alloc, desk, clients, connections, Duration::from_secs(60))
}
