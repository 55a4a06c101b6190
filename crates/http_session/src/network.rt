//! What ports are bound on.
use crate::listener::Listener;
use std::io;
use std::io::{Read, Write};
use std::net::{Ipv4Addr, Net, OpenListener, OpenStream, TcpListener};

/// Binds ports of 127.0.0.1, and takes their listeners back.
///
/// Each call is a step of the network from one state to the next, a fact that the call alone gives. A clause
/// that leads from the state before a function to the state after it therefore allows no further call: no other
/// port was bound, and nothing was accepted on a listener after the state in which it was given back.
pub trait Network {
    ghost use Rattle.std.specs.Prelude.{ℕ, MatchResult};

    type Bound: Listener + Drop;

    /// It bound this port, and gave this listener.
    ghost binds: { Self → ℕ → Self.Bound → Self → Type 0 };

    /// It could not bind this port.
    ghost cannot_bind: { Self → ℕ → Self → Type 0 };

    /// It took back a listener in this state.
    ghost unbinds: { Self → Self.Bound → Self → Type 0 };

    /// Binds a port.
    fn bind(&mut self, port: u16) -> io::Result<Self::Bound>
        ensures { MatchResult result (λ l. binds self.old port l self.new)
            (λ _. cannot_bind self.old port self.new) };

    /// Takes back a listener.
    fn unbind(&mut self, listener: Self::Bound)
        ensures { unbinds self.old listener self.new };
}

/// The network of a host. Its facts say nothing: that each call below is made rests on these few lines.
#[derive(Drop)]
pub struct HostNetwork<'a, N> {
    net: &'a N,
}

impl<'a, N: Net> HostNetwork<'a, N> {
    /// Returns the network of a host.
    pub fn new(net: &'a N) -> HostNetwork<'a, N> {
        HostNetwork { net }
    }
}

impl<N: Net> Network for HostNetwork<'_, N> {
    ghost use Rattle.std.specs.Prelude.{⊤};

    type Bound = N::Listener;

    ghost binds = { λ _ _ _ _. ⊤ };

    ghost cannot_bind = { λ _ _ _. ⊤ };

    ghost unbinds = { λ _ _ _. ⊤ };

    fn bind(&mut self, port: u16) -> io::Result<N::Listener> {
        TcpListener::bind(self.net, (Ipv4Addr::LOCALHOST, port))
    }

    fn unbind(&mut self, _listener: N::Listener) {}
}
