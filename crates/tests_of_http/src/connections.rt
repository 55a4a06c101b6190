//! Connections to a desk.
use crate::exchanges::{LENGTH_REQUIRED, UNAVAILABLE, follow, http_desk};
use crate::samples::{Exchange, MILL, new_lists};
use desk_core::Store;
use desk_http::HttpDesk;
use http_session::{Listener, ServeFault, serve};
use std::alloc::Global;
use std::cell::Cell;
use std::io;
use std::io::{Read, Write};
use std::net::{Net, OpenListener, OpenStream, Shutdown, SocketAddr, TcpListener, TcpStream};
use std::process::Abort;
use std::time::Duration;

// The time that a client is waited for.
fn patience() -> Duration {
    Duration::from_millis(100)
}

// Serves this number of connections, and returns how that ends.
fn serve_all<S: Store, L: Listener + Drop>(
    rt: &impl Alloc<A = Global>,
    desk: &mut HttpDesk<S>,
    listener: L,
    connections: u64,
) -> Result<(), ServeFault> {
    let mut listener = listener;
    serve(rt.alloc(), desk, &mut listener, connections, patience())
}

const ASKED: &[u8] =
    b"GET /c/MILL01/exposure HTTP/1.1\r\nX-Desk-Key: mill-street-key\r\nConnection: close\r\n\r\n";

/// A part of its head.
const PART: &[u8] = b"GET /c/MILL01/exposu";

const NO_DAY: &[u8] =
    b"HTTP/1.1 409 Conflict\r\nContent-Type: application/json\r\nContent-Length: 28\r\nConnection: close\r\n\r\n{\"error\":\"NoDay\",\"number\":1}";

/// A POST without a length.
const UNREAD: &[u8] = b"POST /ops/returns HTTP/1.1\r\n\r\n";

/// This is what its client sends a hundred times before it reads.
const PIECE: &[u8] = &[b'9'; 1_000];

const COMPANY: &[Exchange] = &[MILL];

// A listener at a free port of this machine.
fn listening(rt: &(impl Abort + Net<Listener = TcpListener, Stream = TcpStream>)) -> TcpListener {
    TcpListener::bind(rt, "127.0.0.1:0")
        .ok()
        .expect(rt, "a port")
}

// A client of the listener that sent these bytes.
fn client_sent(
    rt: &(impl Abort + Net<Listener = TcpListener, Stream = TcpStream>),
    listener: &TcpListener,
    bytes: &[u8],
) -> TcpStream {
    let address = listener.local_addr().ok().expect(rt, "an address");
    let mut client = TcpStream::connect(rt, address)
        .ok()
        .expect(rt, "a connection");
    client.write_all(bytes).ok().expect(rt, "bytes sent");
    client
}

// Returns the bytes that a client receives until its connection ends.
fn answer_of(rt: &(impl Abort + Alloc<A = Global>), client: TcpStream) -> Vec<u8> {
    let mut client = client;
    let mut out = Vec::new(rt.alloc());
    client.read_to_end(&mut out).ok().expect(rt, "an answer");
    out
}

// A desk of one company serves this number of connections.
fn serve_mill(rt: &(impl Abort + Alloc<A = Global>), listener: TcpListener, connections: u64) {
    let mut desk = http_desk(rt, new_lists(rt));
    follow(rt, &mut desk, "a company", COMPANY);
    assert!(rt; serve_all(rt, &mut desk, listener, connections) == Ok(()));
}

#[test]
fn a_connection_is_answered(rt: HostRuntime) {
    let listener = listening(&rt);
    let client = client_sent(&rt, &listener, ASKED);
    serve_mill(&rt, listener, 1);
    assert!(rt; answer_of(&rt, client).as_slice() == NO_DAY);
}

#[test]
fn no_connection_is_awaited(rt: HostRuntime) {
    serve_mill(&rt, listening(&rt), 0);
}

#[test]
fn a_client_that_goes_away_ends_its_own_connection(rt: HostRuntime) {
    let listener = listening(&rt);
    drop(client_sent(&rt, &listener, PART));
    let next = client_sent(&rt, &listener, ASKED);
    serve_mill(&rt, listener, 2);
    assert!(rt; answer_of(&rt, next).as_slice() == NO_DAY);
}

#[test]
fn a_silent_client_ends_its_own_connection(rt: HostRuntime) {
    let listener = listening(&rt);
    // It stops inside its head, and stays.
    let silent = client_sent(&rt, &listener, PART);
    let next = client_sent(&rt, &listener, ASKED);
    serve_mill(&rt, listener, 2);
    assert!(rt; answer_of(&rt, next).as_slice() == NO_DAY);
    assert!(rt; answer_of(&rt, silent).is_empty());
}

// Sends a hundred pieces, and ends.
fn send_pieces(rt: &impl Abort, client: &mut TcpStream) {
    for _ in 0..100 {
        client.write_all(PIECE).ok().expect(rt, "a piece sent");
    }
    client
        .shutdown(Shutdown::Write)
        .ok()
        .expect(rt, "the end sent");
}

#[test]
fn a_client_that_sends_before_it_reads_gets_its_answer(rt: HostRuntime) {
    let listener = listening(&rt);
    let mut client = client_sent(&rt, &listener, UNREAD);
    send_pieces(&rt, &mut client);
    serve_mill(&rt, listener, 1);
    assert!(rt; answer_of(&rt, client).as_slice() == LENGTH_REQUIRED);
}

// A connection that can do less: its waiting is bounded or not, and it has no second handle. It notes that
// its writing side was shut.
#[derive(Drop)]
struct Bare<'a> {
    stream: TcpStream,
    waits_at_most: bool,
    is_shut: &'a Cell<bool>,
}

impl Read for Bare<'_> {
    fn read(&mut self, buf: &mut [u8]) -> io::Result<usize> {
        self.stream.read(buf)
    }
}

impl Write for Bare<'_> {
    fn write(&mut self, buf: &[u8]) -> io::Result<usize> {
        self.stream.write(buf)
    }

    fn flush(&mut self) -> io::Result<()> {
        self.stream.flush()
    }
}

impl OpenStream for Bare<'_> {
    fn shutdown(&self, how: Shutdown) -> io::Result<()> {
        self.is_shut.set(matches!(how, Shutdown::Write));
        self.stream.shutdown(how)
    }

    fn set_read_timeout(&self, dur: Option<Duration>) -> io::Result<()> {
        self.stream.set_read_timeout(dur)
    }

    fn set_write_timeout(&self, dur: Option<Duration>) -> io::Result<()> {
        if !self.waits_at_most {
            return Err(io::Error::from(io::ErrorKind::Unsupported));
        }
        self.stream.set_write_timeout(dur)
    }
}

// Its connections are bare.
#[derive(Drop)]
struct BareListener<'a> {
    listener: TcpListener,
    waits_at_most: bool,
    is_shut: &'a Cell<bool>,
}

impl<'a> OpenListener for BareListener<'a> {
    type Stream = Bare<'a>;

    fn accept(&self) -> io::Result<(Bare<'a>, SocketAddr)> {
        let (stream, address) = self.listener.accept()?;
        let bare = Bare {
            stream,
            waits_at_most: self.waits_at_most,
            is_shut: self.is_shut,
        };
        Ok((bare, address))
    }
}

// Returns the bytes that a client gets if it connects and sends nothing.
fn answer_over(
    rt: &(impl Abort + Alloc<A = Global> + Net<Listener = TcpListener, Stream = TcpStream>),
    waits_at_most: bool,
    is_shut: &Cell<bool>,
) -> Vec<u8> {
    let listener = listening(rt);
    let client = client_sent(rt, &listener, b"");
    client
        .shutdown(Shutdown::Write)
        .ok()
        .expect(rt, "the end sent");
    let listener = BareListener {
        listener,
        waits_at_most,
        is_shut,
    };
    let mut desk = http_desk(rt, new_lists(rt));
    assert!(rt; serve_all(rt, &mut desk, listener, 1) == Ok(()));
    answer_of(rt, client)
}

#[test]
fn a_connection_of_one_handle_is_told_that_nothing_can_be_answered(rt: HostRuntime) {
    let is_shut = Cell::new(false);
    assert!(rt; answer_over(&rt, true, &is_shut).as_slice() == UNAVAILABLE);
    assert!(rt; is_shut.get());
}

#[test]
fn a_connection_that_would_wait_for_ever_is_closed(rt: HostRuntime) {
    let is_shut = Cell::new(false);
    assert!(rt; answer_over(&rt, false, &is_shut).is_empty());
    assert!(rt; !is_shut.get());
}

#[test]
fn what_cannot_be_accepted_ends_the_service(rt: HostRuntime) {
    let listener = listening(&rt);
    listener
        .set_nonblocking(true)
        .ok()
        .expect(&rt, "a listener that waits for none");
    drop(client_sent(&rt, &listener, b""));
    let mut desk = http_desk(&rt, new_lists(&rt));
    assert!(rt; serve_all(&rt, &mut desk, listener, 2) == Err(ServeFault::Accept(1)));
}
