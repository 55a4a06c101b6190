//! A desk that is served on the loopback address only, and desks that cannot be served, with the messages of
//! the command. `judge/clients.py` tests the answers of a served desk by other clients.
use super::desks::{SAMPLE_BANK, clear, is_absent, is_made};
use super::{NOBODY, carry_out, prints};
use desk_cli::{Command, InitOptions, ServeOptions, Status, Syncs};
use std::io::{Read, Write};
use std::net::{Ipv4Addr, OpenListener, TcpListener, TcpStream};
use std::test::Fail;
use std::{fs, io};

// `serve` of this file on this port, for this number of connections.
fn serve(path: &str, port: u16, connections: u32) -> Command<'_> {
    let options = ServeOptions {
        port,
        connections,
        patience: 1,
        syncs: Syncs::Twice,
    };
    Command::Serve(path, options)
}

// Is no desk of this file served on this port, as it is not one?
fn is_no_desk(rt: &HostRuntime, path: &str, port: u16) -> bool {
    prints(
        rt,
        &serve(path, port, 1),
        NOBODY,
        Status::Refused,
        b"NotADesk\n",
    )
}

// A listener on a port of loopback, and the port.
fn listen(rt: &HostRuntime) -> Result<(TcpListener, u16), Fail> {
    let listener = TcpListener::bind(rt, "127.0.0.1:0")?;
    let port = listener.local_addr()?.port();
    Ok((listener, port))
}

#[test]
fn a_port_that_is_taken(rt: HostRuntime) -> Result<(), Fail> {
    let path = "served.db";
    assert!(rt; is_made(&rt, path)?);
    let (_listener, port) = listen(&rt)?;
    let command = serve(path, port, 1);
    assert!(rt; prints(&rt, &command, NOBODY, Status::Failed, b"unavailable\n"));
    // The desk is looked for before the port.
    clear(&rt, path)?;
    fs::write(&rt, path, b"")?;
    assert!(rt; is_no_desk(&rt, path, port));
    clear(&rt, path)?;
    assert!(rt; is_no_desk(&rt, path, port));
    assert!(rt; is_absent(&rt, path));
    Ok(())
}

const ASKED: &[u8] = b"GET /nowhere HTTP/1.1\r\nConnection: close\r\n\r\n";

const NOT_FOUND: &[u8] =
    b"HTTP/1.1 404 Not Found\r\nContent-Type: application/json\r\nContent-Length: 20\r\nConnection: close\r\n\r\n{\"error\":\"NotFound\"}";

// Standard output whose reader learns there where the desk listens, and connects to it.
#[derive(Drop)]
struct Caller<'a> {
    rt: &'a HostRuntime,
    port: u16,
    printed: Vec<u8>,
    client: Option<TcpStream>,
    is_reached_elsewhere: bool,
}

impl<'a> Write for Caller<'a> {
    fn write(&mut self, buf: &[u8]) -> io::Result<usize> {
        self.printed.write(buf)
    }

    fn flush(&mut self) -> io::Result<()> {
        let mut client = TcpStream::connect(self.rt, (Ipv4Addr::LOCALHOST, self.port))?;
        client.write_all(ASKED)?;
        self.client = Some(client);
        let elsewhere = (Ipv4Addr::new(127, 0, 0, 2), self.port);
        self.is_reached_elsewhere = TcpStream::connect(self.rt, elsewhere).is_ok();
        Ok(())
    }
}

// Is this the line of a server that listens on this port?
fn is_listening(rt: &HostRuntime, port: u16, line: &[u8]) -> Result<bool, Fail> {
    let wanted = format!(in rt.alloc(); "listening on 127.0.0.1:{port}\n")?;
    Ok(line == wanted.as_bytes())
}

// Is this all that the server sends to its client?
fn is_sent(rt: &HostRuntime, client: Option<TcpStream>, wanted: &[u8]) -> Result<bool, Fail> {
    let mut answer = Vec::new(rt.alloc());
    client.ok_or("a connection")?.read_to_end(&mut answer)?;
    Ok(answer.as_slice() == wanted)
}

#[test]
fn a_desk_is_reached_on_loopback_alone(rt: HostRuntime) -> Result<(), Fail> {
    let path = "loopback.db";
    assert!(rt; is_made(&rt, path)?);
    let (listener, port) = listen(&rt)?;
    drop(listener);
    let mut caller = Caller {
        rt: &rt,
        port,
        printed: Vec::new(rt.alloc()),
        client: None,
        is_reached_elsewhere: false,
    };
    let ended = carry_out(&rt, &serve(path, port, 1), NOBODY, &mut caller);
    assert!(rt; ended == Status::Done);
    assert!(rt; !caller.is_reached_elsewhere);
    assert!(rt; is_listening(&rt, port, caller.printed.as_slice())?);
    assert!(rt; is_sent(&rt, caller.client, NOT_FOUND)?);
    clear(&rt, path)
}

// ---- a desk that is not the sample bank's

/// The operator registers a company, which only this file then has.
const REGISTERS: &str =
    "POST /ops/companies HTTP/1.1\r\nX-Desk-Key: our-own-operator-key\r\nContent-Length: 144\r\nConnection: close\r\n\r\n{\"id\":\"LAKE07\",\"name\":\"LAKE SHORE\",\"key\":\"lake-shore-key\",\"entry_limit\":9999999999,\"credit_limit\":999999999999999,\"debit_limit\":999999999999999}";

const REGISTERED: &str =
    "HTTP/1.1 201 Created\r\nContent-Type: application/json\r\nContent-Length: 15\r\nConnection: close\r\n\r\n{\"id\":\"LAKE07\"}";

/// The company asks for its returns.
const ASKS: &str =
    "GET /c/LAKE07/returns HTTP/1.1\r\nX-Desk-Key: lake-shore-key\r\nConnection: close\r\n\r\n";

const NO_RETURNS: &str =
    "HTTP/1.1 200 OK\r\nContent-Type: application/json\r\nContent-Length: 14\r\nConnection: close\r\n\r\n{\"returns\":[]}";

// Standard output whose reader learns there where the desk listens. Two clients then connect to it, one
// after the other.
#[derive(Drop)]
struct Callers<'a> {
    rt: &'a HostRuntime,
    port: u16,
    messages: [&'static str; 2],
    clients: Vec<TcpStream>,
}

impl<'a> Write for Callers<'a> {
    fn write(&mut self, buf: &[u8]) -> io::Result<usize> {
        Ok(buf.len())
    }

    fn flush(&mut self) -> io::Result<()> {
        let messages = self.messages;
        for message in &messages {
            let mut client = TcpStream::connect(self.rt, (Ipv4Addr::LOCALHOST, self.port))?;
            client.write_all(message.as_bytes())?;
            self.clients.push(client)?;
        }
        Ok(())
    }
}

// Is each client of a run of `serve` over this file sent its answer?
fn answers_two(
    rt: &HostRuntime,
    path: &str,
    messages: [&'static str; 2],
    wanted: [&str; 2],
) -> Result<bool, Fail> {
    let (listener, port) = listen(rt)?;
    drop(listener);
    let mut callers = Callers {
        rt,
        port,
        messages,
        clients: Vec::new(rt.alloc()),
    };
    let mut are_sent = carry_out(rt, &serve(path, port, 2), NOBODY, &mut callers) == Status::Done;
    for (client, answer) in callers.clients.into_iter().zip(wanted) {
        are_sent &= is_sent(rt, Some(client), answer.as_bytes())?;
    }
    Ok(are_sent)
}

#[test]
fn a_desk_is_served_from_its_own_file(rt: HostRuntime) -> Result<(), Fail> {
    let path = "own.db";
    clear(&rt, path)?;
    // Its operator's key is not that of the sample bank's.
    let options = InitOptions {
        key: "our-own-operator-key",
        ..SAMPLE_BANK
    };
    let made = Command::Init(path, options);
    assert!(rt; prints(&rt, &made, NOBODY, Status::Done, b"created\n"));
    assert!(rt; answers_two(&rt, path, [REGISTERS, ASKS], [REGISTERED, NO_RETURNS])?);
    // Another run finds in the file what this one left there, and so does a session.
    assert!(rt; answers_two(&rt, path, [ASKS, ASKS], [NO_RETURNS, NO_RETURNS])?);
    let session = Command::AnswerByFile(path, Syncs::Twice);
    assert!(rt;
        prints(
            &rt,
            &session,
            ASKS.as_bytes(),
            Status::Done,
            NO_RETURNS.as_bytes()
        )
    );
    clear(&rt, path)
}
