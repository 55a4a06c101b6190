//! Reading messages from any reader.
ghost use Rattle.std.specs.Prelude.{◌≡◌, ◌≤◌, length, IfOk, OnErr};
ghost use Rattle.std.specs.List.{list_all};
ghost use Rattle.io_retries.specs.Failures.{ReadFailed};
ghost use Rattle.http_message.specs.Start.{IsStart};
ghost use Rattle.http_message.specs.Input.{is_line_end_byte, IsOpen, FillsRoom, ReadsBody, HasWhatCame, OnArrivalFault, OnStopFault};
ghost use Rattle.http_message.specs.Readers.{ReadsOnFrom, ReadsHeadFrom, ArrivesFrom};

use crate::framing::Framing;
use crate::head::{MAX_FIELDS, Start, framing_at, start_of};
use crate::unread::{MAX_HEAD, Unread};
use httparse::spans::{HeaderSpan, RequestSpans};
use io_retries::{Source, Tries, read_with_retries};
use std::alloc::{AllocError, Global};
use std::io;

/// A room is filled with so many zeros at a time, which takes less time than one after another.
const ZEROS: [u8; 16_384] = [0; 16_384];

/// Why a body was not read.
#[derive(Clone, Copy, PartialEq, Eq, Debug)]
pub(crate) enum Stop {
    /// A read failed.
    Fault,
    /// Memory was refused.
    NoRoom,
}

impl From<AllocError> for Stop {
    ghost use Rattle.http_message.specs.declared.reading.Stop.TheVariants.{NoRoom};

    ghost from_gives = { λ _ stop. stop ≡ NoRoom };

    fn from(_error: AllocError) -> Stop {
        Stop::NoRoom
    }
}

/// What came next.
#[derive(Drop)]
pub enum Arrival {
    /// A read failed before the message was whole.
    Fault,
    /// Memory for the body was refused.
    NoRoom,
    /// The input ended before the message.
    End,
    /// The input ended inside the message.
    Cut,
    /// The bytes are no head that is small enough, or its length is bad.
    BadHead,
    /// A request: where the parts of its head lie in the unread bytes, what it says of the body, and that.
    Request(RequestSpans, Framing, Vec<u8>),
}

/// Whether the bytes are line ends alone.
fn is_blank(bytes: &[u8]) -> bool
    ensures { result ≡ list_all is_line_end_byte bytes.now }
{
    let mut unread = bytes;
    while let [byte, rest @ ..] = unread {
        if *byte != b'\r' && *byte != b'\n' {
            return false;
        }
        unread = rest;
    }
    true
}

/// Reads on until a head may stand at the start, and tells whether one may; if not, the input has ended.
///
/// A head ends with a line feed and has a byte that ends no line. So it need not be looked for before both
/// came, and a reader that gives one byte a time has it looked for once for each of its lines.
fn read_on<R: Source>(reader: &mut R, tries: &mut Tries, unread: &mut Unread) -> io::Result<bool>
    requires { IsOpen unread.old }
    ensures read { ReadsOnFrom R.Source reader.old reader.new result unread.old unread.new }
    ensures fault { OnErr result (ReadFailed R.Source reader.new tries.new) }
{
    let mut blank = is_blank(unread.bytes());
    loop {
        let known = unread.bytes().len();
        if unread.fill(reader, tries)? == 0 {
            return Ok(false);
        }
        let bytes = unread.bytes();
        let piece = &bytes[known..];
        blank = blank && is_blank(piece);
        if bytes.len() == MAX_HEAD || (!blank && piece.contains(&b'\n')) {
            return Ok(true);
        }
    }
}

/// Reads until it can be told what stands at the start, or the input ends.
fn read_head<R: Source>(
    reader: &mut R,
    tries: &mut Tries,
    unread: &mut Unread,
    fields: &mut [HeaderSpan],
) -> io::Result<Start>
    requires { length fields.old ≡ MAX_FIELDS }
    ensures read { ReadsHeadFrom R.Source reader.old reader.new
        result fields.new unread.old unread.new }
    ensures fault { OnErr result (ReadFailed R.Source reader.new tries.new) }
{
    loop {
        let start = start_of(unread.bytes(), fields);
        let Start::Unfinished = start else {
            return Ok(start);
        };
        if !read_on(reader, tries, unread)? {
            return Ok(start);
        }
    }
}

/// Reads until the room is full, and tells whether it is; if not, the input has ended.
///
/// A read that fails is the last one: what came before it is lost with the body.
fn read_whole<R: Source>(reader: &mut R, tries: &mut Tries, room: &mut [u8]) -> io::Result<bool>
    ensures filled { FillsRoom result (R.remaining reader.old) (R.remaining reader.new) room.new }
    ensures fault { OnErr result (ReadFailed R.Source reader.new tries.new) }
{
    let mut filled = 0;
    while filled < room.len() {
        let count = read_with_retries(reader, &mut room[filled..], tries)?;
        if count == 0 {
            return Ok(false);
        }
        filled += count;
    }
    Ok(true)
}

/// Gives room for a body of this size, with what came of it at the start.
fn room_for(alloc: Global, come: &[u8], size: usize) -> Result<Vec<u8>, AllocError>
    ensures size { IfOk result (λ room. length room.items ≡ size) }
    ensures start { IfOk result (λ room. HasWhatCame size come.now room.items) }
{
    let mut room = Vec::with_capacity(alloc, size)?;
    room.extend_from_slice(&come[..size.min(come.len())])?;
    while room.len() < size {
        let missing = size - room.len();
        room.extend_from_slice(&ZEROS[..missing.min(ZEROS.len())])?;
    }
    Ok(room)
}

/// Reads the body of a head, of which some bytes came with the head; none where the input ends inside it.
/// The rest of it is read into its place.
fn read_body<R: Source>(
    alloc: Global,
    reader: &mut R,
    tries: &mut Tries,
    come: &[u8],
    size: usize,
) -> Result<Option<Vec<u8>>, Stop>
    ensures read { ReadsBody result (R.remaining reader.old)
        (R.remaining reader.new) come.now size }
    ensures fault { OnStopFault result (ReadFailed R.Source reader.new tries.new) }
{
    if size == 0 {
        return Ok(Some(Vec::new(alloc)));
    }
    let mut body = room_for(alloc, come, size)?;
    let start = size.min(come.len());
    match read_whole(reader, tries, &mut body[start..]) {
        Ok(true) => Ok(Some(body)),
        Ok(false) => Ok(None),
        Err(_) => Err(Stop::Fault),
    }
}

/// Reads the body of the head at the start of the bytes.
fn read_rest<R: Source>(
    alloc: Global,
    reader: &mut R,
    tries: &mut Tries,
    bytes: &[u8],
    fields: &[HeaderSpan],
    head: RequestSpans,
) -> Arrival
    requires start { IsStart bytes.now fields.now (Start.Head head) }
    requires fits { length fields.now ≡ MAX_FIELDS }
    requires few { length bytes.now ≤ MAX_HEAD }
    ensures arrived { ArrivesFrom R.Source reader.old reader.new
        result fields.now bytes.now bytes.now }
    ensures fault { OnArrivalFault result (ReadFailed R.Source reader.new tries.new) }
{
    let framing = framing_at(bytes, fields, &head);
    match framing {
        Framing::BadLength => Arrival::BadHead,
        Framing::LengthRequired | Framing::TooLarge => {
            Arrival::Request(head, framing, Vec::new(alloc))
        }
        Framing::Body(size) => {
            match read_body(alloc, reader, tries, &bytes[head.len..], size) {
                Ok(Some(body)) => Arrival::Request(head, framing, body),
                Ok(None) => Arrival::Cut,
                Err(Stop::Fault) => Arrival::Fault,
                Err(Stop::NoRoom) => Arrival::NoRoom,
            }
        }
    }
}

/// Reads the next message: its head into the unread bytes, with where its fields lie, and its body.
///
/// A head takes no memory but the unread bytes, a body room for its bytes, and no more is read of the
/// stream after a body that was not whole in the unread bytes.
pub fn read_message<R: Source>(
    alloc: Global,
    reader: &mut R,
    tries: &mut Tries,
    unread: &mut Unread,
    fields: &mut [HeaderSpan],
) -> Arrival
    requires { length fields.old ≡ MAX_FIELDS }
    ensures arrived { ArrivesFrom R.Source reader.old reader.new
        result fields.new unread.old unread.new }
    ensures fault { OnArrivalFault result (ReadFailed R.Source reader.new tries.new) }
{
    match read_head(reader, tries, unread, fields) {
        Ok(Start::Unfinished) => {
            if unread.bytes().is_empty() {
                Arrival::End
            } else {
                Arrival::Cut
            }
        }
        Ok(Start::Bad) => Arrival::BadHead,
        Ok(Start::Head(head)) => read_rest(alloc, reader, tries, unread.bytes(), fields, head),
        Err(_) => Arrival::Fault,
    }
}
