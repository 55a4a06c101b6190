//! Readers and writers that are interrupted, that fail once, or that are asked for too much.
use super::files::{LINE, RECORDS};
use super::lists::{OPTIONS, PAY_LIST, PAY_MESSAGE};
use super::{PAY_1, PAY_1_LINE};
use desk_cli::{LineFault, Status, check_file, first_run, print_line_fault, submit_list};
use std::alloc::Global;
use std::io;
use std::io::{ErrorKind, Read, Write};
use std::test::Fail;

/// A reader that is first interrupted this many times. When this many bytes are left it can fail
/// once, and would continue after that.
#[derive(Drop)]
pub struct FaultyReader<'a> {
    pub interruptions: u32,
    pub failure: Option<ErrorKind>,
    pub left: usize,
    pub rest: &'a [u8],
}

impl Read for FaultyReader<'_> {
    fn read(&mut self, buf: &mut [u8]) -> io::Result<usize> {
        if self.interruptions > 0 {
            self.interruptions -= 1;
            return Err(io::Error::from(ErrorKind::Interrupted));
        }
        if self.rest.len() <= self.left {
            if let Some(kind) = self.failure.take() {
                return Err(io::Error::from(kind));
            }
        }
        let most = buf.len().min(50);
        self.rest.read(&mut buf[..most])
    }
}

/// A reader of some bytes and then line feeds without end, which fails where more than 4,194,305
/// bytes are asked for in all, or more than `most` at once.
#[derive(Drop)]
struct LongReader<'a> {
    rest: &'a [u8],
    left: usize,
    most: usize,
}

impl Read for LongReader<'_> {
    fn read(&mut self, buf: &mut [u8]) -> io::Result<usize> {
        if self.left == 0 || buf.len() > self.most {
            return Err(io::Error::from(ErrorKind::ConnectionReset));
        }
        let most = buf.len().min(self.left);
        let mut count = self.rest.read(&mut buf[..most])?;
        if count == 0 {
            for byte in &mut buf[..most] {
                *byte = b'\n';
            }
            count = most;
        }
        self.left = self.left.saturating_sub(count);
        Ok(count)
    }
}

/// A writer that is first interrupted this many times, and then takes one byte at a time. When it
/// has taken this many it can fail once, or take no more.
#[derive(Drop)]
pub struct FaultyWriter {
    pub text: Vec<u8>,
    pub interruptions: u32,
    pub failure: Option<ErrorKind>,
    pub room: usize,
}

impl Write for FaultyWriter {
    fn write(&mut self, buf: &[u8]) -> io::Result<usize> {
        if self.interruptions > 0 {
            self.interruptions -= 1;
            return Err(io::Error::from(ErrorKind::Interrupted));
        }
        if self.text.len() == self.room {
            return match self.failure.take() {
                Some(kind) => {
                    self.room = usize::MAX;
                    Err(io::Error::from(kind))
                }
                None => Ok(0),
            };
        }
        match buf {
            [first, ..] => {
                self.text.push(*first)?;
                Ok(1)
            }
            [] => Ok(0),
        }
    }

    fn flush(&mut self) -> io::Result<()> {
        Ok(())
    }
}

/// A writer with a buffer, which a flush empties; the first flushes fail in this way.
#[derive(Drop)]
struct BufferedWriter {
    text: Vec<u8>,
    buffer: Vec<u8>,
    failures: u32,
    kind: ErrorKind,
}

impl Write for BufferedWriter {
    fn write(&mut self, buf: &[u8]) -> io::Result<usize> {
        self.buffer.extend_from_slice(buf)?;
        Ok(buf.len())
    }

    fn flush(&mut self) -> io::Result<()> {
        if self.failures > 0 {
            self.failures -= 1;
            return Err(io::Error::from(self.kind));
        }
        self.text.extend_from_slice(self.buffer.as_slice())?;
        self.buffer.clear();
        Ok(())
    }
}

/// A command that reads an input.
#[derive(Clone, Copy, Debug)]
enum Run {
    /// The answer to PAY-1.
    Answer,
    /// The check of the file of one return.
    Check,
    /// The message of a list of one entry.
    Submit,
}

const RUNS: &[Run] = &[Run::Answer, Run::Check, Run::Submit];

impl Run {
    fn input(self) -> &'static [u8] {
        match self {
            Run::Answer => PAY_1,
            Run::Check => RECORDS,
            Run::Submit => PAY_LIST,
        }
    }

    // Returns the text that it prints.
    fn text(self) -> &'static str {
        match self {
            Run::Answer => PAY_1_LINE,
            Run::Check => LINE,
            Run::Submit => PAY_MESSAGE,
        }
    }

    fn over<R: Read, W: Write>(self, rt: &HostRuntime, reader: &mut R, writer: &mut W) -> Status {
        match self {
            Run::Answer => first_run(rt.alloc(), reader, writer),
            Run::Check => check_file(rt.alloc(), reader, writer),
            Run::Submit => submit_list(rt.alloc(), &OPTIONS, reader, writer),
        }
    }

    // Reports whether a run with this many interruptions of its reader and of its writer gives its
    // text, or else fails with this one.
    fn shares_tries(self, rt: &HostRuntime, reads: u32, writes: u32, failed: Option<&str>) -> bool {
        let mut reader = FaultyReader {
            interruptions: reads,
            failure: None,
            left: 0,
            rest: self.input(),
        };
        let mut writer = FaultyWriter {
            text: Vec::new(rt.alloc()),
            interruptions: writes,
            failure: None,
            room: usize::MAX,
        };
        let (status, text) = match failed {
            None => (Status::Done, self.text()),
            Some(text) => (Status::Failed, text),
        };
        let ended = self.over(rt, &mut reader, &mut writer);
        ended == status && writer.text.as_slice() == text.as_bytes()
    }

    // Reports whether a run fails whose reader fails once, with this many bytes left.
    fn fails(self, rt: &HostRuntime, kind: ErrorKind, left: usize) -> bool {
        let mut reader = FaultyReader {
            interruptions: 3,
            failure: Some(kind),
            left,
            rest: self.input(),
        };
        self.ends(rt, &mut reader, Status::Failed, "unavailable\n")
    }

    // Does a run over this reader end so, and print this line?
    fn ends<R: Read>(self, rt: &HostRuntime, reader: &mut R, status: Status, line: &str) -> bool {
        let mut output = Vec::new(rt.alloc());
        let ended = self.over(rt, reader, &mut output);
        ended == status && output.as_slice() == line.as_bytes()
    }
}

/// Interruptions of the reader and of the writer, and the text that a failing run prints; without
/// one, the run gives its answer.
const INTERRUPTIONS: &[(u32, u32, Option<&str>)] = &[
    (0, 0, None),
    (1_000, 0, None),
    (0, 1_000, None),
    (600, 400, None),
    (400, 600, None),
    (0, 1_001, Some("")),
    (600, 401, Some("")),
    (600, 600, Some("")),
    (1_000, 1, Some("")),
    (1_001, 0, Some("unavailable\n")),
];

/// These failures are not tried again.
const FAILURES: &[ErrorKind] = &[
    ErrorKind::ConnectionReset,
    ErrorKind::WouldBlock,
    ErrorKind::TimedOut,
    ErrorKind::UnexpectedEof,
];

/// A run, and how many bytes are left where its reader fails: before the first byte, in the middle,
/// and before the end.
const STOPS: &[(Run, usize)] = &[
    (Run::Answer, usize::MAX),
    (Run::Answer, 90),
    (Run::Answer, 20),
    (Run::Answer, 0),
    (Run::Check, usize::MAX),
    (Run::Check, 90),
    (Run::Check, 20),
    (Run::Check, 0),
    (Run::Submit, usize::MAX),
    (Run::Submit, 90),
    (Run::Submit, 20),
    (Run::Submit, 0),
];

/// How many bytes a writer takes, and how a run ends whose line has 53.
const ROOMS: &[(usize, Status)] = &[
    (0, Status::Failed),
    (1, Status::Failed),
    (52, Status::Failed),
    (53, Status::Done),
    (60, Status::Done),
];

/// How often a flush fails and how, and whether the line is out in the end.
const FLUSHES: &[(u32, ErrorKind, bool)] = &[
    (0, ErrorKind::StorageFull, true),
    (1, ErrorKind::StorageFull, false),
    (1_000, ErrorKind::Interrupted, true),
    (1_001, ErrorKind::Interrupted, false),
];

/// The most bytes that a run asks for at once, and the line that it prints of an input without end.
const ENDLESS: &[(Run, usize, &str)] = &[
    (Run::Answer, usize::MAX, "{\"error\":\"TooLarge\"}\n"),
    (Run::Check, 65_536, "TooLarge at record 6\n"),
    (Run::Submit, usize::MAX, "too large\n"),
];

// Reports the end of a run whose writer is interrupted this many times, takes this many bytes, and
// then fails in this way or takes no more.
fn takes(
    alloc: Global,
    interruptions: u32,
    failure: Option<ErrorKind>,
    room: usize,
    status: Status,
) -> bool {
    let mut writer = FaultyWriter {
        text: Vec::new(alloc),
        interruptions,
        failure,
        room,
    };
    let mut body = PAY_1;
    let ended = first_run(alloc, &mut body, &mut writer);
    let taken = PAY_1_LINE.as_bytes().get(..room.min(PAY_1_LINE.len()));
    ended == status && taken == Some(writer.text.as_slice())
}

fn buffered(alloc: Global, failures: u32, kind: ErrorKind) -> BufferedWriter {
    BufferedWriter {
        text: Vec::new(alloc),
        buffer: Vec::new(alloc),
        failures,
        kind,
    }
}

#[test]
fn reads_and_writes_share_the_tries(rt: HostRuntime) {
    for &(reads, writes, failed) in INTERRUPTIONS {
        for &run in RUNS {
            let is_shared = run.shares_tries(&rt, reads, writes, failed);
            assert!(rt; is_shared, "{run:?} {reads} {writes}");
        }
    }
}

#[test]
fn no_other_failure_of_a_reader_is_tried_again(rt: HostRuntime) {
    for &kind in FAILURES {
        for &(run, left) in STOPS {
            assert!(rt; run.fails(&rt, kind, left), "{run:?} {left}");
        }
    }
}

#[test]
fn no_other_failure_of_a_writer_is_tried_again(rt: HostRuntime) {
    for &kind in FAILURES {
        for &room in &[0, 1, 52] {
            assert!(rt;
                takes(rt.alloc(), 3, Some(kind), room, Status::Failed),
                "{room}"
            );
        }
    }
}

#[test]
fn a_writer_takes_a_prefix(rt: HostRuntime) {
    for &(room, status) in ROOMS {
        assert!(rt; takes(rt.alloc(), 7, None, room, status), "{room}");
    }
}

#[test]
fn an_answer_whose_flush_fails_is_a_failed_write(rt: HostRuntime) {
    for &(failures, kind, is_out) in FLUSHES {
        let mut writer = buffered(rt.alloc(), failures, kind);
        let mut body = PAY_1;
        let status = first_run(rt.alloc(), &mut body, &mut writer);
        let (wanted, line) = if is_out {
            (Status::Done, PAY_1_LINE)
        } else {
            (Status::Failed, "")
        };
        assert!(rt;
            status == wanted && writer.text.as_slice() == line.as_bytes(),
            "{failures}"
        );
    }
}

#[test]
fn a_fault_whose_flush_fails_is_a_failed_write(rt: HostRuntime) -> Result<(), Fail> {
    for &(failures, kind, is_out) in FLUSHES {
        let mut writer = buffered(rt.alloc(), failures, kind);
        let text = String::from_str(rt.alloc(), "error: wrong words\n")?;
        let code = print_line_fault(&mut writer, &LineFault::Usage(text));
        assert!(rt; code == if is_out { 2 } else { 3 }, "{failures}");
    }
    Ok(())
}

#[test]
fn no_more_is_read_than_decides(rt: HostRuntime) {
    for &(run, most, line) in ENDLESS {
        let mut reader = LongReader {
            rest: run.input(),
            left: 4_194_305,
            most,
        };
        assert!(rt; run.ends(&rt, &mut reader, Status::Refused, line), "{line}");
    }
}
