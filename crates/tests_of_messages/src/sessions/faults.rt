//! Readers and writers that fail, or are interrupted.
use crate::sessions::readers::Pieces;
use crate::sessions::texts::{ABC, EMPTY, GET, POST_ABC, front, join_texts, runs, sink};
use http_session::{Ended, SessionFault};
use std::alloc::Global;
use std::process::Abort;

/// Here end a GET, a POST and a GET.
const FIRST: usize = GET.len();

const SECOND: usize = GET.len() + POST_ABC.len();

const THIRD: usize = 2 * GET.len() + POST_ABC.len();

/// The answers that are written if this many of their bytes are read.
fn answers_to(read: usize) -> &'static [&'static [u8]] {
    if read < FIRST {
        &[]
    } else if read < SECOND {
        &[EMPTY]
    } else if read < THIRD {
        &[EMPTY, ABC]
    } else {
        &[EMPTY, ABC, EMPTY]
    }
}

/// The k-th read fails, for each k: what was written are the answers to the messages that were whole.
#[test]
fn tells_a_read_that_fails(rt: HostRuntime) {
    let bytes = join_texts(&rt, &[GET, POST_ABC, GET]);
    for good in 0..25 {
        let read = good as usize * 6;
        let end = if read < bytes.len() + 6 {
            Err(SessionFault::Read)
        } else {
            Ok(Ended::Closed)
        };
        let mut reader = Pieces::new(&bytes, 6);
        reader.good = good;
        let written = join_texts(&rt, answers_to(read));
        runs(&rt, front(&rt), reader, sink(&rt), end, &written);
    }
}

/// Checks a writer that takes at most this many bytes a write and fails after a total: exactly
/// these were written.
fn tells_a_full_writer(rt: &(impl Abort + Alloc<A = Global>), room: usize, most: usize) {
    let bytes = join_texts(rt, &[POST_ABC, GET, GET]);
    let answers = join_texts(rt, &[ABC, EMPTY, EMPTY]);
    let mut writer = sink(rt);
    writer.room = room;
    writer.most = most;
    let written = answers.get(..room).expect(rt, "no more than the answers");
    let reader = Pieces::new(&bytes, 50);
    runs(
        rt,
        front(rt),
        reader,
        writer,
        Err(SessionFault::Write),
        written,
    );
}

/// A writer fails after j bytes, for each j of two answers.
#[test]
fn tells_a_write_that_fails(rt: HostRuntime) {
    for room in 0..ABC.len() + EMPTY.len() {
        tells_a_full_writer(&rt, room, 1);
        tells_a_full_writer(&rt, room, 13);
        tells_a_full_writer(&rt, room, usize::MAX);
    }
}

/// A write that takes none of its bytes has failed.
#[test]
fn tells_a_write_that_takes_nothing(rt: HostRuntime) {
    let mut writer = sink(&rt);
    writer.most = 0;
    let reader = Pieces::new(GET, 50);
    runs(
        &rt,
        front(&rt),
        reader,
        writer,
        Err(SessionFault::Write),
        b"",
    );
}

/// How many flushes are good, and the answers that are written.
const FLUSHES: &[(u32, &[&[u8]])] = &[(0, &[ABC]), (1, &[ABC, EMPTY]), (2, &[ABC, EMPTY, EMPTY])];

/// A flush that fails is a write that failed, though the writer took the whole answer: nothing more is
/// answered.
#[test]
fn tells_a_flush_that_fails(rt: HostRuntime) {
    let bytes = join_texts(&rt, &[POST_ABC, GET, GET]);
    for &(good, answers) in FLUSHES {
        let mut writer = sink(&rt);
        writer.good_flushes = good;
        let written = join_texts(&rt, answers);
        let reader = Pieces::new(&bytes, 50);
        runs(
            &rt,
            front(&rt),
            reader,
            writer,
            Err(SessionFault::Write),
            &written,
        );
    }
}

/// The interruptions of reads, of writes and of flushes, how the session ends, and what it wrote.
const INTERRUPTIONS: &[(u32, u32, u32, Result<Ended, SessionFault>, &[u8])] = &[
    (1_000, 0, 0, Ok(Ended::Closed), EMPTY),
    (1_001, 0, 0, Err(SessionFault::Read), b""),
    (0, 1_000, 0, Ok(Ended::Closed), EMPTY),
    (0, 1_001, 0, Err(SessionFault::Write), b""),
    (0, 0, 1_000, Ok(Ended::Closed), EMPTY),
    (0, 0, 1_001, Err(SessionFault::Write), EMPTY),
    (400, 600, 0, Ok(Ended::Closed), EMPTY),
    (400, 601, 0, Err(SessionFault::Write), b""),
    (400, 300, 301, Err(SessionFault::Write), EMPTY),
];

/// A session bears 1,000 interruptions of reads, writes and flushes together, and no more.
#[test]
fn bears_a_thousand_interruptions(rt: HostRuntime) {
    for &(reads, writes, flushes, end, written) in INTERRUPTIONS {
        let mut reader = Pieces::new(GET, 9);
        reader.interruptions = reads;
        let mut writer = sink(&rt);
        writer.interruptions = writes;
        writer.flush_interruptions = flushes;
        runs(&rt, front(&rt), reader, writer, end, written);
    }
}
