//! Several cuts send entries here, with their traces and sequences.
use super::reads::Read;
use super::steps::{Step, hold};
use super::writes::Write;

const TRACES: &[Step] = &[
    Step::Write(Write::Entries(&[(1, b"2025-01-10"), (2, b"2025-01-10")])),
    Step::Read(Read::Sent(b"121042880000001", Some((1, b"2025-01-10", false)))),
    Step::Read(Read::Sent(b"121042880000002", Some((2, b"2025-01-10", false)))),
    Step::Read(Read::Sent(b"121042880000003", None)),
    Step::Write(Write::Entries(&[(1, b"2026-02-10"), (3, b"2026-02-10")])),
    Step::Read(Read::Sent(b"121042880000001", Some((1, b"2026-02-10", false)))),
    Step::Read(Read::Sent(b"121042880000002", Some((2, b"2025-01-10", false)))),
    Step::Read(Read::Sent(b"121042880000003", Some((3, b"2026-02-10", false)))),
    Step::Read(Read::Sent(b"061000140000001", None)),
];

#[test]
fn a_trace_names_the_youngest_entry(rt: HostRuntime) {
    hold(&rt, TRACES);
}

const SEQUENCES: &[Step] = &[
    Step::Write(Write::Entries(&[(1, b"2025-01-10"), (2, b"2025-01-13"), (3, b"2025-01-14")])),
    Step::Read(Read::Settled(1, 3, Some(b"2025-01-14"))),
    Step::Write(Write::Entries(&[(1, b"2025-01-09"), (3, b"2025-01-08")])),
    Step::Read(Read::Settled(1, 3, Some(b"2025-01-13"))),
    Step::Read(Read::Settled(1, 1, Some(b"2025-01-09"))),
    Step::Read(Read::Settled(3, 9, Some(b"2025-01-08"))),
    Step::Read(Read::Settled(4, 9, None)),
    Step::Read(Read::Settled(3, 1, None)),
];

#[test]
fn the_youngest_entry_of_a_sequence_settles_it(rt: HostRuntime) {
    hold(&rt, SEQUENCES);
}
