//! These scripts try sequences at their end, and used again.
use super::script::{
    BAKE, DAY, HOLIDAYS, MILL, NINTH, Script, after, follow, holds_after, new_lists, new_tables,
};
use ach_fields::{Id, Ref, Trace};
use bank_days::Day;
use desk_core::{Desk, Store};
use std::alloc::Global;
use std::process::Abort;

// A desk has sent almost as many entries as there are sequences.
const OLD: [u32; 3] = [1, 2, 9_999_998];

// A batch of two begins again at 1 once the entries there settled 366 days ago; a return then meets the
// new entry.
const BEGINS_AGAIN: Script = &[
    MILL,
    HOLIDAYS,
    ("desk day 2026-03-03", "2026-03-03"),
    (
        "MILL01 submit T debit 2026-03-04 091000019 2500 2600",
        "T order 1 entries 2 cents 5100",
    ),
    ("desk cut", "TracesSpent"),
    (
        "MILL01 look T",
        "T order 1 2026-03-04; 1 2500 held; 2 2600 held",
    ),
    ("desk day 2026-03-04", "2026-03-04"),
    ("desk cut", "2026-03-04 sent 2 in [A], lapsed 0"),
    (
        "desk items A PPD R01/1/2500/26",
        "2026-03-04 returns 1 late 0 changes 0 suspense 0",
    ),
    (
        "desk items B PPD R01/2/100/26",
        "2026-03-04 returns 0 late 0 changes 0 suspense 1",
    ),
    ("desk suspense", "suspense; 1 100 Differs"),
];

#[test]
fn a_batch_begins_again(rt: HostRuntime) {
    holds_after(&rt, &OLD, BEGINS_AGAIN);
}

// The last sequence goes to a batch of one, and the next batch begins at 1.
const LAST_USED: Script = &[
    MILL,
    HOLIDAYS,
    ("desk day 2026-03-04", "2026-03-04"),
    (
        "MILL01 submit O debit 2026-03-05 091000019 700",
        "O order 1 entries 1 cents 700",
    ),
    (
        "MILL01 submit T debit 2026-03-05 091000019 2500 2600",
        "T order 2 entries 2 cents 5100",
    ),
    ("desk cut", "2026-03-04 sent 3 in [A], lapsed 0"),
    (
        "desk items A PPD R01/9999999/700/26 R01/1/2500/26 R01/2/2600/26",
        "2026-03-04 returns 3 late 0 changes 0 suspense 0",
    ),
];

#[test]
fn the_last_sequence_is_used(rt: HostRuntime) {
    holds_after(&rt, &OLD, LAST_USED);
}

// Two entries of MILL01 are sent first, then two of BAKE01 and one of MILL01: so the entries of the
// second and third sequence have another order in the table.
const IN_TURN: Script = &[
    MILL,
    BAKE,
    HOLIDAYS,
    DAY,
    (
        "MILL01 submit PAY-1 debit 2025-01-09 091000019 100 200",
        "PAY-1 order 1 entries 2 cents 300",
    ),
    ("desk cut", "2025-01-08 sent 2 in [A], lapsed 0"),
    NINTH,
    (
        "BAKE01 submit PAY-1 credit 2025-01-13 091000019 100 200",
        "PAY-1 order 1 entries 2 cents 300",
    ),
    (
        "MILL01 submit PAY-2 debit 2025-01-10 091000019 400",
        "PAY-2 order 2 entries 1 cents 400",
    ),
    ("desk cut", "2025-01-09 sent 3 in [A], lapsed 0"),
];

// The first and the last sequence of a range, and the latest day on which one of its entries settles.
const SETTLED: [(u32, u32, Option<&[u8]>); 8] = [
    (1, 1, Some(b"2025-01-09")),
    (1, 2, Some(b"2025-01-09")),
    (2, 3, Some(b"2025-01-13")),
    (4, 5, Some(b"2025-01-13")),
    (1, 5, Some(b"2025-01-13")),
    (5, 5, Some(b"2025-01-10")),
    (5, 9, Some(b"2025-01-10")),
    (6, 9, None),
];

fn settle_in_turn<S: Store + Drop>(rt: &(impl Abort + Alloc<A = Global>), store: S) {
    let mut desk = Desk::new(store);
    follow(rt, &mut desk, IN_TURN);
    let mut store = desk.into_store();
    for (from, to, text) in SETTLED {
        let wanted = match text {
            Some(text) => Some(Day::read(text).expect(rt, "a day")),
            None => None,
        };
        assert!(rt;
            store.latest_settled(rt.alloc(), from, to) == Ok(wanted),
            "{from} to {to}"
        );
    }
}

#[test]
fn ranges_of_several_cuts_settle(rt: HostRuntime) {
    settle_in_turn(&rt, new_lists(&rt));
    settle_in_turn(&rt, new_tables(&rt));
}

// An entry: its company, the reference of its submission, and its number there.
type Named = (&'static [u8], &'static [u8], u64);

// The sequence of the last entry that was sent, and the entries that traces name.
type Numbered = (u32, &'static [(&'static [u8], Option<Named>)]);

const NUMBERED_IN_TURN: Numbered = (
    5,
    &[
        (b"121042880000002", Some((b"MILL01", b"PAY-1", 2))),
        (b"121042880000003", Some((b"BAKE01", b"PAY-1", 1))),
        (b"121042880000005", Some((b"MILL01", b"PAY-2", 1))),
        (b"121042880000006", None),
        // Another bank's.
        (b"061000140000005", None),
    ],
);

// Sequence 2 is given a second time after the last one: its trace names the younger entry.
const NUMBERED_AGAIN: Numbered = (
    2,
    &[
        (b"121042880000002", Some((b"MILL01", b"T", 2))),
        (b"121042889999998", Some((b"BAKE01", b"OLD", 3))),
        (b"121042889999999", Some((b"MILL01", b"O", 1))),
    ],
);

fn entry_named<S: Store>(
    rt: &(impl Abort + Alloc<A = Global>),
    store: &mut S,
    trace: &[u8],
) -> Option<(Id, Ref, u64)> {
    let trace = Trace::parse(trace).ok().expect(rt, "a trace");
    match store
        .sent_as(rt.alloc(), trace)
        .ok()
        .expect(rt, "an answer")
    {
        Some(entry) => Some((entry.company, entry.reference, entry.index)),
        None => None,
    }
}

fn wanted_entry(rt: &impl Abort, named: Option<Named>) -> Option<(Id, Ref, u64)> {
    match named {
        Some((company, name, index)) => {
            let id = Id::new(company).ok().expect(rt, "an identification");
            Some((id, Ref::new(name).ok().expect(rt, "a reference"), index))
        }
        None => None,
    }
}

// After a script, which the store follows once it has sent entries with these sequences.
fn is_numbered<S: Store + Drop>(
    rt: &(impl Abort + Alloc<A = Global>),
    store: S,
    sequences: &[u32],
    script: Script,
    (last, names): Numbered,
) {
    let mut desk = Desk::new(after(rt, store, sequences));
    follow(rt, &mut desk, script);
    let mut store = desk.into_store();
    assert!(rt; store.last_sequence(rt.alloc()) == Ok(last));
    for (trace, named) in names {
        assert!(rt;
            entry_named(rt, &mut store, trace) == wanted_entry(rt, *named),
            "{trace:?}"
        );
    }
}

#[test]
fn traces_name_the_youngest_entries(rt: HostRuntime) {
    is_numbered(&rt, new_lists(&rt), &[], IN_TURN, NUMBERED_IN_TURN);
    is_numbered(&rt, new_tables(&rt), &[], IN_TURN, NUMBERED_IN_TURN);
    is_numbered(&rt, new_lists(&rt), &OLD, LAST_USED, NUMBERED_AGAIN);
    is_numbered(&rt, new_tables(&rt), &OLD, LAST_USED, NUMBERED_AGAIN);
}
