//! Scripts of calls, each with the answer that it must have, and how they are run.
use super::answers::words_of;
use super::calls::call_of;
use super::old_cut::put_old_cut;
use ach_fields::Routing;
use desk_core::{Desk, FaultyStore, Identity, ListStore, PartyName, Store};
use remembering_store::{Caps, Remembering};
use sql_store::SqlStore;
use sqlite::MemStore;
use std::alloc::Global;
use std::process::Abort;

/// A script has lines, each with the answer that it must have.
pub(super) type Script = &'static [(&'static str, &'static str)];

/// This is the digest of the operator's key.
pub(super) const OPERATOR_DIGEST: [u8; 32] = [7; 32];

// Lines of most scripts, with their answers.
pub(super) const MILL: (&str, &str) = (
    "desk company MILL01 9999999999 999999999999999 999999999999999",
    "MILL01",
);

pub(super) const BAKE: (&str, &str) = (
    "desk company BAKE01 9999999999 999999999999999 999999999999999",
    "BAKE01",
);

pub(super) const HOLIDAYS: (&str, &str) = ("desk holidays 2025-01-20", "holidays 1");

pub(super) const DAY: (&str, &str) = ("desk day 2025-01-08", "2025-01-08");

pub(super) const NINTH: (&str, &str) = ("desk day 2025-01-09", "2025-01-09");

pub(super) const FOURTEENTH: (&str, &str) = ("desk day 2025-01-14", "2025-01-14");

/// One entry is sent on that day.
pub(super) const CUT_9: (&str, &str) = ("desk cut", "2025-01-09 sent 1 in [A], lapsed 0");

/// This is the answer to a file of one return, on that day.
pub(super) const ONE_RETURN: &str = "2025-01-14 returns 1 late 0 changes 0 suspense 0";

pub(super) const PAY_1: (&str, &str) = (
    "MILL01 submit PAY-1 credit 2025-01-10 091000019 150000",
    "PAY-1 order 1 entries 1 cents 150000",
);

pub(super) const PAY_2: (&str, &str) = (
    "MILL01 submit PAY-2 debit 2025-01-10 091000019 2500",
    "PAY-2 order 1 entries 1 cents 2500",
);

/// The same after the first.
pub(super) const PAY_2_SECOND: (&str, &str) = (
    "MILL01 submit PAY-2 debit 2025-01-10 091000019 2500",
    "PAY-2 order 2 entries 1 cents 2500",
);

/// A script makes fewer calls of the store.
pub(super) const MOST_CALLS: u64 = 1_000;

// Fewer calls than these fill the memory one after another.
const MOST_UNSEEN: u64 = 5;

fn name(rt: &impl Abort, text: &[u8]) -> PartyName {
    PartyName::new(text).ok().expect(rt, "a name")
}

fn routing(rt: &impl Abort, text: &[u8]) -> Routing {
    Routing::parse(text).ok().expect(rt, "a routing number")
}

fn identity(rt: &impl Abort) -> Identity {
    Identity {
        odfi: routing(rt, b"121042882"),
        odfi_name: name(rt, b"OUR BANK"),
        destination: routing(rt, b"061000146"),
        destination_name: name(rt, b"ACH OPERATOR"),
    }
}

/// Makes a new store of the sample bank, in lists.
pub(super) fn new_lists(rt: &(impl Abort + Alloc<A = Global>)) -> ListStore {
    ListStore::new(rt.alloc(), identity(rt), OPERATOR_DIGEST)
}

/// Makes the same store in tables.
pub(super) fn new_tables(rt: &(impl Abort + Alloc<A = Global>)) -> SqlStore<MemStore> {
    SqlStore::in_memory(rt.alloc(), identity(rt), OPERATOR_DIGEST)
        .ok()
        .expect(rt, "tables")
}

/// Returns the answer to a line's call, in words, and whether the store failed first: then the call
/// is made again.
pub(super) fn words_for<S: Store>(
    rt: &(impl Abort + Alloc<A = Global>),
    desk: &mut Desk<S>,
    line: &str,
) -> (String, bool) {
    let mut given = desk.apply(rt.alloc(), call_of(rt, line));
    let asked_again = given.is_err();
    if asked_again {
        given = desk.apply(rt.alloc(), call_of(rt, line));
    }
    let answer = given.ok().expect(rt, "an answer");
    (words_of(rt, &answer), asked_again)
}

/// Checks the answer to each call of a script. Reports whether a call was made again because the
/// store failed.
pub(super) fn follow<S: Store>(
    rt: &(impl Abort + Alloc<A = Global>),
    desk: &mut Desk<S>,
    script: &[(&str, &str)],
) -> bool {
    let mut asked_again = false;
    for (line, wanted) in script {
        let (words, again) = words_for(rt, desk, line);
        assert!(rt; words.as_str() == *wanted, "{line}");
        asked_again |= again;
    }
    asked_again
}

/// Returns the store after it sent entries with these sequences; unchanged if there are none.
pub(super) fn after<S: Store>(
    rt: &(impl Abort + Alloc<A = Global>),
    store: S,
    sequences: &[u32],
) -> S {
    let mut store = store;
    if !sequences.is_empty() {
        put_old_cut(rt, &mut store, sequences);
    }
    store
}

// Runs a script over a store: was a call asked once more?
fn run<S: Store + Drop>(rt: &(impl Abort + Alloc<A = Global>), store: S, script: Script) -> bool {
    follow(rt, &mut Desk::new(store), script)
}

// Runs a script over tables and over lists, and over the same where they remember.
fn holds_everywhere(rt: &(impl Abort + Alloc<A = Global>), sequences: &[u32], script: Script) {
    let tables = after(rt, new_tables(rt), sequences);
    assert!(rt; !run(rt, tables, script));
    let lists = after(rt, new_lists(rt), sequences);
    assert!(rt; !run(rt, lists, script));
    let tables = after(rt, new_tables(rt), sequences);
    assert!(rt; !run(rt, Remembering::new(rt.alloc(), tables), script));
    let lists = after(rt, new_lists(rt), sequences);
    assert!(rt; !run(rt, Remembering::new(rt.alloc(), lists), script));
}

/// Runs a script over tables and over lists, over the same where they remember, and with each call of
/// the store refused in turn, until none is; the store has sent entries with these sequences before.
pub(super) fn holds_after(
    rt: &(impl Abort + Alloc<A = Global>),
    sequences: &[u32],
    script: Script,
) {
    holds_everywhere(rt, sequences, script);
    for call in 1..MOST_CALLS {
        let lists = after(rt, new_lists(rt), sequences);
        if !run(rt, FaultyStore::new(lists, call), script) {
            return;
        }
    }
    assert!(rt; false, "the script makes more calls of the store");
}

/// Runs a script over a store that remembers, with each call of the inner store refused in turn. It
/// ends after some runs in which no call was made again: no caller sees a refused call that only fills
/// the memory.
pub(super) fn holds_remembering(rt: &(impl Abort + Alloc<A = Global>), script: Script) {
    holds_remembering_within(rt, Caps::standard(), script);
}

/// Does the same with other caps.
pub(super) fn holds_remembering_within(
    rt: &(impl Abort + Alloc<A = Global>),
    caps: Caps,
    script: Script,
) {
    let mut seen = 0;
    for call in 1..MOST_CALLS {
        let lists = FaultyStore::new(new_lists(rt), call);
        let store = Remembering::with_caps(rt.alloc(), lists, caps);
        if run(rt, store, script) {
            seen = call;
        }
        if call.saturating_sub(seen) == MOST_UNSEEN {
            return;
        }
    }
    assert!(rt; false, "the script makes more calls of the store");
}

/// Does the same over the store of a new desk.
pub(super) fn holds(rt: &(impl Abort + Alloc<A = Global>), script: Script) {
    holds_after(rt, &[], script);
}
