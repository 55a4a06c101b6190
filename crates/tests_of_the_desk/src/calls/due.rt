//! A store reads what a cut decides, whatever else is held.
use super::script::{
    BAKE, CUT_9, DAY, FOURTEENTH, HOLIDAYS, MILL, NINTH, ONE_RETURN, PAY_2, Script, follow,
    new_lists, new_tables,
};
use bank_days::Day;
use desk_core::{Desk, HeldSubmission, Store};
use remembering_store::Remembering;
use std::alloc::Global;
use std::process::Abort;

// Of each company one of two held submissions is due: a debit goes out one banking day ahead, a credit two.
const HELD: Script = &[
    MILL,
    BAKE,
    HOLIDAYS,
    DAY,
    PAY_2,
    NINTH,
    CUT_9,
    FOURTEENTH,
    ("desk items A PPD R01/1/2500/26", ONE_RETURN),
    (
        "MILL01 submit C credit 2025-01-17 091000019 300",
        "C order 2 entries 1 cents 300",
    ),
    (
        "MILL01 retry RT PAY-2 1 2025-01-15",
        "RT order 3 entries 1 cents 2500",
    ),
    (
        "BAKE01 submit D debit 2025-01-15 091000019 100 200",
        "D order 1 entries 2 cents 300",
    ),
    (
        "BAKE01 submit E debit 2025-01-16 091000019 400",
        "E order 2 entries 1 cents 400",
    ),
];

// Is it the submission of a company under a reference, with the cents of its entries, whose original settled
// on a day?
fn is_held(
    held: &HeldSubmission,
    company: &[u8],
    reference: &[u8],
    cents: &[u64],
    original: Option<Day>,
) -> bool {
    let content = held.row.content.submission();
    let entries = content.entries.as_slice();
    let settled = match held.original_settled {
        Some(settled) => Some(settled.day()),
        None => None,
    };
    held.company.id.bytes() == company
        && content.reference.bytes() == reference
        && entries.len() == cents.len()
        && entries
            .iter()
            .zip(cents)
            .all(|(entry, cents)| entry.cents.get() == *cents)
        && settled == original
}

// The due ones are read by the company's identification, and the retry with the day of its original.
fn reads_due<S: Store + Drop>(rt: &(impl Abort + Alloc<A = Global>), store: S) {
    let mut desk = Desk::new(store);
    assert!(rt; !follow(rt, &mut desk, HELD));
    let mut store = desk.into_store();
    let holidays = store.calendar(rt.alloc()).ok().expect(rt, "holidays");
    let today = store.day(rt.alloc()).ok().expect(rt, "an answer");
    let today = today.expect(rt, "a desk day");
    let due = store.due(rt.alloc(), today, &holidays).ok();
    let due = due.expect(rt, "what is due");
    let tenth = Day::read(b"2025-01-10").expect(rt, "a day");
    assert!(rt; due.len() == 2);
    assert!(rt; is_held(&due[0], b"BAKE01", b"D", &[100, 200], None));
    assert!(rt; is_held(&due[1], b"MILL01", b"RT", &[2500], Some(tenth)));
}

#[test]
fn what_a_cut_decides_is_read(rt: HostRuntime) {
    reads_due(&rt, new_tables(&rt));
    reads_due(&rt, new_lists(&rt));
    reads_due(&rt, Remembering::new(rt.alloc(), new_tables(&rt)));
}
