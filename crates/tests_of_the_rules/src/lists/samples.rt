//! The sample bank, its companies, and what they send and get back.
use crate::samples::{cents, day, id, identity, reference, routing, rule_day, short_text};
use desk_history::{Intake, ReturnRow, SentEntry, SuspenseReason, SuspenseRow, TakenFile};
use desk_rules::{
    AccountKind, Company, Direction, Entry, EntryCents, Limits, ReturnCode, SecCode,
    SizedSubmission,
};
use memory_store::ListStore;
use std::alloc::Global;
use std::process::Abort;

pub(super) const OPERATOR_KEY: [u8; 32] = [7; 32];

pub(super) fn company(rt: &impl Abort, name: &[u8]) -> Company {
    Company {
        id: id(rt, name),
        name: short_text(rt, b"MILL STREET"),
        digest: [1; 32],
        limits: Limits {
            entry: 1,
            credit: 2,
            debit: 3,
        },
    }
}

// A debit of 25.00.
pub(super) fn entry(rt: &impl Abort) -> Entry {
    Entry {
        routing: routing(rt, b"091000019"),
        account: short_text(rt, b"123456789"),
        kind: AccountKind::Checking,
        prenote: false,
        cents: EntryCents::new(2500).expect(rt, "an amount"),
        id: short_text(rt, b"E2"),
        name: short_text(rt, b"BOB RAY"),
        info: None,
    }
}

pub(super) fn submission(rt: &(impl Abort + Alloc<A = Global>)) -> SizedSubmission {
    SizedSubmission::of_one(
        rt.alloc(),
        reference(rt, b"PAY-2"),
        SecCode::Ppd,
        Direction::Debit,
        short_text(rt, b"DUES"),
        rule_day(rt, b"2025-01-10"),
        entry(rt),
    )
    .ok()
    .expect(rt, "memory")
}

/// The entry as a cut sends it with a sequence, to settle on a day.
pub(super) fn sent_entry(rt: &impl Abort, sequence: u32, settled: &[u8]) -> SentEntry {
    SentEntry {
        sequence,
        company: id(rt, b"MILL01"),
        reference: reference(rt, b"PAY-2"),
        order: 1,
        index: 1,
        settled: rule_day(rt, settled),
        sec: SecCode::Ppd,
        debit: true,
        entry: entry(rt),
    }
}

pub(super) fn return_row(rt: &impl Abort) -> ReturnRow {
    ReturnRow {
        code: ReturnCode::parse(b"R01").expect(rt, "a code"),
        day: day(rt, b"2025-01-14"),
        index: 1,
        info: [b' '; 44],
        late: false,
        reference: reference(rt, b"PAY-2"),
    }
}

pub(super) fn suspense_row(rt: &impl Abort) -> SuspenseRow {
    SuspenseRow {
        cents: cents(rt, 2500),
        code: *b"R01",
        day: day(rt, b"2025-01-14"),
        file: [b'K'; 21],
        item: 2,
        trace: *b"121042880000099",
        why: SuspenseReason::NoTrace,
    }
}

pub(super) fn taken_file(rt: &impl Abort) -> TakenFile {
    TakenFile {
        key: [b'K'; 21],
        digest: [9; 32],
        answer: Intake {
            changes: 0,
            day: day(rt, b"2025-01-14"),
            late: 0,
            returns: 1,
            suspense: 1,
        },
    }
}

pub(super) fn new_store(rt: &(impl Abort + Alloc<A = Global>)) -> ListStore {
    ListStore::new(rt.alloc(), identity(rt), OPERATOR_KEY)
}
