//! A store has sent entries here, before a script begins.
use ach_fields::{Id, Ref, Routing, ShortText};
use bank_days::Day;
use desk_core::{CutRows, FilePlace, SentEntry, SentRow, Store};
use desk_rules::{
    AccountKind, Company, Direction, Entries, Entry, EntryCents, Limits, RuleDay, SecCode,
    SizedSubmission, Submission,
};
use std::alloc::Global;
use std::process::Abort;

fn company(rt: &impl Abort) -> Id {
    Id::new(b"BAKE01").ok().expect(rt, "a company")
}

fn reference(rt: &impl Abort) -> Ref {
    Ref::new(b"OLD").ok().expect(rt, "a reference")
}

fn settlement_day(rt: &impl Abort) -> RuleDay {
    RuleDay::read(b"2025-03-03").expect(rt, "a day")
}

fn short_text<const N: usize>(rt: &impl Abort, text: &[u8]) -> ShortText<N> {
    ShortText::new(text).ok().expect(rt, "a text")
}

// An entry of 1.00.
fn entry(rt: &impl Abort) -> Entry {
    Entry {
        routing: Routing::parse(b"091000019")
            .ok()
            .expect(rt, "a routing number"),
        account: short_text(rt, b"123456789"),
        kind: AccountKind::Checking,
        prenote: false,
        cents: EntryCents::new(100).expect(rt, "an amount"),
        id: short_text(rt, b"E1"),
        name: short_text(rt, b"ANN LEE"),
        info: None,
    }
}

// Adds a company with a submission of this many entries.
fn put_submission<S: Store>(rt: &(impl Abort + Alloc<A = Global>), store: &mut S, count: usize) {
    let registered = Company {
        id: company(rt),
        name: short_text(rt, b"BAKERY"),
        digest: [1; 32],
        limits: Limits {
            entry: 100,
            credit: 100,
            debit: 1_000,
        },
    };
    store
        .put_company(rt.alloc(), registered)
        .ok()
        .expect(rt, "a company");
    let mut entries = Entries::new(rt.alloc(), entry(rt))
        .ok()
        .expect(rt, "an entry");
    for _ in 1..count {
        entries.push(entry(rt)).ok().expect(rt, "an entry");
    }
    let submission = Submission {
        reference: reference(rt),
        sec: SecCode::Ppd,
        direction: Direction::Debit,
        description: short_text(rt, b"OLD"),
        day: settlement_day(rt),
        entries,
    };
    let content = SizedSubmission::new(submission).ok().expect(rt, "a size");
    store
        .add_submission(rt.alloc(), company(rt), 1, &content, None)
        .ok()
        .expect(rt, "a submission");
}

fn sent_row(rt: &impl Abort) -> SentRow {
    SentRow {
        company: company(rt),
        order: 1,
        settled: settlement_day(rt),
        printed: FilePlace {
            day: Day::read(b"2025-02-28").expect(rt, "a day"),
            modifier: b'A',
            batch: 1,
        },
    }
}

fn sent_entry(rt: &impl Abort, index: u64, sequence: u32) -> SentEntry {
    SentEntry {
        sequence,
        company: company(rt),
        reference: reference(rt),
        order: 1,
        index,
        settled: settlement_day(rt),
        sec: SecCode::Ppd,
        debit: true,
        entry: entry(rt),
    }
}

/// Sends a submission from a new store of the sample bank. Its entries of 1.00 have these sequences, and
/// settled on 2025-03-03.
pub(super) fn put_old_cut<S: Store>(
    rt: &(impl Abort + Alloc<A = Global>),
    store: &mut S,
    sequences: &[u32],
) {
    put_submission(rt, store, sequences.len());
    let mut entries = Vec::new(rt.alloc());
    for (before, sequence) in sequences.iter().enumerate() {
        entries
            .push(sent_entry(rt, before as u64 + 1, *sequence))
            .ok()
            .expect(rt, "an entry");
    }
    let rows = CutRows {
        before: 0,
        sent: &[sent_row(rt)],
        lapsed: &[],
        entries: &entries,
        postings: &[],
        files: &[],
    };
    store.commit_cut(rt.alloc(), &rows).ok().expect(rt, "a cut");
}
