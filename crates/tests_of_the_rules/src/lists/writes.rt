//! Writes to a store, each in few words.
use super::samples::{company, return_row, sent_entry, submission, suspense_row, taken_file};
use crate::samples::{cents, day, id, reference, rule_day};
use bank_days::Calendar;
use desk_accounts::{Posting, post_cut, post_return, post_suspense};
use desk_book::{FileRow, ReturnedRow, SentRow};
use desk_history::{FilePlace, ListOf, SentEntry};
use desk_rules::Limits;
use desk_store::{CutRows, IntakeRows, Store, StoreFault};
use std::alloc::Global;
use std::process::Abort;

/// A write to a store. Companies and days are given as texts.
#[derive(Clone, Copy)]
pub(super) enum Write {
    Day(&'static [u8]),
    Holidays(&'static [u8]),
    Company(&'static [u8]),
    Limits(&'static [u8], Limits),
    /// A company's first submission.
    Submission(&'static [u8]),
    /// The submission of `MILL01` is sent.
    Cut,
    /// A cut sends these entries alone, with their sequences, to settle on these days.
    Entries(&'static [(u32, &'static [u8])]),
    /// A cut posts a company's amount alone, on a day.
    Amount(&'static [u8], u64, &'static [u8]),
    /// The entry of `MILL01` is returned, next to an item that nobody sent.
    Intake,
}

fn calendar(rt: &(impl Abort + Alloc<A = Global>), list: &[u8]) -> Calendar {
    Calendar::read(rt.alloc(), list).ok().expect(rt, "a list")
}

fn cut_lines(rt: &impl Abort, company: &[u8], amount: u64, value_day: &[u8]) -> [Posting; 2] {
    post_cut(
        id(rt, company),
        true,
        cents(rt, amount),
        day(rt, value_day),
        reference(rt, b"PAY-2"),
    )
    .expect(rt, "a pair")
}

// The return of the entry of `MILL01`, and the lines of what nobody sent.
fn intake_lines(rt: &impl Abort) -> [Posting; 4] {
    let mill = id(rt, b"MILL01");
    let taken = day(rt, b"2025-01-14");
    let amount = cents(rt, 2500);
    let [line, opposite] = post_return(
        mill,
        true,
        amount,
        taken,
        reference(rt, b"PAY-2"),
        1,
    ).expect(rt, "a pair");
    let [held, held_opposite] = post_suspense(true, amount, taken).expect(rt, "a pair");
    [line, opposite, held, held_opposite]
}

fn sent_row(rt: &impl Abort) -> SentRow {
    SentRow {
        company: id(rt, b"MILL01"),
        order: 1,
        settled: rule_day(rt, b"2025-01-10"),
        printed: FilePlace {
            day: day(rt, b"2025-01-09"),
            modifier: b'A',
            batch: 1,
        },
    }
}

fn file_row(rt: &(impl Abort + Alloc<A = Global>)) -> FileRow {
    let text = Vec::from_array(rt.alloc(), *b"101")
        .ok()
        .expect(rt, "memory");
    FileRow {
        day: day(rt, b"2025-01-09"),
        modifier: b'A',
        text: ListOf::new(text),
    }
}

fn write_cut<S: Store>(
    rt: &(impl Abort + Alloc<A = Global>),
    store: &mut S,
) -> Result<(), StoreFault> {
    let cut = CutRows {
        before: store.sent_count(rt.alloc())?,
        sent: &[sent_row(rt)],
        lapsed: &[],
        entries: &[sent_entry(rt, 1, b"2025-01-10")],
        postings: &cut_lines(rt, b"MILL01", 2500, b"2025-01-10"),
        files: &[file_row(rt)],
    };
    store.commit_cut(rt.alloc(), &cut)
}

fn sent_entries(rt: &(impl Abort + Alloc<A = Global>), entries: &[(u32, &[u8])]) -> Vec<SentEntry> {
    let mut sent = Vec::new(rt.alloc());
    for (sequence, settled) in entries {
        sent.push(sent_entry(rt, *sequence, settled))
            .ok()
            .expect(rt, "memory");
    }
    sent
}

fn write_intake<S: Store>(
    rt: &(impl Abort + Alloc<A = Global>),
    store: &mut S,
) -> Result<(), StoreFault> {
    let intake = IntakeRows {
        returned: &[ReturnedRow {
            company: id(rt, b"MILL01"),
            order: 1,
            row: return_row(rt),
        }],
        changed: &[],
        suspense: &[suspense_row(rt)],
        postings: &intake_lines(rt),
        file: taken_file(rt),
    };
    store.commit_intake(rt.alloc(), &intake)
}

// A cut of these entries and lines alone.
fn write_rows<S: Store>(
    rt: &(impl Abort + Alloc<A = Global>),
    store: &mut S,
    entries: &[SentEntry],
    postings: &[Posting],
) -> Result<(), StoreFault> {
    let cut = CutRows {
        before: store.sent_count(rt.alloc())?,
        sent: &[],
        lapsed: &[],
        entries,
        postings,
        files: &[],
    };
    store.commit_cut(rt.alloc(), &cut)
}

/// Writes this.
pub(super) fn carry_out<S: Store>(
    rt: &(impl Abort + Alloc<A = Global>),
    store: &mut S,
    write: Write,
) -> Result<(), StoreFault> {
    let alloc = rt.alloc();
    match write {
        Write::Day(day) => store.set_day(alloc, rule_day(rt, day)),
        Write::Holidays(list) => store.set_holidays(alloc, calendar(rt, list)),
        Write::Company(name) => store.put_company(alloc, company(rt, name)),
        Write::Limits(name, limits) => store.put_limits(alloc, id(rt, name), limits),
        Write::Submission(name) => {
            store.add_submission(alloc, id(rt, name), 1, &submission(rt), None)
        }
        Write::Cut => write_cut(rt, store),
        Write::Entries(entries) => write_rows(rt, store, &sent_entries(rt, entries), &[]),
        Write::Amount(name, amount, day) => {
            write_rows(rt, store, &[], &cut_lines(rt, name, amount, day))
        }
        Write::Intake => write_intake(rt, store),
    }
}
