//! These are worked cases: files about a debit of 250.00 that settled on Friday, 2025-01-10.
use crate::samples::{cents, day, mill, short_text};
use ach_fields::{Cents, Ref, Routing};
use ach_files::{ItemFacts, ReturnOrChange};
use bank_days::Calendar;
use desk_accounts::{Account, Cause, Posting};
use desk_book::{ChangedRow, NamedEntry, ReturnedRow};
use desk_history::{
    ChangeRow, Intake, ReturnRow, SentEntry, SuspenseReason, SuspenseRow, TakenFile,
};
use desk_intake::{FoundItem, IntakePlan, plan_intake};
use desk_rules::{AccountKind, Entry, EntryCents, ReturnCode, RuleDay, SecCode};
use std::alloc::{AllocError, Global};
use std::process::Abort;

const KEY: [u8; 21] = [b'K'; 21];

const DIGEST: [u8; 32] = [9; 32];

fn pay(rt: &impl Abort) -> Ref {
    Ref::new(b"PAY-2").ok().expect(rt, "a reference")
}

// The debit that was sent.
fn sent_entry(rt: &impl Abort) -> SentEntry {
    SentEntry {
        sequence: 1,
        company: mill(rt),
        reference: pay(rt),
        order: 3,
        index: 2,
        settled: RuleDay::read(b"2025-01-10").expect(rt, "a day"),
        sec: SecCode::Ppd,
        debit: true,
        entry: Entry {
            routing: Routing::parse(b"091000019")
                .ok()
                .expect(rt, "a routing number"),
            account: short_text(rt, b"123456789"),
            kind: AccountKind::Checking,
            prenote: false,
            cents: EntryCents::new(25_000).expect(rt, "an amount"),
            id: short_text(rt, b"E2"),
            name: short_text(rt, b"BOB RAY"),
            info: None,
        },
    }
}

fn named_entry(rt: &impl Abort) -> Option<NamedEntry> {
    Some(NamedEntry {
        entry: sent_entry(rt),
        returned: false,
    })
}

// Its return, R01.
fn returned_item(rt: &impl Abort) -> ItemFacts {
    ItemFacts {
        sec_code: *b"PPD",
        transaction_code: 26,
        cents: cents(rt, 25_000),
        code: *b"R01",
        original_trace: *b"121042880000001",
        original_dfi: *b"09100001",
        return_or_change: ReturnOrChange::Return([b' '; 44]),
    }
}

// A change of it, C01.
fn changed_item(rt: &impl Abort) -> ItemFacts {
    ItemFacts {
        sec_code: *b"COR",
        transaction_code: 26,
        cents: cents(rt, 0),
        code: *b"C01",
        original_trace: *b"121042880000001",
        original_dfi: *b"09100001",
        return_or_change: ReturnOrChange::Change(*b"123456780                    "),
    }
}

fn plan_on(
    rt: &(impl Abort + Alloc<A = Global>),
    text: &[u8],
    found: &[FoundItem],
) -> Result<IntakePlan, AllocError> {
    let holidays = Calendar::empty(rt.alloc());
    plan_intake(rt.alloc(), KEY, DIGEST, found, day(rt, text), &holidays)
}

// The answer to the file: its returns, late ones, changes and items in suspense.
fn file(
    rt: &impl Abort,
    text: &[u8],
    returns: u64,
    late: u64,
    changes: u64,
    suspense: u64,
) -> TakenFile {
    TakenFile {
        key: KEY,
        digest: DIGEST,
        answer: Intake {
            changes,
            day: day(rt, text),
            late,
            returns,
            suspense,
        },
    }
}

fn returned_row(rt: &impl Abort, text: &[u8], late: bool) -> ReturnedRow {
    ReturnedRow {
        company: mill(rt),
        order: 3,
        row: ReturnRow {
            code: ReturnCode::parse(b"R01").expect(rt, "a code"),
            day: day(rt, text),
            index: 2,
            info: [b' '; 44],
            late,
            reference: pay(rt),
        },
    }
}

fn suspense_row(
    rt: &impl Abort,
    number: u64,
    amount: u64,
    code: [u8; 3],
    why: SuspenseReason,
) -> SuspenseRow {
    SuspenseRow {
        cents: cents(rt, amount),
        code,
        day: day(rt, b"2025-01-14"),
        file: KEY,
        item: number,
        trace: *b"121042880000001",
        why,
    }
}

fn line(
    rt: &impl Abort,
    text: &[u8],
    account: Account,
    amount: i64,
    reference: Option<Ref>,
    idx: u64,
) -> Posting {
    Posting {
        account,
        value_day: day(rt, text),
        cents: amount,
        cause: Cause::Return,
        reference,
        idx,
    }
}

// The debit goes back: the company's line and the operator's.
fn returned_pair(rt: &impl Abort, text: &[u8]) -> [Posting; 2] {
    let company = Account::Company(mill(rt));
    [
        line(rt, text, company, -25_000, Some(pay(rt)), 2),
        line(rt, text, Account::Operator, 25_000, Some(pay(rt)), 2),
    ]
}

// The postings of these cents in suspense.
fn suspended_pair(rt: &impl Abort, amount: Cents) -> [Posting; 2] {
    let text = b"2025-01-14";
    let amount = amount.get() as i64;
    [
        line(rt, text, Account::Suspense, -amount, None, 0),
        line(rt, text, Account::Operator, amount, None, 0),
    ]
}

fn coming_back(rt: &impl Abort) -> FoundItem {
    FoundItem {
        item: returned_item(rt),
        named: named_entry(rt),
    }
}

// The rows of a plan.
#[derive(Clone, Copy)]
struct Rows<'a> {
    returned: &'a [ReturnedRow],
    changed: &'a [ChangedRow],
    suspense: &'a [SuspenseRow],
    postings: &'a [Posting],
    file: TakenFile,
}

fn expect_rows(rt: &impl Abort, plan: &IntakePlan, wanted: &Rows<'_>) {
    assert!(rt; plan.returned.as_slice() == wanted.returned);
    assert!(rt; plan.changed.as_slice() == wanted.changed);
    assert!(rt; plan.suspense.as_slice() == wanted.suspense);
    assert!(rt; plan.postings.as_slice() == wanted.postings);
    assert!(rt; plan.file == wanted.file);
}

// A file of these items, taken on this day, has these rows and no others.
fn expect_plan(
    rt: &(impl Abort + Alloc<A = Global>),
    text: &[u8],
    found: &[FoundItem],
    wanted: &Rows<'_>,
) {
    let plan = plan_on(rt, text, found).ok().expect(rt, "a plan");
    expect_rows(rt, &plan, wanted);
}

// The return alone is taken on this day.
fn expect_returned(rt: &(impl Abort + Alloc<A = Global>), text: &[u8], late: bool) {
    let wanted = Rows {
        returned: &[returned_row(rt, text, late)],
        changed: &[],
        suspense: &[],
        postings: &returned_pair(rt, text),
        file: file(rt, text, 1, u64::from(late), 0, 0),
    };
    expect_plan(rt, text, &[coming_back(rt)], &wanted);
}

#[test]
fn a_debit_comes_back(rt: HostRuntime) {
    expect_returned(&rt, b"2025-01-14", false);
}

#[test]
fn a_return_after_two_banking_days_is_late(rt: HostRuntime) {
    expect_returned(&rt, b"2025-01-15", true);
}

#[test]
fn the_second_return_of_a_file_is_suspended(rt: HostRuntime) {
    let text = b"2025-01-14";
    let first = returned_pair(&rt, text);
    let second = suspended_pair(&rt, cents(&rt, 25_000));
    let why = SuspenseReason::AlreadyReturned;
    let wanted = Rows {
        returned: &[returned_row(&rt, text, false)],
        changed: &[],
        suspense: &[suspense_row(&rt, 2, 25_000, *b"R01", why)],
        postings: &[first[0], first[1], second[0], second[1]],
        file: file(&rt, text, 1, 0, 0, 1),
    };
    expect_plan(&rt, text, &[coming_back(&rt), coming_back(&rt)], &wanted);
}

// Checks that the only item of a file is in suspense with its money.
fn expect_suspended(
    rt: &(impl Abort + Alloc<A = Global>),
    item: ItemFacts,
    named: Option<NamedEntry>,
    why: SuspenseReason,
) {
    let text = b"2025-01-14";
    let amount = item.cents.get();
    let wanted = Rows {
        returned: &[],
        changed: &[],
        suspense: &[suspense_row(rt, 1, amount, item.code, why)],
        postings: &suspended_pair(rt, item.cents),
        file: file(rt, text, 0, 0, 0, 1),
    };
    expect_plan(rt, text, &[FoundItem { item, named }], &wanted);
}

#[test]
fn a_return_of_another_amount_is_suspended(rt: HostRuntime) {
    let mut item = returned_item(&rt);
    item.cents = cents(&rt, 24_999);
    expect_suspended(&rt, item, named_entry(&rt), SuspenseReason::Differs);
}

#[test]
fn a_code_outside_is_suspended(rt: HostRuntime) {
    let mut item = returned_item(&rt);
    let code = *b"R31";
    item.code = code;
    expect_suspended(&rt, item, named_entry(&rt), SuspenseReason::CodeOutside);
}

#[test]
fn an_unknown_trace_is_suspended(rt: HostRuntime) {
    expect_suspended(&rt, returned_item(&rt), None, SuspenseReason::NoTrace);
}

#[test]
fn an_entry_that_came_back_before_is_suspended(rt: HostRuntime) {
    let before = NamedEntry {
        entry: sent_entry(&rt),
        returned: true,
    };
    expect_suspended(
        &rt,
        returned_item(&rt),
        Some(before),
        SuspenseReason::AlreadyReturned,
    );
}

fn changed_row(rt: &impl Abort, text: &[u8]) -> ChangedRow {
    ChangedRow {
        company: mill(rt),
        order: 3,
        row: ChangeRow {
            code: *b"C01",
            day: day(rt, text),
            index: 2,
            reference: pay(rt),
            text: *b"123456780                    ",
        },
    }
}

fn change_item(rt: &impl Abort) -> FoundItem {
    FoundItem {
        item: changed_item(rt),
        named: named_entry(rt),
    }
}

#[test]
fn a_change_is_told(rt: HostRuntime) {
    let text = b"2025-01-14";
    let wanted = Rows {
        returned: &[returned_row(&rt, text, false)],
        changed: &[changed_row(&rt, text)],
        suspense: &[],
        postings: &returned_pair(&rt, text),
        file: file(&rt, text, 1, 0, 1, 0),
    };
    expect_plan(&rt, text, &[change_item(&rt), coming_back(&rt)], &wanted);
}
