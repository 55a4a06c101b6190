//! The fields of bodies are tried here, in their order.
use crate::samples::{day, rule_day};
use ach_fields::Id;
use desk_rules::{
    Company, CompanyDraft, Draft, DraftText, EntryDraft, EntryDrafts, Field, LimitDrafts, Limits,
    LimitsDraft, Optional, Refusal, Retry, RetryDraft, RuleFault, Submission, check_company_fields,
    check_day_field, check_fields, check_limits_fields, check_retry_fields, check_size, total,
};
use std::alloc::Global;
use std::process::Abort;

fn text(rt: &(impl Abort + Alloc<A = Global>), bytes: &[u8]) -> DraftText {
    DraftText::from_slice(rt.alloc(), bytes).expect(rt, "a text")
}

// An entry, with payment information or without.
fn entry(
    rt: &(impl Abort + Alloc<A = Global>),
    routing: &[u8],
    prenote: Optional<bool>,
    cents: u64,
    has_info: bool,
) -> EntryDraft {
    let info = if has_info {
        Optional::Given(text(rt, b"INVOICE 7"))
    } else {
        Optional::Absent
    };
    EntryDraft {
        routing: Some(text(rt, routing)),
        account: Some(text(rt, b"123456789")),
        kind: Some(text(rt, b"checking")),
        prenote,
        cents: Some(cents),
        id: Some(text(rt, b"")),
        name: Some(text(rt, b"ANN LEE")),
        info,
    }
}

// Returns entries with these cents, prenotes if there are none.
fn entries(rt: &(impl Abort + Alloc<A = Global>), amounts: &[u64]) -> Vec<Option<EntryDraft>> {
    let mut entries = Vec::new(rt.alloc());
    for amount in amounts {
        let prenote = Optional::Given(*amount == 0);
        let entry = entry(rt, b"091000019", prenote, *amount, true);
        entries.push(Some(entry)).expect(rt, "an entry");
    }
    entries
}

// Reads a body that has these fields, and otherwise valid ones.
fn read(
    rt: &(impl Abort + Alloc<A = Global>),
    reference: Option<DraftText>,
    direction: &[u8],
    description: &[u8],
    asked: &[u8],
    entries: Vec<Option<EntryDraft>>,
) -> Result<Submission, RuleFault> {
    let draft = Draft {
        reference,
        sec: Some(text(rt, b"PPD")),
        direction: Some(text(rt, direction)),
        description: Some(text(rt, description)),
        day: Some(text(rt, asked)),
        entries: Some(EntryDrafts::new(entries)),
    };
    check_fields(rt.alloc(), &draft)
}

pub(super) fn submission(
    rt: &(impl Abort + Alloc<A = Global>),
    asked: &[u8],
    direction: &[u8],
    amounts: &[u64],
) -> Submission {
    let reference = Some(text(rt, b"PAY-1"));
    let entries = entries(rt, amounts);
    read(rt, reference, direction, b"PAYROLL", asked, entries).expect(rt, "a submission")
}

fn bad(field: Field, index: u64) -> Refusal {
    Refusal::BadField { field, index }
}

#[test]
fn a_submission_is_read(rt: HostRuntime) {
    let submission = submission(&rt, b"2025-01-10", b"credit", &[150_000, 0]);
    assert!(rt; submission.reference.bytes() == b"PAY-1".as_slice());
    assert!(rt; submission.day == rule_day(&rt, b"2025-01-10"));
    let entries = submission.entries.as_slice();
    assert!(rt; entries.len() == 2);
    assert!(rt; entries[0].cents.get() == 150_000);
    assert!(rt; entries[0].info.is_some() && !entries[0].prenote && entries[1].prenote);
}

// Returns the refusal of a body with these fields, and otherwise valid ones.
fn refusal_of_body(
    rt: &(impl Abort + Alloc<A = Global>),
    reference: Option<DraftText>,
    description: &[u8],
    entries: Vec<Option<EntryDraft>>,
) -> Option<RuleFault> {
    read(
        rt,
        reference,
        b"credit",
        description,
        b"2025-01-10",
        entries,
    )
    .err()
}

#[test]
fn the_first_bad_field_is_named(rt: HostRuntime) {
    let entry = entry(&rt, b"091000018", Optional::Absent, 150_000, true);
    let bad_check = vec![in rt.alloc(); Some(entry), None].expect(&rt, "entries");
    let large = entries(&rt, &[1, 10_000_000_000]);
    let found = [
        refusal_of_body(&rt, Some(text(&rt, b"PAY-1")), b"PAYROLL", large),
        refusal_of_body(
            &rt,
            Some(text(&rt, b"PAY-1")),
            b"PAYROLL",
            entries(&rt, &[]),
        ),
        refusal_of_body(
            &rt,
            Some(text(&rt, b"PAY-1")),
            b"RETRY PYMT",
            entries(&rt, &[]),
        ),
        refusal_of_body(&rt, None, b"RETRY PYMT", entries(&rt, &[])),
        refusal_of_body(&rt, Some(text(&rt, b"PAY-1")), b"PAYROLL", bad_check),
    ];
    let wanted = [
        bad(Field::Cents, 2),
        bad(Field::Entries, 0),
        bad(Field::Description, 0),
        bad(Field::Reference, 0),
        bad(Field::Routing, 1),
    ];
    assert!(rt; found == wanted.map(|bad| Some(RuleFault::Refused(bad))));
}

#[test]
fn a_submission_has_1000_entries_and_twelve_digits_of_cents(rt: HostRuntime) {
    // How many entries of how many cents, the cents of one more, their total, and the answer.
    let rows = [
        (100, 9_999_999_999, 99, 999_999_999_999, Ok(())),
        (
            100,
            9_999_999_999,
            100,
            1_000_000_000_000,
            Err(Refusal::TotalTooLarge),
        ),
        (999, 1, 1, 1_000, Ok(())),
        (1_000, 9_999_999_999, 1, 0, Err(Refusal::TooManyEntries)),
    ];
    for (count, cents, last, sum, wanted) in rows {
        let mut amounts = vec![in rt.alloc(); cents; count].expect(&rt, "amounts");
        amounts.push(last).expect(&rt, "an amount");
        let submission = submission(&rt, b"2025-01-10", b"debit", &amounts);
        assert!(rt; check_size(&submission) == wanted, "{count} of {cents}");
        let entries = submission.entries.as_slice();
        if entries.len() <= 1_000 {
            assert!(rt; total(entries) == sum);
        }
    }
}

// A submission of one entry.
fn one(
    rt: &(impl Abort + Alloc<A = Global>),
    prenote: Optional<bool>,
    cents: u64,
    has_info: bool,
) -> Submission {
    let entry = entry(rt, b"091000019", prenote, cents, has_info);
    let entries = vec![in rt.alloc(); Some(entry)].expect(rt, "entries");
    let reference = Some(text(rt, b"PAY-1"));
    read(rt, reference, b"credit", b"PAYROLL", b"2025-01-10", entries).expect(rt, "a submission")
}

#[test]
fn what_is_left_out_counts_as_its_default(rt: HostRuntime) {
    let first = one(&rt, Optional::Given(false), 150_000, true);
    // The prenote, the cents, whether there is information, and whether it is the same.
    let rows = [
        (Optional::Given(false), 150_000, true, true),
        (Optional::Absent, 150_000, true, true),
        (Optional::Given(false), 150_000, false, false),
        (Optional::Given(false), 150_001, true, false),
    ];
    for (prenote, cents, has_info, wanted) in rows {
        let other = one(&rt, prenote, cents, has_info);
        assert!(rt; first.is_same(&other) == wanted, "{cents}, {has_info}");
    }
}

fn retry(
    rt: &(impl Abort + Alloc<A = Global>),
    authorized: Optional<DraftText>,
) -> Result<Retry, Refusal> {
    let draft = RetryDraft {
        reference: Some(text(rt, b"RT-1")),
        of: Some(text(rt, b"PAY-2")),
        index: Some(1),
        day: Some(text(rt, b"2025-01-22")),
        authorized,
    };
    check_retry_fields(&draft)
}

// A retry that was authorized on a day.
fn authorized_retry(rt: &(impl Abort + Alloc<A = Global>), bytes: &[u8]) -> Retry {
    retry(rt, Optional::Given(text(rt, bytes))).expect(rt, "a retry")
}

#[test]
fn a_retry_is_read(rt: HostRuntime) {
    let first = authorized_retry(&rt, b"2025-01-14");
    assert!(rt; first.of.bytes() == b"PAY-2".as_slice());
    assert!(rt; first.index == 1);
    assert!(rt; first.authorized == Some(day(&rt, b"2025-01-14")));
    assert!(rt; first.is_same(&authorized_retry(&rt, b"2025-01-14")));
    assert!(rt; !first.is_same(&authorized_retry(&rt, b"2025-01-15")));
    let unauthorized = retry(&rt, Optional::Absent).expect(&rt, "a retry");
    assert!(rt; unauthorized.authorized.is_none());
    let refused = retry(&rt, Optional::Wrong).err();
    assert!(rt; refused == Some(bad(Field::Authorized, 0)));
}

fn limits(entry: u64) -> LimitDrafts {
    LimitDrafts {
        entry: Some(entry),
        credit: Some(999_999_999_999_999),
        debit: Some(0),
    }
}

fn company(rt: &(impl Abort + Alloc<A = Global>)) -> Company {
    let draft = CompanyDraft {
        id: Some(text(rt, b"MILL01")),
        name: Some(text(rt, b"MILL STREET")),
        key: Some(text(rt, b"mill-key")),
        limits: limits(9_999_999_999),
        digest: [7; 32],
    };
    check_company_fields(&draft).expect(rt, "a company")
}

fn new_limits(rt: &(impl Abort + Alloc<A = Global>), entry: u64) -> Result<(Id, Limits), Refusal> {
    let draft = LimitsDraft {
        id: Some(text(rt, b"MILL01")),
        limits: limits(entry),
    };
    check_limits_fields(&draft)
}

#[test]
fn companies_and_limits_are_read(rt: HostRuntime) {
    let company = company(&rt);
    assert!(rt; company.id.bytes() == b"MILL01".as_slice());
    assert!(rt; company.digest == [7; 32]);
    assert!(rt; company.limits.credit == 999_999_999_999_999);
    let (id, read) = new_limits(&rt, 9_999_999_999).expect(&rt, "limits");
    assert!(rt; id == company.id);
    assert!(rt; read == company.limits);
    let refused = new_limits(&rt, 10_000_000_000).err();
    assert!(rt; refused == Some(bad(Field::EntryLimit, 0)));
}

#[test]
fn a_desk_day_ends_with_2096(rt: HostRuntime) {
    let last = check_day_field(&Some(text(&rt, b"2096-12-31")));
    assert!(rt; last == Ok(rule_day(&rt, b"2096-12-31")));
    assert!(rt; check_day_field(&Some(text(&rt, b"2097-01-01"))).is_err());
}
