//! The sample bank, its company, the company's submissions, and their returns.
use ach_fields::{Id, Routing};
use desk_core::{Call, Identity, ListOf, PartyName};
use desk_rules::{CompanyDraft, Draft, DraftText, EntryDraft, EntryDrafts, LimitDrafts, Optional};
use std::alloc::Global;
use std::process::Abort;

/// This is the digest of the operator's key.
pub(crate) const OPERATOR_DIGEST: [u8; 32] = [7; 32];

// The return of the second entry that the desk sends.
pub(crate) const RETURN: &str = concat!(
    "101 121042882 0610001462501140930A094101OUR BANK               ACH OPERATOR                   \n",
    "5225MILL STREET                         MILL01    PPDDUES            2501140141091000010000001\n",
    "626121042882123456789        0000002500E2             BOB RAY                 1091000010000007\n",
    "799R01121042880000002      09100001                                            091000010000007\n",
    "82250000020012104288000000002500000000000000MILL01                             091000010000001\n",
    "9000001000001000000020012104288000000002500000000000000                                       \n",
    "9999999999999999999999999999999999999999999999999999999999999999999999999999999999999999999999\n",
    "9999999999999999999999999999999999999999999999999999999999999999999999999999999999999999999999\n",
    "9999999999999999999999999999999999999999999999999999999999999999999999999999999999999999999999\n",
    "9999999999999999999999999999999999999999999999999999999999999999999999999999999999999999999999\n",
);

fn routing(rt: &impl Abort, text: &[u8]) -> Routing {
    Routing::parse(text).ok().expect(rt, "a routing number")
}

fn name(rt: &impl Abort, text: &[u8]) -> PartyName {
    PartyName::new(text).ok().expect(rt, "a name")
}

pub(crate) fn identity(rt: &impl Abort) -> Identity {
    Identity {
        odfi: routing(rt, b"121042882"),
        odfi_name: name(rt, b"OUR BANK"),
        destination: routing(rt, b"061000146"),
        destination_name: name(rt, b"ACH OPERATOR"),
    }
}

/// Gives the company's name in calls.
pub(super) fn mill(rt: &impl Abort) -> Id {
    Id::new(b"MILL01").ok().expect(rt, "a company")
}

fn text(rt: &(impl Abort + Alloc<A = Global>), text: &str) -> Option<DraftText> {
    let text = DraftText::from_slice(rt.alloc(), text.as_bytes())
        .ok()
        .expect(rt, "memory");
    Some(text)
}

fn bytes(rt: &(impl Abort + Alloc<A = Global>), text: &str) -> ListOf<u8> {
    let bytes = Vec::from_slice(rt.alloc(), text.as_bytes())
        .ok()
        .expect(rt, "memory");
    ListOf::new(bytes)
}

pub(super) fn company(rt: &(impl Abort + Alloc<A = Global>)) -> Call {
    Call::PutCompany(CompanyDraft {
        id: text(rt, "MILL01"),
        name: text(rt, "MILL STREET"),
        key: text(rt, "mill-street-key"),
        limits: LimitDrafts {
            entry: Some(9_999_999_999),
            credit: Some(999_999_999_999_999),
            debit: Some(999_999_999_999_999),
        },
        digest: [1; 32],
    })
}

pub(super) fn holidays(rt: &(impl Abort + Alloc<A = Global>)) -> Call {
    Call::SetHolidays(bytes(rt, "2025-01-20\n"))
}

pub(super) fn day(rt: &(impl Abort + Alloc<A = Global>), day: &str) -> Call {
    Call::SetDay(text(rt, day))
}

// One entry in a draft of a submission for 2025-01-10.
fn submission(
    rt: &(impl Abort + Alloc<A = Global>),
    reference: &str,
    direction: &str,
    entry: EntryDraft,
) -> Call {
    let mut entries = Vec::new(rt.alloc());
    entries.push(Some(entry)).ok().expect(rt, "memory");
    Call::Submit(
        mill(rt),
        Draft {
            reference: text(rt, reference),
            sec: text(rt, "PPD"),
            direction: text(rt, direction),
            description: text(rt, "DUES"),
            day: text(rt, "2025-01-10"),
            entries: Some(EntryDrafts::new(entries)),
        },
    )
}

fn entry(rt: &(impl Abort + Alloc<A = Global>), id: &str, name: &str, cents: u64) -> EntryDraft {
    EntryDraft {
        routing: text(rt, "091000019"),
        account: text(rt, "123456789"),
        kind: text(rt, "checking"),
        prenote: Optional::Absent,
        cents: Some(cents),
        id: text(rt, id),
        name: text(rt, name),
        info: Optional::Absent,
    }
}

pub(super) fn credit(rt: &(impl Abort + Alloc<A = Global>)) -> Call {
    submission(rt, "PAY-1", "credit", entry(rt, "E1", "ANN LEE", 150_000))
}

pub(super) fn debit(rt: &(impl Abort + Alloc<A = Global>)) -> Call {
    submission(rt, "PAY-2", "debit", entry(rt, "E2", "BOB RAY", 2_500))
}

pub(super) fn file_of_returns(rt: &(impl Abort + Alloc<A = Global>)) -> Call {
    Call::TakeFile(bytes(rt, RETURN))
}
