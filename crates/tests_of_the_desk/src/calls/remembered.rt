//! Stores that remember: they ask the inner store each question once, and the next question after a write
//! sees the new value.
use super::calls::COMPANY_DIGEST;
use super::script::{
    BAKE, DAY, HOLIDAYS, MILL, NINTH, PAY_1, Script, follow, holds, holds_remembering, new_lists,
};
use ach_fields::Id;
use desk_core::{Caller, Desk, FaultyStore, ListStore, Store};
use remembering_store::Remembering;
use std::alloc::Global;
use std::process::Abort;

/// A question to a store.
#[derive(Clone, Copy, Debug)]
enum Question {
    Identity,
    OperatorKey,
    CompanyKey,
    UnknownKey,
    Company,
    UnknownCompany,
    Day,
    Holidays,
    Submissions,
}

const QUESTIONS: &[Question] = &[
    Question::Identity,
    Question::OperatorKey,
    Question::CompanyKey,
    Question::UnknownKey,
    Question::Company,
    Question::UnknownCompany,
    Question::Day,
    Question::Holidays,
    Question::Submissions,
];

fn id(rt: &impl Abort, name: &[u8]) -> Id {
    Id::new(name).ok().expect(rt, "a company")
}

// Asks a question. Reports whether the store answers it.
fn is_answered(
    rt: &(impl Abort + Alloc<A = Global>),
    store: &mut Remembering<FaultyStore>,
    question: Question,
) -> bool {
    let alloc = rt.alloc();
    let mill = id(rt, b"MILL01");
    let unknown = id(rt, b"NOBODY");
    match question {
        Question::Identity => store.identity(alloc).is_ok(),
        Question::OperatorKey => store.key_of(alloc, Caller::Operator).is_ok(),
        Question::CompanyKey => store.key_of(alloc, Caller::Company(mill)).is_ok(),
        Question::UnknownKey => store.key_of(alloc, Caller::Company(unknown)).is_ok(),
        Question::Company => store.company(alloc, mill).is_ok(),
        Question::UnknownCompany => store.company(alloc, unknown).is_ok(),
        Question::Day => store.day(alloc).is_ok(),
        Question::Holidays => store.calendar(alloc).is_ok(),
        Question::Submissions => store.submission_count(alloc, mill).is_ok(),
    }
}

const SET_UP: Script = &[MILL, HOLIDAYS, DAY];

// The first question is the first call of the store inside. The same question makes no second one: that
// is the call that is refused.
#[test]
fn a_question_is_asked_once(rt: HostRuntime) {
    for question in QUESTIONS {
        let mut desk = Desk::new(new_lists(&rt));
        assert!(&rt; !follow(&rt, &mut desk, SET_UP));
        let lists = FaultyStore::new(desk.into_store(), 2);
        let mut store = Remembering::new(rt.alloc(), lists);
        assert!(&rt; is_answered(&rt, &mut store, *question), "{question:?}");
        assert!(&rt; is_answered(&rt, &mut store, *question), "{question:?}");
        assert!(&rt; store.suspense_count(rt.alloc()).is_err(), "{question:?}");
    }
}

// A company is registered after the store answered that it does not exist, and gets new limits.
const COMPANIES: Script = &[
    DAY,
    ("BAKE01 submit B credit 2025-01-10 091000019 1", "NoCompany"),
    MILL,
    ("BAKE01 submit B credit 2025-01-10 091000019 1", "NoCompany"),
    BAKE,
    (
        "BAKE01 submit B credit 2025-01-10 091000019 1",
        "B order 1 entries 1 cents 1",
    ),
    PAY_1,
    (
        "desk limits MILL01 9999999999 200000 999999999999999",
        "MILL01",
    ),
    (
        "MILL01 submit PAY-3 credit 2025-01-10 091000019 50001",
        "CreditLimit",
    ),
    (
        "MILL01 exposure",
        "credit 150000 of 200000, debit 0 of 999999999999999",
    ),
    (
        "BAKE01 exposure",
        "credit 1 of 999999999999999, debit 0 of 999999999999999",
    ),
];

#[test]
fn companies_and_limits_change(rt: HostRuntime) {
    holds(&rt, COMPANIES);
    holds_remembering(&rt, COMPANIES);
}

// A desk day and a holiday list replace others that were read. A submission may be asked for up to 60
// days after the desk day.
const DAYS: Script = &[
    MILL,
    ("MILL01 exposure", "NoDay"),
    DAY,
    ("MILL01 submit A credit 2025-03-10 091000019 1", "DateRange"),
    NINTH,
    (
        "MILL01 submit A credit 2025-03-10 091000019 1",
        "A order 1 entries 1 cents 1",
    ),
    HOLIDAYS,
    ("desk day 2025-01-20", "NotBankingDay"),
    ("desk holidays 2025-01-21", "holidays 1"),
    ("desk day 2025-01-21", "NotBankingDay"),
    ("desk day 2025-01-20", "2025-01-20"),
];

#[test]
fn days_and_holidays_change(rt: HostRuntime) {
    holds(&rt, DAYS);
    holds_remembering(&rt, DAYS);
}

// Reports whether the desk lets the company in with its key.
fn is_let_in(
    rt: &(impl Abort + Alloc<A = Global>),
    desk: &mut Desk<Remembering<ListStore>>,
) -> bool {
    let bakery = Caller::Company(id(rt, b"BAKE01"));
    desk.allow(rt.alloc(), bakery, COMPANY_DIGEST)
        .ok()
        .expect(rt, "an answer")
}

const REGISTERED: Script = &[BAKE];

#[test]
fn an_unknown_company_is_let_in_once_registered(rt: HostRuntime) {
    let mut desk = Desk::new(Remembering::new(rt.alloc(), new_lists(&rt)));
    assert!(rt; !is_let_in(&rt, &mut desk));
    assert!(rt; !follow(&rt, &mut desk, REGISTERED));
    assert!(rt; is_let_in(&rt, &mut desk));
}
