//! These scripts try companies, days, holidays, limits and submissions.
use super::calls::COMPANY_DIGEST;
use super::script::{
    BAKE, DAY, HOLIDAYS, MILL, OPERATOR_DIGEST, PAY_1, PAY_2_SECOND, Script, follow, holds,
    new_lists,
};
use ach_fields::Id;
use desk_core::{Caller, Desk};
use std::process::Abort;
use std::test::Fail;

// A repeated reference is answered as it was, or refused with other content.
const SENT_AGAIN: Script = &[
    MILL,
    HOLIDAYS,
    DAY,
    PAY_1,
    PAY_1,
    (
        "MILL01 submit PAY-1 credit 2025-01-10 091000019 150001",
        "RefReused",
    ),
    (
        "MILL01 look PAY-1",
        "PAY-1 order 1 2025-01-10; 1 150000 held",
    ),
    PAY_2_SECOND,
];

#[test]
fn a_submission_is_sent_again(rt: HostRuntime) {
    holds(&rt, SENT_AGAIN);
}

// One more entry than one statement writes.
const SEVENTEEN_ENTRIES: Script = &[
    MILL,
    DAY,
    (
        "MILL01 submit PAY-1 credit 2025-01-10 091000019 \
                 101 102 103 104 105 106 107 108 109 110 \
                 111 112 113 114 115 116 117",
        "PAY-1 order 1 entries 17 cents 1853",
    ),
    (
        "MILL01 look PAY-1",
        "PAY-1 order 1 2025-01-10\
                 ; 1 101 held; 2 102 held; 3 103 held; 4 104 held; 5 105 held\
                 ; 6 106 held; 7 107 held; 8 108 held; 9 109 held; 10 110 held\
                 ; 11 111 held; 12 112 held; 13 113 held; 14 114 held; 15 115 held\
                 ; 16 116 held; 17 117 held",
    ),
];

#[test]
fn seventeen_entries_are_one_submission(rt: HostRuntime) {
    holds(&rt, SEVENTEEN_ENTRIES);
}

// References and order numbers are each company's own.
const ONE_REFERENCE: Script = &[
    MILL,
    BAKE,
    DAY,
    PAY_1,
    (
        "BAKE01 submit PAY-1 credit 2025-01-10 091000019 150001",
        "PAY-1 order 1 entries 1 cents 150001",
    ),
    (
        "MILL01 look PAY-1",
        "PAY-1 order 1 2025-01-10; 1 150000 held",
    ),
    (
        "BAKE01 look PAY-1",
        "PAY-1 order 1 2025-01-10; 1 150001 held",
    ),
    ("BAKE01 look PAY-2", "none"),
    (
        "BAKE01 exposure",
        "credit 150001 of 999999999999999, debit 0 of 999999999999999",
    ),
];

#[test]
fn two_companies_use_one_reference(rt: HostRuntime) {
    holds(&rt, ONE_REFERENCE);
}

// Held entries count against the limit; a refused reference stays free.
const LIMIT_REACHED: Script = &[
    MILL,
    DAY,
    (
        "desk limits MILL01 9999999999 200000 999999999999999",
        "MILL01",
    ),
    PAY_1,
    (
        "MILL01 submit PAY-3 credit 2025-01-10 091000019 50001",
        "CreditLimit",
    ),
    ("MILL01 look PAY-3", "none"),
    (
        "MILL01 submit PAY-3 credit 2025-01-10 091000019 50000",
        "PAY-3 order 2 entries 1 cents 50000",
    ),
    (
        "MILL01 exposure",
        "credit 200000 of 200000, debit 0 of 999999999999999",
    ),
];

#[test]
fn a_limit_is_reached(rt: HostRuntime) {
    holds(&rt, LIMIT_REACHED);
}

// From the day after the desk day to the sixtieth.
const DAYS_ASKED_FOR: Script = &[
    MILL,
    HOLIDAYS,
    DAY,
    ("MILL01 submit A credit 2025-01-08 091000019 1", "DateRange"),
    ("MILL01 submit A credit 2025-03-10 091000019 1", "DateRange"),
    (
        "MILL01 submit A credit 2025-01-09 091000019 1",
        "A order 1 entries 1 cents 1",
    ),
    (
        "MILL01 submit B credit 2025-03-09 091000019 1",
        "B order 2 entries 1 cents 1",
    ),
];

#[test]
fn days_that_may_be_asked_for(rt: HostRuntime) {
    holds(&rt, DAYS_ASKED_FOR);
}

// Before the first day nothing is taken, whatever the content; an unknown company is refused before
// that.
const BEFORE_A_DAY: Script = &[
    (
        "MILL01 submit PAY-1 credit 2025-01-10 091000019 150000",
        "NoCompany",
    ),
    MILL,
    ("desk company MILL01 0 0 0", "CompanyExists"),
    ("desk limits BAKE01 0 0 0", "NoCompany"),
    (
        "MILL01 submit PAY-1 credit 2025-01-10 091000019 150000",
        "NoDay",
    ),
    (
        "MILL01 submit PAY-1 credit 2025-01-10 091000018 150000",
        "NoDay",
    ),
    ("MILL01 exposure", "NoDay"),
    HOLIDAYS,
    ("desk day 2025-01-18", "NotBankingDay"),
    ("desk day 2025-01-20", "NotBankingDay"),
    DAY,
    ("desk day 2025-01-08", "DayNotLater"),
    (
        "MILL01 submit PAY-1 credit 2025-01-10 091000018 150000",
        "BadField",
    ),
    PAY_1,
];

#[test]
fn no_day_was_set(rt: HostRuntime) {
    holds(&rt, BEFORE_A_DAY);
}

/// This is done before anybody calls.
const FIRST: Script = &[MILL];

// Callers with a key, and whether they are let in.
const CALLERS: &[(&str, [u8; 32], bool)] = &[
    ("desk", OPERATOR_DIGEST, true),
    ("desk", COMPANY_DIGEST, false),
    ("MILL01", COMPANY_DIGEST, true),
    ("MILL01", OPERATOR_DIGEST, false),
    ("BAKE01", COMPANY_DIGEST, false),
];

fn caller(rt: &impl Abort, name: &str) -> Caller {
    match name {
        "desk" => Caller::Operator,
        company => Caller::Company(Id::new(company.as_bytes()).ok().expect(rt, "a company")),
    }
}

// The operator and registered companies are known by their own keys.
#[test]
fn who_may_call(rt: HostRuntime) -> Result<(), Fail> {
    let mut desk = Desk::new(new_lists(&rt));
    assert!(rt; !follow(&rt, &mut desk, FIRST));
    for (name, digest, may) in CALLERS {
        let allowed = desk.allow(rt.alloc(), caller(&rt, name), *digest)?;
        assert!(rt; allowed == *may, "{name}: {may}");
    }
    Ok(())
}
