//! These scripts try statements, settlement, exposures and retries.
use super::script::{
    CUT_9, DAY, FOURTEENTH, HOLIDAYS, MILL, NINTH, ONE_RETURN, PAY_1, PAY_2, PAY_2_SECOND, Script,
    holds,
};

// The lines of a company, and the operator's account opposite to them.
const ACCOUNTS: Script = &[
    MILL,
    HOLIDAYS,
    DAY,
    PAY_1,
    PAY_2_SECOND,
    ("desk cut", "2025-01-08 sent 1 in [A], lapsed 0"),
    NINTH,
    CUT_9,
    FOURTEENTH,
    ("desk items A PPD R01/2/2500/26", ONE_RETURN),
    (
        "MILL01 statement",
        "balance -150000; -150000 2025-01-10 0 PAY-1; 2500 2025-01-10 0 PAY-2; -2500 2025-01-14 1 PAY-2",
    ),
    (
        "desk settlement",
        "balance 150000; 147500 2025-01-10; 2500 2025-01-14",
    ),
];

#[test]
fn a_statement_and_the_settlement(rt: HostRuntime) {
    holds(&rt, ACCOUNTS);
}

// A prenote moves no money.
const PRENOTE: Script = &[
    MILL,
    DAY,
    (
        "MILL01 submit P credit 2025-01-10 091000019 0",
        "P order 1 entries 1 cents 0",
    ),
    ("desk cut", "2025-01-08 sent 1 in [A], lapsed 0"),
    ("MILL01 statement", "balance 0"),
    ("desk settlement", "balance 0"),
];

#[test]
fn a_prenote_has_no_line(rt: HostRuntime) {
    holds(&rt, PRENOTE);
}

// Credits count through the day on which they settle, debits for two banking days more.
const EXPOSURES: Script = &[
    MILL,
    HOLIDAYS,
    DAY,
    PAY_1,
    PAY_2_SECOND,
    ("desk cut", "2025-01-08 sent 1 in [A], lapsed 0"),
    NINTH,
    CUT_9,
    ("desk day 2025-01-10", "2025-01-10"),
    (
        "MILL01 exposure",
        "credit 150000 of 999999999999999, debit 2500 of 999999999999999",
    ),
    ("desk day 2025-01-13", "2025-01-13"),
    (
        "MILL01 exposure",
        "credit 0 of 999999999999999, debit 2500 of 999999999999999",
    ),
    FOURTEENTH,
    (
        "MILL01 exposure",
        "credit 0 of 999999999999999, debit 2500 of 999999999999999",
    ),
    ("desk day 2025-01-15", "2025-01-15"),
    (
        "MILL01 exposure",
        "credit 0 of 999999999999999, debit 0 of 999999999999999",
    ),
];

#[test]
fn exposures_end(rt: HostRuntime) {
    holds(&rt, EXPOSURES);
}

const RETRIES: Script = &[
    MILL,
    HOLIDAYS,
    DAY,
    PAY_2,
    NINTH,
    CUT_9,
    FOURTEENTH,
    ("desk items A PPD R01/1/2500/26", ONE_RETURN),
    (
        "MILL01 retry RT-1 PAY-2 1 2025-01-16",
        "RT-1 order 2 entries 1 cents 2500",
    ),
    ("MILL01 retry RT-2 PAY-2 1 2025-01-16", "NotReturned"),
    ("MILL01 retry RT-2 RT-1 1 2025-01-16", "NoEntry"),
    (
        "MILL01 retry RT-1 PAY-2 1 2025-01-16",
        "RT-1 order 2 entries 1 cents 2500",
    ),
    ("MILL01 retry RT-1 PAY-2 1 2025-01-17", "RefReused"),
    ("desk day 2025-01-15", "2025-01-15"),
    ("desk cut", "2025-01-15 sent 1 in [A], lapsed 0"),
    ("desk day 2025-01-17", "2025-01-17"),
    (
        "desk items B PPD R09/2/2500/26",
        "2025-01-17 returns 1 late 0 changes 0 suspense 0",
    ),
    (
        "MILL01 retry RT-2 PAY-2 1 2025-01-22",
        "RT-2 order 3 entries 1 cents 2500",
    ),
    ("desk day 2025-01-21", "2025-01-21"),
    ("desk cut", "2025-01-21 sent 1 in [A], lapsed 0"),
    ("desk day 2025-01-23", "2025-01-23"),
    (
        "desk items C PPD R01/3/2500/26",
        "2025-01-23 returns 1 late 0 changes 0 suspense 0",
    ),
    ("MILL01 retry RT-3 PAY-2 1 2025-01-24", "RetriesSpent"),
];

#[test]
fn a_retry(rt: HostRuntime) {
    holds(&rt, RETRIES);
}

// A retry that would settle more than 180 days after its original lapses, and exposes nothing any more.
const LAPSES: Script = &[
    MILL,
    HOLIDAYS,
    DAY,
    PAY_2,
    NINTH,
    CUT_9,
    FOURTEENTH,
    ("desk items A PPD R01/1/2500/26", ONE_RETURN),
    ("desk day 2025-07-01", "2025-07-01"),
    ("MILL01 retry RT PAY-2 1 2025-07-10", "RetryTooLate"),
    (
        "MILL01 retry RT PAY-2 1 2025-07-09",
        "RT order 2 entries 1 cents 2500",
    ),
    ("desk day 2025-07-09", "2025-07-09"),
    (
        "MILL01 exposure",
        "credit 0 of 999999999999999, debit 2500 of 999999999999999",
    ),
    ("desk cut", "2025-07-09 sent 0 in [], lapsed 1"),
    (
        "MILL01 exposure",
        "credit 0 of 999999999999999, debit 0 of 999999999999999",
    ),
    ("MILL01 look RT", "RT order 2 2025-07-09; 1 2500 lapsed"),
];

#[test]
fn a_retry_lapses(rt: HostRuntime) {
    holds(&rt, LAPSES);
}

// A credit is not tried again.
const OF_A_CREDIT: Script = &[
    MILL,
    HOLIDAYS,
    DAY,
    PAY_1,
    ("desk cut", "2025-01-08 sent 1 in [A], lapsed 0"),
    FOURTEENTH,
    ("desk items A PPD R02/1/150000/21", ONE_RETURN),
    ("MILL01 retry RT PAY-1 1 2025-01-16", "NoEntry"),
];

#[test]
fn a_retry_of_a_credit(rt: HostRuntime) {
    holds(&rt, OF_A_CREDIT);
}

// A stopped payment is tried again with an authorization from its return to the desk day; other
// codes are not.
const STOPPED: Script = &[
    MILL,
    HOLIDAYS,
    DAY,
    PAY_2,
    NINTH,
    CUT_9,
    FOURTEENTH,
    ("desk items A PPD R08/1/2500/26", ONE_RETURN),
    ("desk day 2025-01-15", "2025-01-15"),
    ("MILL01 retry RT PAY-2 1 2025-01-22", "NotRetryable"),
    (
        "MILL01 retry RT PAY-2 1 2025-01-22 2025-01-13",
        "NotRetryable",
    ),
    (
        "MILL01 retry RT PAY-2 1 2025-01-22 2025-01-16",
        "NotRetryable",
    ),
    (
        "MILL01 retry RT PAY-2 1 2025-01-22 2025-01-14",
        "RT order 2 entries 1 cents 2500",
    ),
];

const OF_ANOTHER_CODE: Script = &[
    MILL,
    HOLIDAYS,
    DAY,
    PAY_2,
    NINTH,
    CUT_9,
    FOURTEENTH,
    ("desk items A PPD R02/1/2500/26", ONE_RETURN),
    ("desk day 2025-01-15", "2025-01-15"),
    ("MILL01 retry RT PAY-2 1 2025-01-22", "NotRetryable"),
    (
        "MILL01 retry RT PAY-2 1 2025-01-22 2025-01-13",
        "NotRetryable",
    ),
    (
        "MILL01 retry RT PAY-2 1 2025-01-22 2025-01-16",
        "NotRetryable",
    ),
    (
        "MILL01 retry RT PAY-2 1 2025-01-22 2025-01-14",
        "NotRetryable",
    ),
];

#[test]
fn a_retry_of_a_stopped_payment(rt: HostRuntime) {
    holds(&rt, STOPPED);
    holds(&rt, OF_ANOTHER_CODE);
}
