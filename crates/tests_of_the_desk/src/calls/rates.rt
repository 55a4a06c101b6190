//! These scripts try the return rates of a company.
use super::script::{
    CUT_9, DAY, FOURTEENTH, HOLIDAYS, MILL, NINTH, ONE_RETURN, PAY_2, Script, holds,
};

// One unauthorized return of two hundred debits is half a percent, and no more.
const OF_200: Script = &[
    MILL,
    HOLIDAYS,
    DAY,
    (
        "MILL01 submit D debit 2025-01-10 091000019 1*200",
        "D order 1 entries 200 cents 200",
    ),
    NINTH,
    ("desk cut", "2025-01-09 sent 200 in [A], lapsed 0"),
    FOURTEENTH,
    ("desk items A PPD R10/1/1/26", ONE_RETURN),
    (
        "MILL01 rates",
        "unauthorized 1 of 200, administrative 0 of 200, overall 1 of 200",
    ),
    ("desk items B PPD R10/2/1/26", ONE_RETURN),
    (
        "MILL01 rates",
        "unauthorized 2 of 200 over, administrative 0 of 200, overall 2 of 200",
    ),
];

#[test]
fn one_of_two_hundred(rt: HostRuntime) {
    holds(&rt, OF_200);
}

// Two of 399 are more than half a percent, by less than one return.
const OF_399: Script = &[
    MILL,
    HOLIDAYS,
    DAY,
    (
        "MILL01 submit D debit 2025-01-10 091000019 1*399",
        "D order 1 entries 399 cents 399",
    ),
    NINTH,
    ("desk cut", "2025-01-09 sent 399 in [A], lapsed 0"),
    FOURTEENTH,
    ("desk items A PPD R10/1/1/26", ONE_RETURN),
    (
        "MILL01 rates",
        "unauthorized 1 of 399, administrative 0 of 399, overall 1 of 399",
    ),
    ("desk items B PPD R10/2/1/26", ONE_RETURN),
    (
        "MILL01 rates",
        "unauthorized 2 of 399 over, administrative 0 of 399, overall 2 of 399",
    ),
];

#[test]
fn two_of_399(rt: HostRuntime) {
    holds(&rt, OF_399);
}

// None of none is not over; a return counts where its debit settled before the sixty days, and is
// over.
const OF_NONE: Script = &[
    MILL,
    HOLIDAYS,
    DAY,
    PAY_2,
    (
        "MILL01 rates",
        "unauthorized 0 of 0, administrative 0 of 0, overall 0 of 0",
    ),
    NINTH,
    CUT_9,
    ("desk day 2025-03-10", "2025-03-10"),
    (
        "MILL01 rates",
        "unauthorized 0 of 1, administrative 0 of 1, overall 0 of 1",
    ),
    ("desk day 2025-03-11", "2025-03-11"),
    (
        "desk items A PPD R10/1/2500/26",
        "2025-03-11 returns 1 late 0 changes 0 suspense 0",
    ),
    (
        "MILL01 rates",
        "unauthorized 1 of 0 over, administrative 0 of 0, overall 1 of 0 over",
    ),
];

#[test]
fn one_of_none(rt: HostRuntime) {
    holds(&rt, OF_NONE);
}
