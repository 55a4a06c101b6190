//! These scripts try files of returns and changes.
use super::script::{
    BAKE, CUT_9, DAY, FOURTEENTH, HOLIDAYS, MILL, NINTH, ONE_RETURN, PAY_2, Script, holds,
};

/// This file returns the first debit.
const FILE: &str = concat!(
    "desk take ",
    "101 121042882 0610001462501140930A094101OUR BANK               ACH OPERATOR                   \n",
    "5225MILL STREET                         MILL01    PPDDUES            2501140141091000010000001\n",
    "626121042882123456789        0000002500E2             BOB RAY                 1091000010000007\n",
    "799R01121042880000001      09100001                                            091000010000007\n",
    "82250000020012104288000000002500000000000000MILL01                             091000010000001\n",
    "9000001000001000000020012104288000000002500000000000000                                       \n",
);

/// This is the same with another account.
const OTHER_FILE: &str = concat!(
    "desk take ",
    "101 121042882 0610001462501140930A094101OUR BANK               ACH OPERATOR                   \n",
    "5225MILL STREET                         MILL01    PPDDUES            2501140141091000010000001\n",
    "626121042882123456780        0000002500E2             BOB RAY                 1091000010000007\n",
    "799R01121042880000001      09100001                                            091000010000007\n",
    "82250000020012104288000000002500000000000000MILL01                             091000010000001\n",
    "9000001000001000000020012104288000000002500000000000000                                       \n",
);

const RETURNED: (&str, &str) = (FILE, ONE_RETURN);

// The answers to a company that is served alone.
const LOOKED_UP: (&str, &str) = (
    "MILL01 look PAY-2",
    "PAY-2 order 1 2025-01-10; 1 2500 R01 2025-01-14",
);

const RETURNS: (&str, &str) = ("MILL01 returns", "returns; R01 2025-01-14 1 PAY-2");

const STATEMENT: (&str, &str) = (
    "MILL01 statement",
    "balance 0; 2500 2025-01-10 0 PAY-2; -2500 2025-01-14 1 PAY-2",
);

const EXPOSURE: (&str, &str) = (
    "MILL01 exposure",
    "credit 0 of 999999999999999, debit 0 of 999999999999999",
);

const RATES: (&str, &str) = (
    "MILL01 rates",
    "unauthorized 0 of 1, administrative 0 of 1, overall 1 of 1 over",
);

// The same file again changes nothing and is answered as the first time, also on a later day.
const TAKEN_TWICE: Script = &[
    MILL,
    HOLIDAYS,
    (FILE, "NoDay"),
    DAY,
    PAY_2,
    NINTH,
    CUT_9,
    FOURTEENTH,
    RETURNED,
    RETURNED,
    RETURNS,
    ("desk day 2025-01-15", "2025-01-15"),
    RETURNED,
    (OTHER_FILE, "FileKeyReused"),
    ("desk take 1", "BadLength at record 1"),
    LOOKED_UP,
    STATEMENT,
];

#[test]
fn a_file_is_taken_twice(rt: HostRuntime) {
    holds(&rt, TAKEN_TWICE);
}

// Items that match no entry are in suspense, with their money.
const IN_SUSPENSE: Script = &[
    MILL,
    HOLIDAYS,
    DAY,
    PAY_2,
    (
        "MILL01 submit PAY-3 debit 2025-01-10 091000019 2500",
        "PAY-3 order 2 entries 1 cents 2500",
    ),
    NINTH,
    ("desk cut", "2025-01-09 sent 2 in [A], lapsed 0"),
    FOURTEENTH,
    RETURNED,
    (
        "desk items B PPD R01/9/2500/26 R01/2/2600/26 R31/2/2500/26 R01/1/2500/26",
        "2025-01-14 returns 0 late 0 changes 0 suspense 4",
    ),
    (
        "desk suspense",
        "suspense; 1 2500 NoTrace; 2 2600 Differs; 3 2500 CodeOutside; 4 2500 AlreadyReturned",
    ),
    (
        "desk settlement",
        "balance 7600; -5000 2025-01-10; 12600 2025-01-14",
    ),
    (
        "MILL01 look PAY-3",
        "PAY-3 order 2 2025-01-10; 1 2500 sent 2025-01-10",
    ),
];

#[test]
fn four_returns_in_suspense(rt: HostRuntime) {
    holds(&rt, IN_SUSPENSE);
}

// One entry twice in a file: the second item is in suspense.
const RETURNED_TWICE: Script = &[
    MILL,
    HOLIDAYS,
    DAY,
    PAY_2,
    NINTH,
    CUT_9,
    FOURTEENTH,
    (
        "desk items B PPD R01/1/2500/26 R09/1/2500/26",
        "2025-01-14 returns 1 late 0 changes 0 suspense 1",
    ),
    ("desk suspense", "suspense; 2 2500 AlreadyReturned"),
    RETURNS,
];

#[test]
fn a_file_returns_an_entry_twice(rt: HostRuntime) {
    holds(&rt, RETURNED_TWICE);
}

// Seventeen returns of one file, with their lines: more than one statement writes.
const SEVENTEEN_RETURNS: Script = &[
    MILL,
    HOLIDAYS,
    DAY,
    (
        "MILL01 submit PAY-1 debit 2025-01-10 091000019 \
                 101 102 103 104 105 106 107 108 109 110 \
                 111 112 113 114 115 116 117",
        "PAY-1 order 1 entries 17 cents 1853",
    ),
    NINTH,
    ("desk cut", "2025-01-09 sent 17 in [A], lapsed 0"),
    FOURTEENTH,
    (
        "desk items B PPD \
                 R01/1/101/26 R01/2/102/26 R01/3/103/26 R01/4/104/26 R01/5/105/26 \
                 R01/6/106/26 R01/7/107/26 R01/8/108/26 R01/9/109/26 R01/10/110/26 \
                 R01/11/111/26 R01/12/112/26 R01/13/113/26 R01/14/114/26 R01/15/115/26 \
                 R01/16/116/26 R01/17/117/26",
        "2025-01-14 returns 17 late 0 changes 0 suspense 0",
    ),
    (
        "MILL01 returns",
        "returns\
                 ; R01 2025-01-14 1 PAY-1; R01 2025-01-14 2 PAY-1; R01 2025-01-14 3 PAY-1\
                 ; R01 2025-01-14 4 PAY-1; R01 2025-01-14 5 PAY-1; R01 2025-01-14 6 PAY-1\
                 ; R01 2025-01-14 7 PAY-1; R01 2025-01-14 8 PAY-1; R01 2025-01-14 9 PAY-1\
                 ; R01 2025-01-14 10 PAY-1; R01 2025-01-14 11 PAY-1; R01 2025-01-14 12 PAY-1\
                 ; R01 2025-01-14 13 PAY-1; R01 2025-01-14 14 PAY-1; R01 2025-01-14 15 PAY-1\
                 ; R01 2025-01-14 16 PAY-1; R01 2025-01-14 17 PAY-1",
    ),
    (
        "MILL01 statement",
        "balance 0; 1853 2025-01-10 0 PAY-1\
                 ; -101 2025-01-14 1 PAY-1; -102 2025-01-14 2 PAY-1; -103 2025-01-14 3 PAY-1\
                 ; -104 2025-01-14 4 PAY-1; -105 2025-01-14 5 PAY-1; -106 2025-01-14 6 PAY-1\
                 ; -107 2025-01-14 7 PAY-1; -108 2025-01-14 8 PAY-1; -109 2025-01-14 9 PAY-1\
                 ; -110 2025-01-14 10 PAY-1; -111 2025-01-14 11 PAY-1; -112 2025-01-14 12 PAY-1\
                 ; -113 2025-01-14 13 PAY-1; -114 2025-01-14 14 PAY-1; -115 2025-01-14 15 PAY-1\
                 ; -116 2025-01-14 16 PAY-1; -117 2025-01-14 17 PAY-1",
    ),
];

#[test]
fn a_file_returns_seventeen_entries(rt: HostRuntime) {
    holds(&rt, SEVENTEEN_RETURNS);
}

// A return of two banking days, over a holiday: the third day is late.
const IN_TIME: Script = &[
    MILL,
    HOLIDAYS,
    ("desk day 2025-01-16", "2025-01-16"),
    (
        "MILL01 submit D debit 2025-01-17 091000019 2500",
        "D order 1 entries 1 cents 2500",
    ),
    ("desk cut", "2025-01-16 sent 1 in [A], lapsed 0"),
    ("desk day 2025-01-22", "2025-01-22"),
    (
        "desk items A PPD R01/1/2500/26",
        "2025-01-22 returns 1 late 0 changes 0 suspense 0",
    ),
];

const LATE: Script = &[
    MILL,
    HOLIDAYS,
    ("desk day 2025-01-16", "2025-01-16"),
    (
        "MILL01 submit D debit 2025-01-17 091000019 2500",
        "D order 1 entries 1 cents 2500",
    ),
    ("desk cut", "2025-01-16 sent 1 in [A], lapsed 0"),
    ("desk day 2025-01-23", "2025-01-23"),
    (
        "desk items A PPD R01/1/2500/26",
        "2025-01-23 returns 1 late 1 changes 0 suspense 0",
    ),
];

#[test]
fn returns_in_time_and_late(rt: HostRuntime) {
    holds(&rt, IN_TIME);
    holds(&rt, LATE);
}

// A return of sixty days: the next banking day is in time, the one after late.
const UNAUTHORIZED: Script = &[
    MILL,
    HOLIDAYS,
    DAY,
    PAY_2,
    NINTH,
    CUT_9,
    ("desk day 2025-03-12", "2025-03-12"),
    (
        "desk items A PPD R10/1/2500/26",
        "2025-03-12 returns 1 late 0 changes 0 suspense 0",
    ),
];

const UNAUTHORIZED_LATE: Script = &[
    MILL,
    HOLIDAYS,
    DAY,
    PAY_2,
    NINTH,
    CUT_9,
    ("desk day 2025-03-13", "2025-03-13"),
    (
        "desk items A PPD R10/1/2500/26",
        "2025-03-13 returns 1 late 1 changes 0 suspense 0",
    ),
];

#[test]
fn unauthorized_in_time_and_late(rt: HostRuntime) {
    holds(&rt, UNAUTHORIZED);
    holds(&rt, UNAUTHORIZED_LATE);
}

// A change is listed and leaves its entry sent; one outside the codes or in another batch does not.
const CHANGES: Script = &[
    MILL,
    HOLIDAYS,
    DAY,
    PAY_2,
    NINTH,
    CUT_9,
    FOURTEENTH,
    (
        "desk items A COR C01/1/0/26",
        "2025-01-14 returns 0 late 0 changes 1 suspense 0",
    ),
    (
        "MILL01 changes",
        "changes; C01 2025-01-14 1 PAY-2 987654321",
    ),
    (
        "MILL01 look PAY-2",
        "PAY-2 order 1 2025-01-10; 1 2500 sent 2025-01-10",
    ),
    (
        "desk items B COR C15/1/0/26",
        "2025-01-14 returns 0 late 0 changes 0 suspense 1",
    ),
    (
        "desk items C PPD C01/1/0/26",
        "2025-01-14 returns 0 late 0 changes 0 suspense 1",
    ),
    ("desk suspense", "suspense; 1 0 CodeOutside; 1 0 Differs"),
];

#[test]
fn changes_of_an_entry(rt: HostRuntime) {
    holds(&rt, CHANGES);
}

const ALONE: Script = &[
    MILL, HOLIDAYS, DAY, PAY_2, NINTH, CUT_9, FOURTEENTH, RETURNED, LOOKED_UP, RETURNS, STATEMENT,
    EXPOSURE, RATES,
];

#[test]
fn a_company_is_served_alone(rt: HostRuntime) {
    holds(&rt, ALONE);
}

// Forty entries of another company take the traces before it: its answers are the same.
const BESIDE_ANOTHER: Script = &[
    MILL,
    BAKE,
    HOLIDAYS,
    DAY,
    (
        "BAKE01 submit B debit 2025-01-10 091000019 1*40",
        "B order 1 entries 40 cents 40",
    ),
    PAY_2,
    NINTH,
    ("desk cut", "2025-01-09 sent 41 in [A], lapsed 0"),
    FOURTEENTH,
    ("desk items A PPD R01/41/2500/26", ONE_RETURN),
    LOOKED_UP,
    RETURNS,
    STATEMENT,
    EXPOSURE,
    RATES,
];

#[test]
fn a_company_is_served_beside_another(rt: HostRuntime) {
    holds(&rt, BESIDE_ANOTHER);
}
