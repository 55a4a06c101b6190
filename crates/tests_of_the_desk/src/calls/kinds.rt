//! These scripts try entries of each kind: PPD and CCD, checking and savings, credits and debits,
//! prenotes, and entries with an addenda.
use super::script::{DAY, MILL, Script, holds};

/// These are credits of companies: to checking with an addenda, to savings, and a prenote of savings.
const CREDITS: (&str, &str) = (
    "MILL01 enter CCD-1 credit 2025-01-10 CCD 091000019/checking/150000/RMR*IV*4711 021000021/savings/2500 091000019/savings/0",
    "CCD-1 order 1 entries 3 cents 152500",
);

/// These are debits of consumers: of savings with an addenda, and a prenote of checking.
const DEBITS: (&str, &str) = (
    "MILL01 enter PPD-1 debit 2025-01-09 PPD 091000019/savings/700/MEMBER*17 021000021/checking/0",
    "PPD-1 order 2 entries 2 cents 700",
);

const CUT: (&str, &str) = ("desk cut", "2025-01-08 sent 5 in [A], lapsed 0");

const THIRTEENTH: (&str, &str) = ("desk day 2025-01-13", "2025-01-13");

/// This is the file of the five entries, by the Nacha layouts.
const FILE: &str = concat!(
    "101 061000146 121042882250108    A094101ACH OPERATOR           OUR BANK                       \n",
    "5220MILL STREET                         MILL01    CCDPAYROLL         250110   1121042880000001\n",
    "622091000019123456789        0000150000E1             ANN LEE                 1121042880000001\n",
    "705RMR*IV*4711                                                                     00010000001\n",
    "632021000021123456789        0000002500E1             ANN LEE                 0121042880000002\n",
    "633091000019123456789        0000000000E1             ANN LEE                 0121042880000003\n",
    "82200000040020300004000000000000000000152500MILL01                             121042880000001\n",
    "5225MILL STREET                         MILL01    PPDDUES            250109   1121042880000002\n",
    "637091000019123456789        0000000700E1             ANN LEE                 1121042880000004\n",
    "705MEMBER*17                                                                       00010000004\n",
    "628021000021123456789        0000000000E1             ANN LEE                 0121042880000005\n",
    "82250000030011200003000000000700000000000000MILL01                             121042880000002\n",
    "9000002000002000000070031500007000000000700000000152500                                       \n",
    "9999999999999999999999999999999999999999999999999999999999999999999999999999999999999999999999\n",
    "9999999999999999999999999999999999999999999999999999999999999999999999999999999999999999999999\n",
    "9999999999999999999999999999999999999999999999999999999999999999999999999999999999999999999999\n",
    "9999999999999999999999999999999999999999999999999999999999999999999999999999999999999999999999\n",
    "9999999999999999999999999999999999999999999999999999999999999999999999999999999999999999999999\n",
    "9999999999999999999999999999999999999999999999999999999999999999999999999999999999999999999999\n",
    "9999999999999999999999999999999999999999999999999999999999999999999999999999999999999999999999\n",
);

const SENT: Script = &[
    MILL,
    DAY,
    CREDITS,
    DEBITS,
    CUT,
    ("desk file 2025-01-08 A", FILE),
];

#[test]
fn a_file_of_each_kind(rt: HostRuntime) {
    holds(&rt, SENT);
}

// A returned prenote moves no money, and counts in no rate.
const RETURNED: Script = &[
    MILL,
    DAY,
    CREDITS,
    DEBITS,
    CUT,
    THIRTEENTH,
    (
        "desk items A CCD R03/1/150000/21 R04/2/2500/31/02100002 R03/3/0/31",
        "2025-01-13 returns 3 late 0 changes 0 suspense 0",
    ),
    (
        "desk items B PPD R20/4/700/36 R02/5/0/26/02100002",
        "2025-01-13 returns 2 late 0 changes 0 suspense 0",
    ),
    (
        "MILL01 look CCD-1",
        "CCD-1 order 1 2025-01-10; 1 150000 R03 2025-01-13; 2 2500 R04 2025-01-13; 3 0 R03 2025-01-13",
    ),
    (
        "MILL01 look PPD-1",
        "PPD-1 order 2 2025-01-09; 1 700 R20 2025-01-13; 2 0 R02 2025-01-13",
    ),
    (
        "MILL01 statement",
        "balance 0; -152500 2025-01-10 0 CCD-1; 700 2025-01-09 0 PPD-1; 150000 2025-01-13 1 CCD-1; 2500 2025-01-13 2 CCD-1; -700 2025-01-13 1 PPD-1",
    ),
    (
        "MILL01 rates",
        "unauthorized 0 of 1, administrative 0 of 1, overall 1 of 1 over",
    ),
];

#[test]
fn each_kind_comes_back(rt: HostRuntime) {
    holds(&rt, RETURNED);
}

// Each item agrees with its entry but in one thing: the class, the account, the direction, the
// receiving bank, the amount of a prenote.
const IN_SUSPENSE: Script = &[
    MILL,
    DAY,
    CREDITS,
    DEBITS,
    CUT,
    THIRTEENTH,
    (
        "desk items A PPD R03/1/150000/21",
        "2025-01-13 returns 0 late 0 changes 0 suspense 1",
    ),
    (
        "desk items B CCD R04/2/2500/21/02100002 R04/2/2500/36/02100002 R04/2/2500/31 R03/3/1/31",
        "2025-01-13 returns 0 late 0 changes 0 suspense 4",
    ),
    (
        "desk suspense",
        "suspense; 1 150000 Differs; 1 2500 Differs; 2 2500 Differs; 3 2500 Differs; 4 1 Differs",
    ),
    (
        "MILL01 look CCD-1",
        "CCD-1 order 1 2025-01-10; 1 150000 sent 2025-01-10; 2 2500 sent 2025-01-10; 3 0 sent 2025-01-10",
    ),
];

#[test]
fn another_kind_stands_in_suspense(rt: HostRuntime) {
    holds(&rt, IN_SUSPENSE);
}

// A change of an entry of a company: it comes in a batch of changes, whatever the entry's class.
const CHANGED: Script = &[
    MILL,
    DAY,
    CREDITS,
    DEBITS,
    CUT,
    THIRTEENTH,
    (
        "desk items A COR C01/3/0/31 C05/4/0/36",
        "2025-01-13 returns 0 late 0 changes 2 suspense 0",
    ),
    (
        "MILL01 changes",
        "changes; C01 2025-01-13 3 CCD-1 987654321; C05 2025-01-13 1 PPD-1 987654321",
    ),
];

#[test]
fn changes_of_each_kind(rt: HostRuntime) {
    holds(&rt, CHANGED);
}
