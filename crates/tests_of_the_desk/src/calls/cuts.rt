//! These scripts try the files that cuts make.
use super::script::{
    CUT_9, DAY, HOLIDAYS, MILL, MOST_CALLS, NINTH, PAY_1, PAY_2_SECOND, Script, follow, holds,
    new_lists,
};
use desk_core::{Desk, FaultyStore, Store};
use std::alloc::Global;
use std::process::Abort;

/// This is the file of one credit that is cut on 2025-01-08.
const FIRST_FILE: &str = concat!(
    "101 061000146 121042882250108    A094101ACH OPERATOR           OUR BANK                       \n",
    "5220MILL STREET                         MILL01    PPDPAYROLL         250110   1121042880000001\n",
    "622091000019123456789        0000150000E1             ANN LEE                 0121042880000001\n",
    "82200000010009100001000000000000000000150000MILL01                             121042880000001\n",
    "9000001000001000000010009100001000000000000000000150000                                       \n",
    "9999999999999999999999999999999999999999999999999999999999999999999999999999999999999999999999\n",
    "9999999999999999999999999999999999999999999999999999999999999999999999999999999999999999999999\n",
    "9999999999999999999999999999999999999999999999999999999999999999999999999999999999999999999999\n",
    "9999999999999999999999999999999999999999999999999999999999999999999999999999999999999999999999\n",
    "9999999999999999999999999999999999999999999999999999999999999999999999999999999999999999999999\n",
);

// A credit goes out two banking days ahead, a debit one; Saturday rolls over the holiday.
const DUE: Script = &[
    MILL,
    HOLIDAYS,
    ("desk cut", "NoDay"),
    ("desk day 2025-01-16", "2025-01-16"),
    (
        "MILL01 submit C credit 2025-01-18 091000019 100",
        "C order 1 entries 1 cents 100",
    ),
    (
        "MILL01 submit D debit 2025-01-18 091000019 100",
        "D order 2 entries 1 cents 100",
    ),
    ("desk cut", "2025-01-16 sent 1 in [A], lapsed 0"),
    (
        "MILL01 look C",
        "C order 1 2025-01-18; 1 100 sent 2025-01-21",
    ),
    ("MILL01 look D", "D order 2 2025-01-18; 1 100 held"),
];

#[test]
fn what_is_due(rt: HostRuntime) {
    holds(&rt, DUE);
}

const TWO_DAYS: Script = &[
    MILL,
    HOLIDAYS,
    DAY,
    PAY_1,
    PAY_2_SECOND,
    ("desk cut", "2025-01-08 sent 1 in [A], lapsed 0"),
    ("desk file 2025-01-08 A", FIRST_FILE),
    ("desk file 2025-01-08 B", "none"),
    ("desk cut", "2025-01-08 sent 0 in [], lapsed 0"),
    NINTH,
    CUT_9,
    (
        "MILL01 look PAY-2",
        "PAY-2 order 2 2025-01-10; 1 2500 sent 2025-01-10",
    ),
];

#[test]
fn files_of_two_days(rt: HostRuntime) {
    holds(&rt, TWO_DAYS);
}

// Of seven submissions of a company the fourth goes out a day later, and the fifth has two entries: so orders
// follow one another with a gap, and the batches after it are one less than the orders. Each trace names the
// entry that was given it.
const IN_RUNS: Script = &[
    MILL,
    HOLIDAYS,
    DAY,
    (
        "MILL01 submit S1 debit 2025-01-09 091000019 100",
        "S1 order 1 entries 1 cents 100",
    ),
    (
        "MILL01 submit S2 debit 2025-01-09 091000019 200",
        "S2 order 2 entries 1 cents 200",
    ),
    (
        "MILL01 submit S3 debit 2025-01-09 091000019 300",
        "S3 order 3 entries 1 cents 300",
    ),
    (
        "MILL01 submit S4 debit 2025-01-10 091000019 400",
        "S4 order 4 entries 1 cents 400",
    ),
    (
        "MILL01 submit S5 debit 2025-01-09 091000019 500 501",
        "S5 order 5 entries 2 cents 1001",
    ),
    (
        "MILL01 submit S6 debit 2025-01-09 091000019 600",
        "S6 order 6 entries 1 cents 600",
    ),
    (
        "MILL01 submit S7 debit 2025-01-09 091000019 700",
        "S7 order 7 entries 1 cents 700",
    ),
    ("desk cut", "2025-01-08 sent 7 in [A], lapsed 0"),
    ("desk cut", "2025-01-08 sent 0 in [], lapsed 0"),
    (
        "MILL01 look S3",
        "S3 order 3 2025-01-09; 1 300 sent 2025-01-09",
    ),
    ("MILL01 look S4", "S4 order 4 2025-01-10; 1 400 held"),
    (
        "MILL01 look S5",
        "S5 order 5 2025-01-09; 1 500 sent 2025-01-09; 2 501 sent 2025-01-09",
    ),
    NINTH,
    CUT_9,
    (
        "MILL01 look S4",
        "S4 order 4 2025-01-10; 1 400 sent 2025-01-10",
    ),
    (
        "desk items A PPD R01/1/100/26 R01/2/200/26 R01/3/300/26 R01/4/500/26 R01/5/501/26 R01/6/600/26 \
         R01/7/700/26 R01/8/400/26",
        "2025-01-09 returns 8 late 0 changes 0 suspense 0",
    ),
];

#[test]
fn submissions_in_runs(rt: HostRuntime) {
    holds(&rt, IN_RUNS);
}

// A file holds 100 entries of the largest amount and one of 99 cents, and not one cent more.
const NEXT_FILE: Script = &[
    MILL,
    DAY,
    (
        "MILL01 submit S1 credit 2025-01-09 091000019 99 9999999999*100",
        "S1 order 1 entries 101 cents 999999999999",
    ),
    (
        "MILL01 submit CENT credit 2025-01-09 091000019 1",
        "CENT order 2 entries 1 cents 1",
    ),
    ("desk cut", "2025-01-08 sent 102 in [AB], lapsed 0"),
];

#[test]
fn the_next_file(rt: HostRuntime) {
    holds(&rt, NEXT_FILE);
}

const DAY_BEGINS: Script = &[MILL, DAY];

// The 36 files of a day, and no more; the next day begins again.
const DAY_ENDS: Script = &[
    (
        "desk cut",
        "2025-01-08 sent 3636 in [ABCDEFGHIJKLMNOPQRSTUVWXYZ0123456789], lapsed 0",
    ),
    (
        "MILL01 submit CENT credit 2025-01-09 091000019 1",
        "CENT order 37 entries 1 cents 1",
    ),
    ("desk cut", "ModifiersSpent"),
    ("MILL01 look CENT", "CENT order 37 2025-01-09; 1 1 held"),
    NINTH,
    CUT_9,
];

// Hands in a submission that fills a file: was it asked again?
fn fill_file<S: Store>(
    rt: &(impl Abort + Alloc<A = Global>),
    desk: &mut Desk<S>,
    number: u64,
) -> bool {
    let line = format!(in rt.alloc();
        "MILL01 submit S{number} credit 2025-01-09 091000019 99 9999999999*100"
    );
    let line = line.ok().expect(rt, "memory");
    let receipt = format!(in rt.alloc(); "S{number} order {number} entries 101 cents 999999999999");
    let receipt = receipt.ok().expect(rt, "memory");
    follow(rt, desk, &[(line.as_str(), receipt.as_str())])
}

// Fills a day with 36 files: was a call asked again? What does not fit a file goes into the next one.
fn fill_day<S: Store>(rt: &(impl Abort + Alloc<A = Global>), desk: &mut Desk<S>) -> bool {
    let mut asked_again = follow(rt, desk, DAY_BEGINS);
    for number in 1..37 {
        asked_again |= fill_file(rt, desk, number);
    }
    follow(rt, desk, DAY_ENDS) || asked_again
}

// A day has 36 files, and not one more.
#[test]
fn files_of_a_day(rt: HostRuntime) {
    for call in 1..MOST_CALLS {
        let mut desk = Desk::new(FaultyStore::new(new_lists(&rt), call));
        if !fill_day(&rt, &mut desk) {
            return;
        }
    }
    assert!(rt; false, "the script makes more calls of the store");
}
