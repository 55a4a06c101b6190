//! Scripts for the desk's status, through days of two companies. For each company it lists the
//! number and the cents of its held credits and of its held debits, the retries that would lapse,
//! and by day what would be sent, credits before debits.
use super::script::{BAKE, DAY, HOLIDAYS, MILL, Script, holds};

// The 20th is a holiday. A submission for the 18th, a Saturday, settles on the 21st. The returned
// entry settled on January 17, and the 180th day after that is July 16.
const DAYS: Script = &[
    (
        "desk status",
        "no day, files [], suspense 0, holidays 0, sent 0, due files 0 records 0, held records 0",
    ),
    HOLIDAYS,
    MILL,
    BAKE,
    (
        "desk status",
        "no day, files [], suspense 0, holidays 1, sent 0, due files 0 records 0, held records 0; BAKE01 held 0/0 0/0 lapsing 0; MILL01 held 0/0 0/0 lapsing 0",
    ),
    ("desk day 2025-01-16", "2025-01-16"),
    (
        "MILL01 submit D debit 2025-01-17 091000019 2500",
        "D order 1 entries 1 cents 2500",
    ),
    (
        "MILL01 submit C credit 2025-01-18 091000019 100 50",
        "C order 2 entries 2 cents 150",
    ),
    (
        "MILL01 submit L credit 2025-01-22 091000019 7",
        "L order 3 entries 1 cents 7",
    ),
    (
        "BAKE01 submit P debit 2025-01-17 091000019 0",
        "P order 1 entries 1 cents 0",
    ),
    (
        "desk status",
        "2025-01-16, files [], suspense 0, holidays 1, sent 0, due files 1 records 4, held records 5; BAKE01 held 0/0 1/0 lapsing 0, 2025-01-17 0/0 1/0; MILL01 held 2/157 1/2500 lapsing 0, 2025-01-17 0/0 1/2500, 2025-01-21 1/150 0/0",
    ),
    ("desk cut", "2025-01-16 sent 4 in [A], lapsed 0"),
    (
        "desk status",
        "2025-01-16, files [A], suspense 0, holidays 1, sent 4, due files 0 records 0, held records 1; BAKE01 held 0/0 0/0 lapsing 0; MILL01 held 1/7 0/0 lapsing 0",
    ),
    ("desk day 2025-01-21", "2025-01-21"),
    (
        "desk items A PPD R01/2/2500/26 R01/9/2500/26",
        "2025-01-21 returns 1 late 0 changes 0 suspense 1",
    ),
    (
        "MILL01 retry RT D 1 2025-01-22",
        "RT order 4 entries 1 cents 2500",
    ),
    (
        "desk status",
        "2025-01-21, files [], suspense 1, holidays 1, sent 4, due files 1 records 2, held records 2; BAKE01 held 0/0 0/0 lapsing 0; MILL01 held 1/7 1/2500 lapsing 0, 2025-01-22 1/7 1/2500",
    ),
    ("desk day 2025-07-16", "2025-07-16"),
    (
        "desk status",
        "2025-07-16, files [], suspense 1, holidays 1, sent 4, due files 1 records 1, held records 2; BAKE01 held 0/0 0/0 lapsing 0; MILL01 held 1/7 1/2500 lapsing 1, 2025-07-17 1/7 0/0",
    ),
    ("desk cut", "2025-07-16 sent 1 in [A], lapsed 1"),
    (
        "desk status",
        "2025-07-16, files [A], suspense 1, holidays 1, sent 5, due files 0 records 0, held records 0; BAKE01 held 0/0 0/0 lapsing 0; MILL01 held 0/0 0/0 lapsing 0",
    ),
];

#[test]
fn how_the_desk_stands(rt: HostRuntime) {
    holds(&rt, DAYS);
}

// Two submissions have too many cents for one file. Each entry is a record, and an addenda is one more.
const TWO_FILES: Script = &[
    MILL,
    DAY,
    (
        "MILL01 submit A debit 2025-01-09 091000019 9999999999*51",
        "A order 1 entries 51 cents 509999999949",
    ),
    (
        "MILL01 submit B debit 2025-01-09 091000019 9999999999*51",
        "B order 2 entries 51 cents 509999999949",
    ),
    (
        "desk status",
        "2025-01-08, files [], suspense 0, holidays 0, sent 0, due files 2 records 102, held records 102; MILL01 held 0/0 2/1019999999898 lapsing 0, 2025-01-09 0/0 2/1019999999898",
    ),
    (
        "MILL01 submit L debit 2025-01-13 091000019 091000019/checking/7/INVOICE",
        "L order 3 entries 1 cents 7",
    ),
    (
        "desk status",
        "2025-01-08, files [], suspense 0, holidays 0, sent 0, due files 2 records 102, held records 104; MILL01 held 0/0 3/1019999999905 lapsing 0, 2025-01-09 0/0 2/1019999999898",
    ),
    ("desk cut", "2025-01-08 sent 102 in [AB], lapsed 0"),
    (
        "desk status",
        "2025-01-08, files [AB], suspense 0, holidays 0, sent 102, due files 0 records 0, held records 2; MILL01 held 0/0 1/7 lapsing 0",
    ),
    ("desk day 2025-01-10", "2025-01-10"),
    (
        "desk status",
        "2025-01-10, files [], suspense 0, holidays 0, sent 102, due files 1 records 2, held records 2; MILL01 held 0/0 1/7 lapsing 0, 2025-01-13 0/0 1/7",
    ),
    ("desk cut", "2025-01-10 sent 1 in [A], lapsed 0"),
];

#[test]
fn how_many_files_a_cut_would_make(rt: HostRuntime) {
    holds(&rt, TWO_FILES);
}
