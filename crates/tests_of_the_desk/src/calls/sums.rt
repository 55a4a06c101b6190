//! This script asks for exposures and return rates before and after all that may change them.
use super::script::{
    BAKE, CUT_9, DAY, HOLIDAYS, MILL, NINTH, PAY_1, PAY_2_SECOND, Script, follow, holds,
    holds_remembering, holds_remembering_within, new_lists,
};
use ach_fields::Id;
use bank_days::Day;
use desk_core::{Desk, FaultyStore, Store};
use remembering_store::{Caps, Remembering};
use std::alloc::Global;
use std::process::Abort;

const NOTHING: &str = "credit 0 of 999999999999999, debit 0 of 999999999999999";

const A_DEBIT: &str = "credit 0 of 999999999999999, debit 2500 of 999999999999999";

const BOTH: &str = "credit 150000 of 999999999999999, debit 2500 of 999999999999999";

const NO_RATES: &str = "unauthorized 0 of 0, administrative 0 of 0, overall 0 of 0";

const SETTLED: &str = "unauthorized 0 of 1, administrative 0 of 1, overall 0 of 1";

const RETURNED: &str = "unauthorized 0 of 1, administrative 0 of 1, overall 1 of 1 over";

const DAYS: Script = &[
    MILL,
    BAKE,
    HOLIDAYS,
    DAY,
    ("MILL01 exposure", NOTHING),
    ("MILL01 rates", NO_RATES),
    ("BAKE01 exposure", NOTHING),
    // Two submissions.
    PAY_1,
    (
        "MILL01 exposure",
        "credit 150000 of 999999999999999, debit 0 of 999999999999999",
    ),
    PAY_2_SECOND,
    ("MILL01 exposure", BOTH),
    ("BAKE01 exposure", NOTHING),
    // Two cuts.
    ("desk cut", "2025-01-08 sent 1 in [A], lapsed 0"),
    ("MILL01 rates", NO_RATES),
    NINTH,
    ("MILL01 rates", NO_RATES),
    CUT_9,
    ("MILL01 exposure", BOTH),
    ("MILL01 rates", NO_RATES),
    // A day.
    ("desk day 2025-01-15", "2025-01-15"),
    ("MILL01 exposure", NOTHING),
    ("MILL01 rates", SETTLED),
    // A holiday list: the second banking day after 2025-01-10 is a day later.
    ("desk holidays 2025-01-13\n2025-01-20", "holidays 2"),
    ("MILL01 exposure", A_DEBIT),
    ("MILL01 rates", SETTLED),
    // A file.
    (
        "desk items A PPD R01/2/2500/26",
        "2025-01-15 returns 1 late 0 changes 0 suspense 0",
    ),
    ("MILL01 exposure", NOTHING),
    ("MILL01 rates", RETURNED),
    // A retry, and another company's submission.
    (
        "MILL01 retry RT PAY-2 1 2025-01-17",
        "RT order 3 entries 1 cents 2500",
    ),
    ("MILL01 exposure", A_DEBIT),
    ("BAKE01 exposure", NOTHING),
    (
        "BAKE01 submit B debit 2025-01-17 091000019 7",
        "B order 1 entries 1 cents 7",
    ),
    (
        "BAKE01 exposure",
        "credit 0 of 999999999999999, debit 7 of 999999999999999",
    ),
    ("MILL01 exposure", A_DEBIT),
    ("MILL01 rates", RETURNED),
];

// Room for one submission, and room for no debit: both companies soon have more.
const ONE: Caps = Caps {
    submissions: 1,
    debits: 9,
};

const NO_DEBIT: Caps = Caps {
    submissions: 9,
    debits: 0,
};

#[test]
fn sums_follow_what_happens(rt: HostRuntime) {
    holds(&rt, DAYS);
    holds_remembering(&rt, DAYS);
    holds_remembering_within(&rt, ONE, DAYS);
    holds_remembering_within(&rt, NO_DEBIT, DAYS);
}

// Reports whether a company's exposures on a day are answered.
fn is_answered(
    rt: &(impl Abort + Alloc<A = Global>),
    store: &mut Remembering<FaultyStore>,
    day: &str,
) -> bool {
    let company = Id::new(b"MILL01").ok().expect(rt, "a company");
    let today = Day::read(day.as_bytes()).expect(rt, "a day");
    store.exposures(rt.alloc(), company, today).is_ok()
}

// A call of the inner store that is refused, and days that are asked about before it: it is the next call.
// The first question reads the holidays and the open submissions from 2025-01-06 on. The submissions are
// read again when the first open day is after 2025-02-05.
const QUESTIONS: &[(u64, &[&str])] = &[
    (3, &["2025-01-08", "2025-01-08", "2025-01-10", "2025-02-07"]),
    (4, &["2025-01-08", "2025-02-10", "2025-02-10"]),
];

#[test]
fn open_submissions_are_read_once(rt: HostRuntime) {
    for (refused, days) in QUESTIONS {
        let lists = FaultyStore::new(new_lists(&rt), *refused);
        let mut store = Remembering::new(rt.alloc(), lists);
        for day in *days {
            assert!(&rt; is_answered(&rt, &mut store, day), "{refused} {day}");
        }
        assert!(&rt; store.suspense_count(rt.alloc()).is_err(), "{refused}");
    }
}

// Holidays and open submissions that could not be read are read at the next question. Without the
// holidays a question is not answered, and without the submissions the inner store answers it.
#[test]
fn what_could_not_be_read_is_read_again(rt: HostRuntime) {
    for refused in 1..=2 {
        let lists = FaultyStore::new(new_lists(&rt), refused);
        let mut store = Remembering::new(rt.alloc(), lists);
        assert!(&rt; is_answered(&rt, &mut store, "2025-01-08") == (refused == 2));
        assert!(&rt; is_answered(&rt, &mut store, "2025-01-08"));
        assert!(&rt; is_answered(&rt, &mut store, "2025-01-08"));
    }
}

const TWO_OPEN: Script = &[MILL, HOLIDAYS, DAY, PAY_1, PAY_2_SECOND];

// A company with more open submissions than are kept one by one is read once too: three questions read
// the holidays and the submissions once. The call after these is refused.
#[test]
fn a_large_company_is_read_once(rt: HostRuntime) {
    let mut desk = Desk::new(new_lists(&rt));
    assert!(&rt; !follow(&rt, &mut desk, TWO_OPEN));
    let lists = FaultyStore::new(desk.into_store(), 3);
    let mut store = Remembering::with_caps(rt.alloc(), lists, ONE);
    for _ in 0..3 {
        assert!(&rt; is_answered(&rt, &mut store, "2025-01-08"));
    }
    assert!(&rt; store.suspense_count(rt.alloc()).is_err());
}

// Reports whether a company's return rates on a day are answered.
fn has_rates(
    rt: &(impl Abort + Alloc<A = Global>),
    store: &mut Remembering<FaultyStore>,
    day: &str,
) -> bool {
    let company = Id::new(b"MILL01").ok().expect(rt, "a company");
    let today = Day::read(day.as_bytes()).expect(rt, "a day");
    store.rates(rt.alloc(), company, today).is_ok()
}

// The same for return rates. The first question reads the holidays, the open submissions and the rates.
// A later one of the same day reads nothing, and one of another day reads the rates alone. Rates are not
// kept if the open submissions could not be read.
const RATES: &[(u64, &[(&str, bool)])] = &[
    (
        1,
        &[
            ("2025-01-08", false),
            ("2025-01-08", true),
            ("2025-01-08", true),
            ("2025-01-08", true),
        ],
    ),
    (
        2,
        &[
            ("2025-01-08", true),
            ("2025-01-08", true),
            ("2025-01-08", true),
            ("2025-01-08", true),
        ],
    ),
    (
        3,
        &[
            ("2025-01-08", false),
            ("2025-01-08", true),
            ("2025-01-08", true),
            ("2025-01-08", true),
        ],
    ),
    (
        4,
        &[
            ("2025-01-08", true),
            ("2025-01-08", true),
            ("2025-01-09", false),
            ("2025-01-09", true),
        ],
    ),
    (
        5,
        &[
            ("2025-01-08", true),
            ("2025-01-09", true),
            ("2025-01-09", true),
            ("2025-01-08", false),
        ],
    ),
];

#[test]
fn rates_are_read_once_a_day(rt: HostRuntime) {
    for (refused, days) in RATES {
        let lists = FaultyStore::new(new_lists(&rt), *refused);
        let mut store = Remembering::new(rt.alloc(), lists);
        for (day, answered) in *days {
            assert!(&rt;
                has_rates(&rt, &mut store, day) == *answered,
                "{refused} {day}"
            );
        }
    }
}
