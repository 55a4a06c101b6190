//! A store is written to and read from here: two companies with a submission each, a cut of one,
//! and its return.
use super::reads::{Read, State};
use super::samples::{OPERATOR_KEY, new_store};
use super::steps::{Step, hold, take_all};
use super::writes::Write;
use desk_rules::Limits;

const MILL: &[u8] = b"MILL01";

const BAKE: &[u8] = b"BAKE01";

/// The limits of the sample companies.
pub(super) const LIMITS: Limits = Limits {
    entry: 1,
    credit: 2,
    debit: 3,
};

const EMPTY: &[Step] = &[
    Step::Read(Read::Identity),
    Step::Read(Read::Key(None, Some(OPERATOR_KEY))),
    Step::Read(Read::Key(Some(MILL), None)),
    Step::Read(Read::Day(None)),
    Step::Read(Read::Holidays(&[])),
    Step::Read(Read::LastSequence(0)),
    Step::Read(Read::SentCount(0)),
    Step::Read(Read::Held(0, None)),
    Step::Read(Read::Suspense(false)),
    Step::Read(Read::SuspenseCount(0)),
];

#[test]
fn a_new_store_is_empty(rt: HostRuntime) {
    hold(&rt, EMPTY);
}

// Two companies with a submission each; the one that comes later in the order of identifications is
// registered first.
const COMPANIES: &[Step] = &[
    Step::Write(Write::Day(b"2025-01-09")),
    Step::Write(Write::Holidays(b"2025-01-20")),
    Step::Write(Write::Company(MILL)),
    Step::Write(Write::Company(BAKE)),
    Step::Write(Write::Submission(MILL)),
    Step::Write(Write::Submission(BAKE)),
];

const OTHER_LIMITS: Limits = Limits {
    entry: 4,
    credit: 5,
    debit: 6,
};

const SUBMITTED: &[Step] = &[
    Step::Read(Read::Day(Some(b"2025-01-09"))),
    Step::Read(Read::Holidays(&[b"2025-01-20"])),
    Step::Read(Read::Company(MILL, Some(LIMITS))),
    Step::Read(Read::Key(Some(MILL), Some([1; 32]))),
    Step::Write(Write::Limits(MILL, OTHER_LIMITS)),
    Step::Read(Read::Company(MILL, Some(OTHER_LIMITS))),
    Step::Read(Read::State(MILL, State::Held)),
    Step::Read(Read::Submission(MILL, b"PAY-2", true)),
    Step::Read(Read::Submission(MILL, b"PAY-1", false)),
    Step::Read(Read::Held(2, Some(BAKE))),
];

#[test]
fn companies_and_submissions(rt: HostRuntime) {
    let mut store = new_store(&rt);
    take_all(&rt, &mut store, COMPANIES);
    take_all(&rt, &mut store, SUBMITTED);
}

const CUT: &[Step] = &[
    Step::Write(Write::Cut),
    Step::Read(Read::State(MILL, State::Sent)),
    Step::Read(Read::State(BAKE, State::Held)),
    Step::Read(Read::Held(1, Some(BAKE))),
    Step::Read(Read::LastSequence(1)),
    Step::Read(Read::SentCount(1)),
    Step::Read(Read::Settled(1, 1, Some(b"2025-01-10"))),
    Step::Read(Read::Settled(2, 9, None)),
    Step::Read(Read::Sent(b"121042880000001", Some((1, b"2025-01-10", false)))),
    Step::Read(Read::Sent(b"061000140000001", None)),
    Step::Read(Read::FilesOn(b"2025-01-09", 1)),
    Step::Read(Read::FilesOn(b"2025-01-10", 0)),
    Step::Read(Read::File(b"2025-01-09", b'A', Some(b"101"))),
    Step::Read(Read::File(b"2025-01-09", b'B', None)),
    Step::Read(Read::Line(MILL, 2500)),
];

const INTAKE: &[Step] = &[
    Step::Write(Write::Intake),
    Step::Read(Read::State(MILL, State::Returned)),
    Step::Read(Read::Sent(b"121042880000001", Some((1, b"2025-01-10", true)))),
    Step::Read(Read::Return(MILL)),
    Step::Read(Read::Suspense(true)),
    Step::Read(Read::SuspenseCount(1)),
    Step::Read(Read::Taken(b'K', true)),
    Step::Read(Read::Taken(b'L', false)),
    Step::Read(Read::Balances(None, &[(b"2025-01-10", -2500), (b"2025-01-14", 5000)])),
];

#[test]
fn a_cut_and_an_incoming_file(rt: HostRuntime) {
    let mut store = new_store(&rt);
    take_all(&rt, &mut store, COMPANIES);
    take_all(&rt, &mut store, CUT);
    take_all(&rt, &mut store, INTAKE);
}

const AMOUNTS: &[Step] = &[
    Step::Write(Write::Amount(MILL, 2500, b"2025-01-14")),
    Step::Write(Write::Amount(MILL, 100, b"2025-01-10")),
    Step::Write(Write::Amount(BAKE, 7, b"2025-01-10")),
    Step::Write(Write::Amount(MILL, 1, b"2025-01-14")),
    Step::Write(Write::Amount(MILL, 30, b"2025-01-13")),
    Step::Read(Read::Balances(
        Some(MILL),
        &[
            (b"2025-01-10", 100),
            (b"2025-01-13", 30),
            (b"2025-01-14", 2501),
        ],
    )),
    Step::Read(Read::Balances(Some(BAKE), &[(b"2025-01-10", 7)])),
    Step::Read(Read::Balances(
        None,
        &[
            (b"2025-01-10", -107),
            (b"2025-01-13", -30),
            (b"2025-01-14", -2501),
        ],
    )),
];

#[test]
fn value_days_come_in_any_order(rt: HostRuntime) {
    hold(&rt, AMOUNTS);
}
