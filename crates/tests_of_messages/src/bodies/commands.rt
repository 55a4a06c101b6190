//! The bodies of commands' answers.
use super::{cents, day, list, reference, says};
use ach_fields::Id;
use desk_history::{CutSummary, Intake, Outcome, Receipt};

const ACCEPTED: &[u8] = b">{\"cents\":150000,\"entries\":1,\"order\":1,\"ref\":\"PAY-1\"}";

#[test]
fn an_accepted_submission(rt: HostRuntime) {
    let receipt = Receipt {
        cents: cents(&rt, 150_000),
        entries: 1,
        order: 1,
        reference: reference(&rt, b"PAY-1"),
    };
    says(&rt, Outcome::Submitted(receipt), ACCEPTED);
    assert!(rt; ACCEPTED.len() == 53);
}

#[test]
fn settings(rt: HostRuntime) {
    let day = Outcome::Day(day(&rt, b"2025-01-08"));
    says(&rt, day, b">{\"day\":\"2025-01-08\"}");
    says(&rt, Outcome::Holidays(400), b">{\"holidays\":400}");
    let company = Outcome::Company(Id::new(b"MILL01").expect(&rt, "MILL01"));
    says(&rt, company, b">{\"id\":\"MILL01\"}");
}

/// The entries and the lapsed retries of a cut, its files, and what is said of it.
const CUTS: &[(u64, u64, &[u8], &[u8])] = &[
    (
        1,
        0,
        b"A",
        b">{\"day\":\"2025-01-08\",\"entries\":1,\"files\":[\"A\"],\"lapsed\":0}",
    ),
    (
        0,
        2,
        b"",
        b">{\"day\":\"2025-01-08\",\"entries\":0,\"files\":[],\"lapsed\":2}",
    ),
    (
        37,
        0,
        b"Z01",
        b">{\"day\":\"2025-01-08\",\"entries\":37,\"files\":[\"Z\",\"0\",\"1\"],\"lapsed\":0}",
    ),
    // With all files of a day, and numbers of twenty digits.
    (
        u64::MAX,
        u64::MAX,
        b"ABCDEFGHIJKLMNOPQRSTUVWXYZ0123456789",
        b">{\"day\":\"2025-01-08\",\"entries\":18446744073709551615,\"files\":[\"A\",\"B\",\"C\",\"D\",\"E\",\"F\",\"G\",\"H\",\"I\",\"J\",\"K\",\"L\",\"M\",\"N\",\"O\",\"P\",\"Q\",\"R\",\"S\",\"T\",\"U\",\"V\",\"W\",\"X\",\"Y\",\"Z\",\"0\",\"1\",\"2\",\"3\",\"4\",\"5\",\"6\",\"7\",\"8\",\"9\"],\"lapsed\":18446744073709551615}",
    ),
];

#[test]
fn cuts(rt: HostRuntime) {
    for &(entries, lapsed, files, body) in CUTS {
        let cut = CutSummary {
            day: day(&rt, b"2025-01-08"),
            entries,
            files: list(&rt, files),
            lapsed,
        };
        says(&rt, Outcome::Cut(cut), body);
    }
}

#[test]
fn a_file_that_was_taken(rt: HostRuntime) {
    let intake = Intake {
        changes: 0,
        day: day(&rt, b"2025-01-14"),
        late: 0,
        returns: 1,
        suspense: 0,
    };
    let body = b">{\"changes\":0,\"day\":\"2025-01-14\",\"late\":0,\"returns\":1,\"suspense\":0}";
    says(&rt, Outcome::Taken(intake), body);
}
