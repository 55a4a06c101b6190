//! A store that refuses one call.
use super::calls::LIMITS;
use super::reads::Read;
use super::samples::new_store;
use super::steps::{Step, take_all};
use super::writes::{Write, carry_out};
use faulty_store::FaultyStore;

// Which call is refused; which of three calls are answered; the day, and the limits of the company, after
// them.
const ROWS: [(u64, [bool; 3], &[u8], bool); 5] = [
    (0, [true, true, true], b"2025-01-09", true),
    (1, [false, true, true], b"2025-01-09", true),
    (2, [true, false, true], b"2025-01-09", false),
    (3, [true, true, false], b"2025-01-08", true),
    (4, [true, true, true], b"2025-01-09", true),
];

#[test]
fn one_call_is_refused(rt: HostRuntime) {
    for (refused, answered, day, is_registered) in ROWS {
        let mut faulty = FaultyStore::new(new_store(&rt), refused);
        let given = [
            carry_out(&rt, &mut faulty, Write::Day(b"2025-01-08")).is_ok(),
            carry_out(&rt, &mut faulty, Write::Company(b"MILL01")).is_ok(),
            carry_out(&rt, &mut faulty, Write::Day(b"2025-01-09")).is_ok(),
        ];
        assert!(rt; given == answered, "{refused}");
        let limits = if is_registered { Some(LIMITS) } else { None };
        let found = [
            Step::Read(Read::Day(Some(day))),
            Step::Read(Read::Company(b"MILL01", limits)),
        ];
        take_all(&rt, &mut faulty.into_inner(), &found);
    }
}
