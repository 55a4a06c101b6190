//! The names of refusals.
use super::code;
use desk_rules::{Field, Refusal, RefusalName};

#[test]
fn refusals_have_numbers_names_and_statuses(rt: HostRuntime) {
    let bad = Refusal::BadField {
        field: Field::Day,
        index: 0,
    };
    let stopped = Refusal::NotRetryable(code(&rt, b"R08"));
    let rows = [
        (Refusal::NoDay.name(), 1, b"NoDay".as_slice(), 409),
        (bad.name(), 2, b"BadField", 422),
        (Refusal::RefReused.name(), 3, b"RefReused", 409),
        (Refusal::DateRange.name(), 6, b"DateRange", 422),
        (stopped.name(), 12, b"NotRetryable", 409),
        (RefusalName::BadCalendar, 28, b"BadCalendar", 422),
    ];
    for (name, number, text, status) in rows {
        assert!(rt; name.number() == number);
        assert!(rt; name.text().as_bytes() == text, "{number}");
        assert!(rt; name.status() == status, "{number}");
    }
}
