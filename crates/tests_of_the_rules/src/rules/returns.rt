//! Codes of returns, their deadlines, and the return rates.
use super::{calendar, code};
use crate::samples::{cents, day, rule_day};
use desk_rules::TimeClass::{SixtyDays, TwoBankingDays, Unlimited};
use desk_rules::{
    EntryFact, EntryState, Level, Rate, Rates, ReturnCode, deadline, exceeds, is_late, rates,
};

#[test]
fn codes_are_r01_to_r29(rt: HostRuntime) {
    for (text, number) in [(b"R01", 1), (b"R09", 9), (b"R10", 10), (b"R29", 29)] {
        let code = code(&rt, text);
        assert!(rt; code.number() == number);
        assert!(rt; code.text() == *text);
    }
    for text in [b"R00", b"R30", b"R99", b"C01", b"r01", b"R 1"] {
        assert!(rt; ReturnCode::parse(text).is_none(), "{text:?}");
    }
}

// R01 to R29 in turn: 2 for two banking days, 6 for sixty days, a dash for no limit.
#[test]
fn each_code_has_a_time_class(rt: HostRuntime) {
    let classes = b"22226-622662-2222--222-2----2";
    for number in 1..30 {
        let class = classes[usize::from(number) - 1];
        let code = code(&rt, &[b'R', b'0' + number / 10, b'0' + number % 10]);
        let wanted = match class {
            b'2' => TwoBankingDays,
            b'6' => SixtyDays,
            _ => Unlimited,
        };
        assert!(rt; code.time_class() == wanted, "R{number}");
    }
}

#[test]
fn a_return_after_its_deadline_is_late(rt: HostRuntime) {
    let calendar = calendar(&rt);
    // Code, settlement, the last day in time, the next one.
    let rows = [
        (b"R01", b"2025-01-17", b"2025-01-22", b"2025-01-23"),
        (b"R29", b"2025-01-17", b"2025-01-22", b"2025-01-23"),
        (b"R10", b"2025-01-10", b"2025-03-12", b"2025-03-13"),
    ];
    for (text, settled, last, next) in rows {
        let code = code(&rt, text);
        let settled = rule_day(&rt, settled);
        let last = day(&rt, last);
        assert!(rt;
            deadline(code, settled, &calendar) == Some(last),
            "{text:?}"
        );
        assert!(rt; !is_late(code, settled, last, &calendar), "{text:?}");
        assert!(rt;
            is_late(code, settled, day(&rt, next), &calendar),
            "{text:?}"
        );
    }
    let any_time = code(&rt, b"R06");
    let settled = rule_day(&rt, b"2025-01-10");
    assert!(rt; deadline(any_time, settled, &calendar).is_none());
    assert!(rt; !is_late(any_time, settled, day(&rt, b"2099-12-31"), &calendar));
}

#[test]
fn rates_are_compared_by_products(rt: HostRuntime) {
    let rows = [
        (Level::Unauthorized, 1, 200, false),
        (Level::Unauthorized, 2, 399, true),
        (Level::Unauthorized, 0, 0, false),
        (Level::Unauthorized, 1, 0, true),
        (Level::Administrative, 3, 100, false),
        (Level::Administrative, 3, 99, true),
        (Level::Overall, 15, 100, false),
        (Level::Overall, 15, 99, true),
        (Level::Overall, u64::MAX, u64::MAX, true),
    ];
    for (level, n, d, over) in rows {
        assert!(rt; exceeds(level, n, d) == over, "{n} of {d}");
    }
}

// The 60 days that end on 2025-03-10 begin on 2025-01-10.
#[test]
fn rates_count_live_debits_of_sixty_days(rt: HostRuntime) {
    let (first, before) = (b"2025-01-10", b"2025-01-09");
    let last = b"2025-03-10";
    let today = day(&rt, last);
    let sent = |settled| EntryState::Sent {
        settled: rule_day(&rt, settled),
    };
    let returned = |settled, text, taken| EntryState::Returned {
        settled: rule_day(&rt, settled),
        code: code(&rt, text),
        day: day(&rt, taken),
        late: false,
    };
    let rows = [
        (true, false, sent(first)),
        (true, false, sent(before)),
        (true, false, returned(before, b"R29", first)),
        (true, false, returned(before, b"R29", before)),
        (true, false, returned(last, b"R02", last)),
        (true, true, returned(last, b"R02", last)),
        (false, false, returned(last, b"R02", last)),
        (true, false, EntryState::Held),
        (true, false, EntryState::Lapsed),
    ];
    let facts = rows.map(|(debit, prenote, state)| EntryFact {
        debit,
        prenote,
        cents: cents(&rt, 2_500),
        state,
    });
    let over = |n| Rate {
        n,
        d: 2,
        over: true,
    };
    let wanted = Rates {
        unauthorized: over(1),
        administrative: over(1),
        overall: over(2),
    };
    assert!(rt; rates(&facts, today) == wanted);
    let none = Rate {
        n: 0,
        d: 0,
        over: false,
    };
    assert!(rt; rates(&[], today).overall == none);
}
