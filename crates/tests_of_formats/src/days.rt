ghost use Rattle.std.specs.Prelude.{◌≤◌};

use bank_days::CalendarFault::{BadRow, NotAscending, TooMany};
use bank_days::{Calendar, CalendarFault, Day};
use std::alloc::Global;
use std::process::Abort;
use std::test::Fail;

fn day(rt: &impl Abort, text: &[u8]) -> Day
    ensures { result ≤ 47_481 }
{
    Day::read(text).expect(rt, "a day")
}

fn calendar(rt: &(impl Abort + Alloc<A = Global>), text: &[u8]) -> Calendar {
    Calendar::read(rt.alloc(), text).expect(rt, "a holiday list")
}

fn fault(rt: &impl Alloc<A = Global>, text: &[u8]) -> Option<CalendarFault> {
    Calendar::read(rt.alloc(), text).err()
}

#[test]
fn days_have_numbers_and_texts(rt: HostRuntime) {
    let days = [
        (b"2000-01-01", b"000101", 10_957),
        (b"2000-02-29", b"000229", 11_016),
        (b"2024-02-29", b"240229", 19_782),
        (b"2025-01-10", b"250110", 20_098),
        (b"2096-12-31", b"961231", 46_386),
        (b"2099-12-31", b"991231", 47_481),
    ];
    for (text, ymd, number) in days {
        let day = day(&rt, text);
        assert!(rt; day.number() == number);
        assert!(rt; day.text() == *text, "day {number}");
        assert!(rt; day.ymd().print() == *ymd, "day {number}");
        assert!(rt; Day::from_number(number) == Some(day));
    }
}

#[test]
fn other_texts_and_numbers_name_no_day(rt: HostRuntime) {
    let texts = [
        b"1999-12-31",
        b"2100-01-01",
        b"2025-02-29",
        b"2025-04-31",
        b"2025-00-10",
        b"2025-13-10",
        b"2025-01-00",
        b"2025-1-016",
        b"2025/01/16",
        b"2O25-01-16",
    ];
    for text in texts {
        assert!(rt; Day::read(text).is_none(), "{text:?}");
    }
    assert!(rt; Day::read(b"2025-01-16 ").is_none());
    for number in [-1, 10_956, 48_212] {
        assert!(rt; Day::from_number(number).is_none());
    }
}

#[test]
fn banking_days_are_counted(rt: HostRuntime) {
    let calendar = calendar(&rt, b"2025-01-20\n");
    let thursday = day(&rt, b"2025-01-16");
    assert!(rt; calendar.nth_after(thursday, 1) == day(&rt, b"2025-01-17"));
    assert!(rt; calendar.nth_after(thursday, 2) == day(&rt, b"2025-01-21"));
    assert!(rt; calendar.roll(thursday) == thursday);
    let saturday = day(&rt, b"2025-01-18");
    assert!(rt; calendar.roll(saturday) == day(&rt, b"2025-01-21"));
    assert!(rt; !calendar.is_banking(saturday));
    let settled = day(&rt, b"2025-01-17");
    assert!(rt; calendar.nth_after(settled, 2) == day(&rt, b"2025-01-22"));
    let settled = day(&rt, b"2025-01-10");
    assert!(rt; calendar.next(settled.plus(60)) == day(&rt, b"2025-03-12"));
    assert!(rt; Calendar::empty(rt.alloc()).next(saturday) == day(&rt, b"2025-01-20"));
}

#[test]
fn rows_are_judged_in_turn(rt: HostRuntime) {
    let texts = [
        (b"2025-01-20\n2025-01-20\n".as_slice(), NotAscending(2)),
        (b"2025-02-30\n", BadRow(1)),
        (b"2025-01-20\n2025-01-19\n2025-02-30", NotAscending(2)),
        (b"holiday\n2025-01-20\n", BadRow(1)),
        (b"\n2025-01-20,\n", BadRow(1)),
        (b"2025-01-20\n \n", BadRow(2)),
        (b"2025-01-20\n\"\"\n", BadRow(2)),
        (b"2025-01-20\n2025-01-21,2025-01-22\n", BadRow(2)),
        (b"2099-12-31\n2100-01-01\n", BadRow(2)),
    ];
    for (text, wanted) in texts {
        assert!(rt; fault(&rt, text) == Some(wanted));
    }
}

#[test]
fn csv_decides_what_a_row_is(rt: HostRuntime) {
    let text = b"\xEF\xBB\xBF\n\r\n\"2025-01-20\"\r2025-02-17\n\n2099-01-01\n\"2099-12-31";
    let days = [
        day(&rt, b"2025-01-20"),
        day(&rt, b"2025-02-17"),
        day(&rt, b"2099-01-01"),
        day(&rt, b"2099-12-31"),
    ];
    assert!(rt; calendar(&rt, text).holidays() == days.as_slice());
    assert!(rt; calendar(&rt, b"").holidays().is_empty());
}

#[test]
fn lists_have_at_most_400_days(rt: HostRuntime) -> Result<(), Fail> {
    let mut text = Vec::new(rt.alloc());
    for number in 10_957..11_357 {
        let day = Day::from_number(number).expect(&rt, "a day");
        text.extend_from_slice(&day.text())?;
        text.push(b'\n')?;
    }
    let full = calendar(&rt, &text);
    assert!(rt; full.holidays().len() == 400);
    let copy = full.try_clone(rt.alloc())?;
    assert!(rt; copy.holidays() == full.holidays());
    let again = Calendar::from_days(rt.alloc(), full.holidays()).expect(&rt, "a holiday list");
    assert!(rt; again.holidays() == full.holidays());
    text.extend_from_slice(b"2025-01-20\n")?;
    assert!(rt; fault(&rt, &text) == Some(TooMany));
    Ok(())
}
