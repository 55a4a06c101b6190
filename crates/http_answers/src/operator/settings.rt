//! The bodies of what the operator sets.
ghost use Rattle.std.specs.Prelude.{◌≤◌, ◌+◌, vec_len, vec_capacity};
ghost use Rattle.http_json.specs.Gains.{GainsValue};
ghost use Rattle.http_answers.specs.Operator.{day_body, holidays_body, company_body};

use ach_fields::Id;
use bank_days::Day;
use http_json::{put, put_number, put_text};

/// Appends the body of a new desk day.
pub(crate) fn put_day(text: &mut Vec<u8>, day: Day)
    requires { vec_len text.old + 640 ≤ vec_capacity text.old }
    ensures items { GainsValue text.old text.new (day_body day) }
    ensures len { vec_len text.new ≤ vec_len text.old + 640 }
{
    put(text, b"{");
    put_text(text, false, b"day", &day.text());
    put(text, b"}");
}

/// Appends the body of a new holiday list.
pub(crate) fn put_holidays(text: &mut Vec<u8>, holidays: u64)
    requires { vec_len text.old + 640 ≤ vec_capacity text.old }
    ensures items { GainsValue text.old text.new (holidays_body holidays) }
    ensures len { vec_len text.new ≤ vec_len text.old + 640 }
{
    put(text, b"{");
    put_number(text, false, b"holidays", holidays);
    put(text, b"}");
}

/// Appends the body of a company that was registered, or whose limits were set.
pub(crate) fn put_company(text: &mut Vec<u8>, id: &Id)
    requires { vec_len text.old + 640 ≤ vec_capacity text.old }
    ensures items { GainsValue text.old text.new (company_body id.now) }
    ensures len { vec_len text.new ≤ vec_len text.old + 640 }
{
    put(text, b"{");
    put_text(text, false, b"id", id.bytes());
    put(text, b"}");
}
