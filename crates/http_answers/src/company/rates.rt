//! The body of a company's return rates.
ghost use Rattle.std.specs.Prelude.{◌≤◌, ◌+◌, ◌*◌, length, true, false, OnOk, vec_len, vec_capacity};
ghost use Rattle.http_json.specs.Gains.{GainsMember, GainsValue};
ghost use Rattle.http_answers.specs.Company.{rate_body, rates_body};

use crate::list::ROW_ROOM;
use desk_history::DayRates;
use desk_rules::Rate;
use http_json::{put, put_key, put_text, put_whole};
use std::alloc::AllocError;

/// Appends the body of a company's return rates.
pub(crate) fn add_rates(text: &mut Vec<u8>, rates: &DayRates) -> Result<(), AllocError>
    ensures { OnOk result (GainsValue text.old text.new (rates_body rates.now)) }
{
    text.reserve(ROW_ROOM)?;
    put(text, b"{");
    put_rate(text, false, b"administrative", &rates.rates.administrative);
    put_text(text, true, b"day", &rates.day.text());
    put_rate(text, true, b"overall", &rates.rates.overall);
    put_rate(text, true, b"unauthorized", &rates.rates.unauthorized);
    put(text, b"}");
    Ok(())
}

/// Writes a member whose value is a rate.
#[tactic(auto, unfolding(http_json::specs::Members::member_text))]
pub(crate) fn put_rate(text: &mut Vec<u8>, later: bool, key: &[u8], rate: &Rate)
    requires { vec_len text.old + (6 * length key.now + 104) ≤ vec_capacity text.old }
    ensures items { GainsMember text.old text.new later key.now (rate_body rate.now) }
    ensures len { vec_len text.new ≤ vec_len text.old + (6 * length key.now + 104) }
    ensures capacity { vec_capacity text.old ≤ vec_capacity text.new }
{
    put_key(text, later, key);
    put_rate_object(text, rate);
}

fn put_rate_object(text: &mut Vec<u8>, rate: &Rate)
    requires { vec_len text.old + 100 ≤ vec_capacity text.old }
    ensures items { GainsValue text.old text.new (rate_body rate.now) }
    ensures len { vec_len text.new ≤ vec_len text.old + 100 }
    ensures capacity { vec_capacity text.old ≤ vec_capacity text.new }
{
    put(text, b"{\"d\":");
    put_whole(text, rate.d);
    put(text, b",\"n\":");
    put_whole(text, rate.n);
    if rate.over {
        put(text, b",\"over\":true}");
    } else {
        put(text, b",\"over\":false}");
    }
}
