//! The body of all companies' exposures, limits and return rates.
ghost use Rattle.std.specs.Prelude.{◌≤◌, ◌+◌, codes, true, OnOk, vec_len, vec_capacity};
ghost use Rattle.http_json.specs.Gains.{GainsMember, GainsValue};
ghost use Rattle.http_answers.specs.Companies.{companies_body, risk_body, risk_rates_body};

use crate::company::put_rate;
use crate::list::{ROW_ROOM, Row, add_list};
use desk_history::{CompanyRisk, DayRates, DeskCompanies};
use http_json::{put, put_decimal, put_key, put_number, put_text};
use std::alloc::AllocError;

/// Appends the body of all companies' exposures, limits and return rates.
pub(crate) fn add_companies(text: &mut Vec<u8>, all: DeskCompanies) -> Result<(), AllocError>
    ensures { OnOk result (GainsValue text.old text.new (companies_body all)) }
{
    text.push(b'{')?;
    add_list(text, false, b"companies", all.companies)?;
    text.reserve(ROW_ROOM)?;
    put_text(text, true, b"day", &all.day.text());
    put(text, b"}");
    Ok(())
}

impl Row for CompanyRisk {
    ghost body = { risk_body };

    fn put(&self, text: &mut Vec<u8>) {
        let limits = &self.exposure.limits;
        put(text, b"{");
        put_decimal(text, false, b"credit", self.exposure.credit);
        put_number(text, true, b"credit_limit", limits.credit);
        put_decimal(text, true, b"debit", self.exposure.debit);
        put_number(text, true, b"debit_limit", limits.debit);
        put_number(text, true, b"entry_limit", limits.entry);
        put_text(text, true, b"id", self.id.bytes());
        put_text(text, true, b"name", self.name.bytes());
        put_rates(text, &self.rates);
        put(text, b"}");
    }
}

#[tactic(auto, unfolding(http_json::specs::Members::member_text))]
fn put_rates(text: &mut Vec<u8>, rates: &DayRates)
    requires { vec_len text.old + 546 ≤ vec_capacity text.old }
    ensures items { GainsMember text.old text.new true (codes "rates") (risk_rates_body rates.now) }
    ensures len { vec_len text.new ≤ vec_len text.old + 546 }
    ensures capacity { vec_capacity text.old ≤ vec_capacity text.new }
{
    put_key(text, true, b"rates");
    put_rates_object(text, rates);
}

fn put_rates_object(text: &mut Vec<u8>, rates: &DayRates)
    requires { vec_len text.old + 512 ≤ vec_capacity text.old }
    ensures items { GainsValue text.old text.new (risk_rates_body rates.now) }
    ensures len { vec_len text.new ≤ vec_len text.old + 512 }
    ensures capacity { vec_capacity text.old ≤ vec_capacity text.new }
{
    put(text, b"{");
    put_rate(text, false, b"administrative", &rates.rates.administrative);
    put_rate(text, true, b"overall", &rates.rates.overall);
    put_rate(text, true, b"unauthorized", &rates.rates.unauthorized);
    put(text, b"}");
}
