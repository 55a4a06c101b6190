//! The body of the desk's status.
ghost use Rattle.std.specs.Prelude.{◌≤◌, ◌+◌, ◌*◌, codes, false, length, true, OnOk, vec_len, vec_capacity};
ghost use Rattle.http_json.specs.Gains.{GainsMember, GainsValue};
ghost use Rattle.http_answers.specs.Lists.{GainsRow, GainsRows};
ghost use Rattle.http_answers.specs.Operator.{modifier_body};
ghost use Rattle.http_answers.specs.Status.{companies_body, company_status_body, day_or_null, due_body, status_body, tallies_body, tally_body};

use crate::list::{ROW_ROOM, Row, add_list};
use bank_days::Day;
use desk_history::{CompanyStatus, DeskStatus, DueDay, ListOf, Tallies, Tally};
use emptying_lists::EmptyingList;
use http_json::{put, put_comma, put_decimal, put_key, put_number, put_quoted, put_text};
use std::alloc::AllocError;

/// Appends the body of the desk's status.
pub(crate) fn add_status(text: &mut Vec<u8>, status: DeskStatus) -> Result<(), AllocError>
    ensures { OnOk result (GainsValue text.old text.new (status_body status)) }
{
    text.push(b'{')?;
    add_companies(text, status.companies)?;
    text.reserve(ROW_ROOM)?;
    put_desk_day(text, status.day);
    put_number(text, true, b"due_files", status.due_files);
    put_number(text, true, b"due_records", status.due_records);
    add_list(text, true, b"files", status.files)?;
    text.reserve(ROW_ROOM)?;
    put_number(text, true, b"held_records", status.held_records);
    put_number(text, true, b"holidays", status.holidays);
    put_number(text, true, b"sent", status.sent);
    put_number(text, true, b"suspense", status.suspense);
    put(text, b"}");
    Ok(())
}

// The desk day, and null before the first.
#[tactic(auto, unfolding(http_json::specs::Members::member_text))]
fn put_desk_day(text: &mut Vec<u8>, day: Option<Day>)
    requires { vec_len text.old + 100 ≤ vec_capacity text.old }
    ensures items { GainsMember text.old text.new true (codes "day") (day_or_null day) }
    ensures len { vec_len text.new ≤ vec_len text.old + 100 }
    ensures capacity { vec_capacity text.old ≤ vec_capacity text.new }
{
    match day {
        Some(day) => put_text(text, true, b"day", &day.text()),
        None => {
            put_key(text, true, b"day");
            put(text, b"null");
        }
    }
}

// The modifier of a file of the day.
impl Row for u8 {
    ghost body = { modifier_body };

    fn put(&self, text: &mut Vec<u8>) {
        put_quoted(text, &[*self]);
    }
}

#[tactic(auto, unfolding(http_json::specs::Members::member_text))]
fn add_companies(text: &mut Vec<u8>, companies: ListOf<CompanyStatus>) -> Result<(), AllocError>
    ensures { OnOk result
        (GainsMember text.old text.new false (codes "companies") (companies_body companies)) }
{
    text.reserve(ROW_ROOM)?;
    put_key(text, false, b"companies");
    put(text, b"[");
    add_each(text, EmptyingList::new(companies.into_vec()))
}

// With the closing bracket.
fn add_each(text: &mut Vec<u8>, companies: EmptyingList<CompanyStatus>) -> Result<(), AllocError>
    ensures { OnOk result (GainsRows text.old text.new company_status_body companies) }
{
    let mut left = companies;
    let mut later = false;
    while let Some(company) = left.take_first() {
        add_company_behind(text, later, company)?;
        later = true;
    }
    text.push(b']')?;
    Ok(())
}

fn add_company_behind(
    text: &mut Vec<u8>,
    later: bool,
    company: CompanyStatus,
) -> Result<(), AllocError>
    ensures { OnOk result (GainsRow text.old text.new later (company_status_body company)) }
{
    text.reserve(ROW_ROOM)?;
    put_comma(text, later);
    add_company(text, company)
}

fn add_company(text: &mut Vec<u8>, company: CompanyStatus) -> Result<(), AllocError>
    ensures { OnOk result (GainsValue text.old text.new (company_status_body company)) }
{
    text.push(b'{')?;
    add_list(text, false, b"due", company.due)?;
    text.reserve(ROW_ROOM)?;
    put_held(text, &company.held);
    text.reserve(ROW_ROOM)?;
    put_text(text, true, b"id", company.id.bytes());
    put_number(text, true, b"lapsing", company.lapsing);
    put_text(text, true, b"name", company.name.bytes());
    put(text, b"}");
    Ok(())
}

#[tactic(auto, unfolding(http_json::specs::Members::member_text))]
fn put_held(text: &mut Vec<u8>, held: &Tallies)
    requires { vec_len text.old + 1_024 ≤ vec_capacity text.old }
    ensures { GainsMember text.old text.new true (codes "held") (tallies_body held.now) }
{
    put_key(text, true, b"held");
    put_tallies(text, held);
}

fn put_tallies(text: &mut Vec<u8>, sums: &Tallies)
    requires { vec_len text.old + 840 ≤ vec_capacity text.old }
    ensures { GainsValue text.old text.new (tallies_body sums.now) }
{
    put(text, b"{");
    put_tally(text, false, b"credits", &sums.credits);
    put_tally(text, true, b"debits", &sums.debits);
    put(text, b"}");
}

// A member whose value is a count with its cents.
#[tactic(auto, unfolding(http_json::specs::Members::member_text))]
fn put_tally(text: &mut Vec<u8>, later: bool, key: &[u8], tally: &Tally)
    requires { vec_len text.old + (6 * length key.now + 372) ≤ vec_capacity text.old }
    ensures items { GainsMember text.old text.new later key.now (tally_body tally.now) }
    ensures len { vec_len text.new ≤ vec_len text.old + (6 * length key.now + 372) }
    ensures capacity { vec_capacity text.old ≤ vec_capacity text.new }
{
    put_key(text, later, key);
    put_tally_object(text, tally);
}

fn put_tally_object(text: &mut Vec<u8>, tally: &Tally)
    requires { vec_len text.old + 368 ≤ vec_capacity text.old }
    ensures items { GainsValue text.old text.new (tally_body tally.now) }
    ensures len { vec_len text.new ≤ vec_len text.old + 368 }
    ensures capacity { vec_capacity text.old ≤ vec_capacity text.new }
{
    put(text, b"{");
    put_decimal(text, false, b"cents", tally.cents);
    put_number(text, true, b"submissions", tally.submissions);
    put(text, b"}");
}

impl Row for DueDay {
    ghost body = { due_body };

    fn put(&self, text: &mut Vec<u8>) {
        put(text, b"{");
        put_tally(text, false, b"credits", &self.sums.credits);
        put_text(text, true, b"day", &self.day.text());
        put_tally(text, true, b"debits", &self.sums.debits);
        put(text, b"}");
    }
}
