//! The words in which a script writes an answer.
use ach_fields::Ref;
use bank_days::Day;
use desk_core::{
    Answer, CallRefusal, ChangeRow, CompanyRisk, CompanyStatus, CutSummary, DayRates,
    DeskCompanies, DeskStatus, Exposure, Intake, ListOf, Outcome, Receipt, ReturnRow, Settlement,
    Statement, SubmissionReport, SuspenseRow, Tallies, Tally,
};
use desk_rules::{EntryState, Rate};
use std::alloc::Global;
use std::fmt::{Debug, Display, Write};
use std::process::Abort;

fn put(rt: &impl Abort, out: &mut String, text: &str) {
    out.push_str(text).ok().expect(rt, "memory");
}

fn put_bytes(rt: &impl Abort, out: &mut String, bytes: &[u8]) {
    put(
        rt,
        out,
        std::str::from_utf8(bytes).ok().expect(rt, "a text"),
    );
}

// Writes a number after a text. No other function formats numbers: each `write!` is expensive to
// prove.
fn put_number(rt: &impl Abort, out: &mut String, before: &str, number: &impl Display) {
    put(rt, out, before);
    write!(out, "{number}").ok().expect(rt, "memory");
}

// A value by the name that it has in the code.
fn put_name(rt: &impl Abort, out: &mut String, value: &impl Debug) {
    write!(out, "{value:?}").ok().expect(rt, "memory");
}

fn put_day(rt: &impl Abort, out: &mut String, day: Day) {
    put_bytes(rt, out, &day.text());
}

// Writes the submission and number of an entry.
fn put_place(rt: &impl Abort, out: &mut String, index: u64, reference: Ref) {
    put_number(rt, out, " ", &index);
    put(rt, out, " ");
    put_bytes(rt, out, reference.bytes());
}

fn receipt(rt: &impl Abort, out: &mut String, r: &Receipt) {
    put_bytes(rt, out, r.reference.bytes());
    put_number(rt, out, " order ", &r.order);
    put_number(rt, out, " entries ", &r.entries);
    put_number(rt, out, " cents ", &r.cents.get());
}

fn state(rt: &impl Abort, out: &mut String, state: EntryState) {
    match state {
        EntryState::Held => put(rt, out, "held"),
        EntryState::Lapsed => put(rt, out, "lapsed"),
        EntryState::Sent { settled } => {
            put(rt, out, "sent ");
            put_day(rt, out, settled.day());
        }
        EntryState::Returned {
            code,
            day,
            late,
            ..
        } => {
            put_bytes(rt, out, &code.text());
            put(rt, out, if late { " late " } else { " " });
            put_day(rt, out, day);
        }
    }
}

fn submission_report(rt: &impl Abort, out: &mut String, f: &SubmissionReport) {
    put_bytes(rt, out, f.reference.bytes());
    put_number(rt, out, " order ", &f.order);
    put(rt, out, " ");
    put_day(rt, out, f.day);
    for entry in f.entries.as_slice() {
        put_number(rt, out, "; ", &entry.index);
        put_number(rt, out, " ", &entry.cents.get());
        put(rt, out, " ");
        state(rt, out, entry.state);
    }
}

fn exposure(rt: &impl Abort, out: &mut String, e: &Exposure) {
    put_number(rt, out, "credit ", &e.credit);
    put_number(rt, out, " of ", &e.limits.credit);
    put_number(rt, out, ", debit ", &e.debit);
    put_number(rt, out, " of ", &e.limits.debit);
}

fn statement(rt: &impl Abort, out: &mut String, s: &Statement) {
    put_number(rt, out, "balance ", &s.balance);
    for line in s.lines.as_slice() {
        put_number(rt, out, "; ", &line.cents);
        put(rt, out, " ");
        put_day(rt, out, line.day);
        put_place(rt, out, line.index, line.reference);
    }
}

fn settlement(rt: &impl Abort, out: &mut String, s: &Settlement) {
    put_number(rt, out, "balance ", &s.balance);
    for sum in s.days.as_slice() {
        put_number(rt, out, "; ", &sum.cents);
        put(rt, out, " ");
        put_day(rt, out, sum.day);
    }
}

fn rate(rt: &impl Abort, out: &mut String, name: &str, rate: Rate) {
    put_number(rt, out, name, &rate.n);
    put_number(rt, out, " of ", &rate.d);
    put(rt, out, if rate.over { " over" } else { "" });
}

fn rates(rt: &impl Abort, out: &mut String, r: &DayRates) {
    rate(rt, out, "unauthorized ", r.rates.unauthorized);
    rate(rt, out, ", administrative ", r.rates.administrative);
    rate(rt, out, ", overall ", r.rates.overall);
}

fn cut(rt: &impl Abort, out: &mut String, c: &CutSummary) {
    put_day(rt, out, c.day);
    put_number(rt, out, " sent ", &c.entries);
    put(rt, out, " in [");
    put_bytes(rt, out, c.files.as_slice());
    put_number(rt, out, "], lapsed ", &c.lapsed);
}

fn intake(rt: &impl Abort, out: &mut String, i: &Intake) {
    put_day(rt, out, i.day);
    put_number(rt, out, " returns ", &i.returns);
    put_number(rt, out, " late ", &i.late);
    put_number(rt, out, " changes ", &i.changes);
    put_number(rt, out, " suspense ", &i.suspense);
}

// Of each return its code, day and place, and whether it was late.
fn returns(rt: &impl Abort, out: &mut String, rows: &ListOf<ReturnRow>) {
    put(rt, out, "returns");
    for row in rows.as_slice() {
        put(rt, out, "; ");
        put_bytes(rt, out, &row.code.text());
        put(rt, out, if row.late { " late " } else { " " });
        put_day(rt, out, row.day);
        put_place(rt, out, row.index, row.reference);
    }
}

fn changes(rt: &impl Abort, out: &mut String, rows: &ListOf<ChangeRow>) {
    put(rt, out, "changes");
    for row in rows.as_slice() {
        put(rt, out, "; ");
        put_bytes(rt, out, &row.code);
        put(rt, out, " ");
        put_day(rt, out, row.day);
        put_place(rt, out, row.index, row.reference);
        put(rt, out, " ");
        put_bytes(rt, out, row.text.trim_ascii_end());
    }
}

fn suspense(rt: &impl Abort, out: &mut String, rows: &ListOf<SuspenseRow>) {
    put(rt, out, "suspense");
    for row in rows.as_slice() {
        put_number(rt, out, "; ", &row.item);
        put_number(rt, out, " ", &row.cents.get());
        put(rt, out, " ");
        put_name(rt, out, &row.why);
    }
}

// How many submissions, and their cents.
fn tally(rt: &impl Abort, out: &mut String, tally: Tally) {
    put_number(rt, out, " ", &tally.submissions);
    put_number(rt, out, "/", &tally.cents);
}

// Of credits, then of debits.
fn tallies(rt: &impl Abort, out: &mut String, sums: Tallies) {
    tally(rt, out, sums.credits);
    tally(rt, out, sums.debits);
}

fn company_status(rt: &impl Abort, out: &mut String, s: &CompanyStatus) {
    put(rt, out, "; ");
    put_bytes(rt, out, s.id.bytes());
    put(rt, out, " held");
    tallies(rt, out, s.held);
    put_number(rt, out, " lapsing ", &s.lapsing);
    for due in s.due.as_slice() {
        put(rt, out, ", ");
        put_day(rt, out, due.day);
        tallies(rt, out, due.sums);
    }
}

fn status(rt: &impl Abort, out: &mut String, s: &DeskStatus) {
    match s.day {
        Some(day) => put_day(rt, out, day),
        None => put(rt, out, "no day"),
    }
    put(rt, out, ", files [");
    put_bytes(rt, out, s.files.as_slice());
    put_number(rt, out, "], suspense ", &s.suspense);
    put_number(rt, out, ", holidays ", &s.holidays);
    put_number(rt, out, ", sent ", &s.sent);
    put_number(rt, out, ", due files ", &s.due_files);
    put_number(rt, out, " records ", &s.due_records);
    put_number(rt, out, ", held records ", &s.held_records);
    for company in s.companies.as_slice() {
        company_status(rt, out, company);
    }
}

fn company_risk(rt: &impl Abort, out: &mut String, risk: &CompanyRisk) {
    put(rt, out, "; ");
    put_bytes(rt, out, risk.id.bytes());
    put(rt, out, " ");
    put_bytes(rt, out, risk.name.bytes());
    put_number(rt, out, ", entry ", &risk.exposure.limits.entry);
    put(rt, out, ", ");
    exposure(rt, out, &risk.exposure);
    put(rt, out, ", ");
    rates(rt, out, &risk.rates);
}

fn companies(rt: &impl Abort, out: &mut String, all: &DeskCompanies) {
    put_day(rt, out, all.day);
    for risk in all.companies.as_slice() {
        company_risk(rt, out, risk);
    }
}

fn company_done(rt: &impl Abort, out: &mut String, done: &Outcome) {
    match done {
        Outcome::Submitted(made) => receipt(rt, out, made),
        Outcome::Found(Some(row)) => submission_report(rt, out, row),
        Outcome::Returns(rows) => returns(rt, out, rows),
        Outcome::Changes(rows) => changes(rt, out, rows),
        Outcome::Statement(made) => statement(rt, out, made),
        Outcome::Rates(made) => rates(rt, out, made),
        Outcome::Exposure(made) => exposure(rt, out, made),
        _ => operator_done(rt, out, done),
    }
}

fn operator_done(rt: &impl Abort, out: &mut String, done: &Outcome) {
    match done {
        Outcome::Day(set) => put_day(rt, out, *set),
        Outcome::Holidays(count) => put_number(rt, out, "holidays ", count),
        Outcome::Company(id) => put_bytes(rt, out, id.bytes()),
        Outcome::Cut(made) => cut(rt, out, made),
        Outcome::Taken(counts) => intake(rt, out, counts),
        Outcome::File(Some(text)) => put_bytes(rt, out, text.as_slice()),
        Outcome::Settlement(made) => settlement(rt, out, made),
        Outcome::Suspense(rows) => suspense(rt, out, rows),
        Outcome::Status(made) => status(rt, out, made),
        Outcome::Companies(made) => companies(rt, out, made),
        _ => put(rt, out, "none"),
    }
}

/// Gives an answer in words.
pub(super) fn words_of(rt: &(impl Abort + Alloc<A = Global>), answer: &Answer) -> String {
    let mut out = String::new(rt.alloc());
    match answer {
        Answer::Done(done) => company_done(rt, &mut out, done),
        Answer::Refused(CallRefusal::Rule(why)) => put(rt, &mut out, why.name().text()),
        Answer::Refused(CallRefusal::BadFile(fault)) => {
            put_name(rt, &mut out, &fault.kind);
            put_number(rt, &mut out, " at record ", &fault.at);
        }
        Answer::Refused(CallRefusal::BadCalendar(fault)) => put_name(rt, &mut out, fault),
    }
    out
}
