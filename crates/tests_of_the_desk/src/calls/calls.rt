//! Calls are made from words here: who calls, what is asked, and with what.
use super::incoming::incoming;
use ach_fields::{Id, Ref};
use bank_days::Day;
use desk_core::{Call, ListOf};
use desk_rules::{
    CompanyDraft, Draft, DraftText, EntryDraft, EntryDrafts, LimitDrafts, LimitsDraft, Optional,
    RetryDraft,
};
use std::alloc::Global;
use std::process::Abort;

/// This is the digest of each company's key.
pub(super) const COMPANY_DIGEST: [u8; 32] = [1; 32];

// The word with this number; empty where there are fewer.
fn word(line: &str, number: usize) -> &str {
    line.split(' ').nth(number).unwrap_or("")
}

// Returns the text after the first two words.
fn after_two_words(line: &str) -> &str {
    line.splitn(3, ' ').nth(2).unwrap_or("")
}

fn number(rt: &impl Abort, word: &str) -> u64 {
    word.parse::<u64>().ok().expect(rt, "a number")
}

fn draft_text(rt: &(impl Abort + Alloc<A = Global>), word: &str) -> DraftText {
    DraftText::from_slice(rt.alloc(), word.as_bytes())
        .ok()
        .expect(rt, "memory")
}

fn text(rt: &(impl Abort + Alloc<A = Global>), word: &str) -> Option<DraftText> {
    Some(draft_text(rt, word))
}

fn id(rt: &impl Abort, word: &str) -> Id {
    Id::new(word.as_bytes()).ok().expect(rt, "a company")
}

// The text, which is left out where it is empty.
fn optional(rt: &(impl Abort + Alloc<A = Global>), text: &str) -> Optional<DraftText> {
    if text.is_empty() {
        Optional::Absent
    } else {
        Optional::Given(draft_text(rt, text))
    }
}

// The part of an item with this number; empty where there are fewer.
fn part(item: &str, number: usize) -> &str {
    item.splitn(4, '/').nth(number).unwrap_or("")
}

// Of an entry the bank, the kind of account, the cents and the information. An item is
// `ROUTING/KIND/CENTS[/INFORMATION]`; where it is `CENTS[*COUNT]` the line has the bank.
fn fields<'a>(line: &'a str, item: &'a str) -> [&'a str; 4] {
    if item.contains('/') {
        [part(item, 0), part(item, 1), part(item, 2), part(item, 3)]
    } else {
        let cents = item.split('*').next().unwrap_or("");
        [word(line, 5), "checking", cents, ""]
    }
}

// Returns the number of entries that an item represents.
fn count(rt: &impl Abort, item: &str) -> u64 {
    if item.contains('/') {
        1
    } else {
        number(rt, item.split('*').nth(1).unwrap_or("1"))
    }
}

// Returns an entry; without cents it is a prenote.
fn entry(rt: &(impl Abort + Alloc<A = Global>), fields: [&str; 4]) -> EntryDraft {
    let [routing, kind, cents, info] = fields;
    let cents = number(rt, cents);
    EntryDraft {
        routing: text(rt, routing),
        account: text(rt, "123456789"),
        kind: text(rt, kind),
        prenote: Optional::Given(cents == 0),
        cents: Some(cents),
        id: text(rt, "E1"),
        name: text(rt, "ANN LEE"),
        info: optional(rt, info),
    }
}

fn add_entries(
    rt: &(impl Abort + Alloc<A = Global>),
    entries: &mut Vec<Option<EntryDraft>>,
    line: &str,
    item: &str,
) {
    for _ in 0..count(rt, item) {
        let entry = entry(rt, fields(line, item));
        entries.push(Some(entry)).ok().expect(rt, "memory");
    }
}

// Reads the items after the first six words.
fn entries(rt: &(impl Abort + Alloc<A = Global>), line: &str) -> EntryDrafts {
    let mut entries = Vec::new(rt.alloc());
    for item in line.split(' ').skip(6) {
        add_entries(rt, &mut entries, line, item);
    }
    EntryDrafts::new(entries)
}

// `COMPANY submit REFERENCE DIRECTION DAY ROUTING CENTS[*COUNT] ..` in the class PPD, or
// `COMPANY enter REFERENCE DIRECTION DAY SEC ROUTING/KIND/CENTS[/INFORMATION] ..`
fn draft(rt: &(impl Abort + Alloc<A = Global>), line: &str, sec: &str) -> Draft {
    let debit = word(line, 3) == "debit";
    Draft {
        reference: text(rt, word(line, 2)),
        sec: text(rt, sec),
        direction: text(rt, word(line, 3)),
        description: text(rt, if debit { "DUES" } else { "PAYROLL" }),
        day: text(rt, word(line, 4)),
        entries: Some(entries(rt, line)),
    }
}

// `COMPANY retry REFERENCE OF INDEX DAY [AUTHORIZED]`
fn retry(rt: &(impl Abort + Alloc<A = Global>), line: &str) -> RetryDraft {
    RetryDraft {
        reference: text(rt, word(line, 2)),
        of: text(rt, word(line, 3)),
        index: Some(number(rt, word(line, 4))),
        day: text(rt, word(line, 5)),
        authorized: optional(rt, word(line, 6)),
    }
}

// Behind the third word: `ENTRY CREDIT DEBIT`.
fn limits(rt: &impl Abort, line: &str) -> LimitDrafts {
    LimitDrafts {
        entry: Some(number(rt, word(line, 3))),
        credit: Some(number(rt, word(line, 4))),
        debit: Some(number(rt, word(line, 5))),
    }
}

// The name of a company.
fn name(company: &str) -> &str {
    match company {
        "MILL01" => "MILL STREET",
        "BAKE01" => "BAKERY",
        _ => "ABLE TOOLS",
    }
}

fn company(rt: &(impl Abort + Alloc<A = Global>), line: &str) -> CompanyDraft {
    CompanyDraft {
        id: text(rt, word(line, 2)),
        name: text(rt, name(word(line, 2))),
        key: text(rt, "mill-street-key"),
        limits: limits(rt, line),
        digest: COMPANY_DIGEST,
    }
}

fn new_limits(rt: &(impl Abort + Alloc<A = Global>), line: &str) -> LimitsDraft {
    LimitsDraft {
        id: text(rt, word(line, 2)),
        limits: limits(rt, line),
    }
}

fn bytes(rt: &(impl Abort + Alloc<A = Global>), text: &str) -> ListOf<u8> {
    let bytes = Vec::from_slice(rt.alloc(), text.as_bytes())
        .ok()
        .expect(rt, "memory");
    ListOf::new(bytes)
}

// `desk file DAY MODIFIER`
fn file(rt: &impl Abort, line: &str) -> Call {
    let day = Day::read(word(line, 2).as_bytes()).expect(rt, "a day");
    let modifier = word(line, 3).as_bytes().first().expect(rt, "a modifier");
    Call::FileText(day, *modifier)
}

fn operator_call(rt: &(impl Abort + Alloc<A = Global>), line: &str) -> Call {
    match word(line, 1) {
        "company" => Call::PutCompany(company(rt, line)),
        "limits" => Call::PutLimits(new_limits(rt, line)),
        "day" => Call::SetDay(text(rt, word(line, 2))),
        "holidays" => Call::SetHolidays(bytes(rt, after_two_words(line))),
        "items" => Call::TakeFile(ListOf::new(incoming(rt, line))),
        "take" => Call::TakeFile(bytes(rt, after_two_words(line))),
        "cut" => Call::Cut,
        "file" => file(rt, line),
        "settlement" => Call::Settlement,
        "status" => Call::Status,
        "companies" => Call::Companies,
        _ => Call::SuspenseItems,
    }
}

fn company_call(rt: &(impl Abort + Alloc<A = Global>), company: Id, line: &str) -> Call {
    match word(line, 1) {
        "submit" => Call::Submit(company, draft(rt, line, "PPD")),
        "enter" => Call::Submit(company, draft(rt, line, word(line, 5))),
        "retry" => Call::Retry(company, retry(rt, line)),
        "look" => {
            let reference = Ref::new(word(line, 2).as_bytes());
            Call::LookUp(company, reference.ok().expect(rt, "a reference"))
        }
        "returns" => Call::ReturnsOf(company),
        "changes" => Call::ChangesOf(company),
        "statement" => Call::StatementOf(company),
        "rates" => Call::RatesOf(company),
        _ => Call::ExposureOf(company),
    }
}

/// Gives the call of a line: `desk` or a company, and what is asked.
pub(super) fn call_of(rt: &(impl Abort + Alloc<A = Global>), line: &str) -> Call {
    match word(line, 0) {
        "desk" => operator_call(rt, line),
        company => company_call(rt, id(rt, company), line),
    }
}
