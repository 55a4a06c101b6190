//! Reads of a store, each with what it has to find.
use super::samples::{company, entry, return_row, sent_entry, suspense_row, taken_file};
use crate::samples::{day, id, identity, reference, rule_day};
use ach_fields::{Id, Trace};
use bank_days::Day;
use desk_accounts::Account;
use desk_book::{Caller, NamedEntry};
use desk_rules::{Company, EntryState, Limits, RuleDay};
use desk_store::Store;
use std::alloc::Global;
use std::process::Abort;

/// A company, a day, a reference or a trace.
pub(super) type Text = &'static [u8];

/// The state of an entry.
#[derive(Clone, Copy)]
pub(super) enum State {
    Held,
    /// Sent, to settle on 2025-01-10.
    Sent,
    /// The sample return came after that.
    Returned,
}

/// A read, and its expected result.
#[derive(Clone, Copy)]
pub(super) enum Read {
    /// The sample bank.
    Identity,
    /// The key of a company; of the operator where none is named.
    Key(Option<Text>, Option<[u8; 32]>),
    Day(Option<Text>),
    Holidays(&'static [Text]),
    /// A company with its limits.
    Company(Text, Option<Limits>),
    /// A company's one submission, whose first entry is so.
    State(Text, State),
    /// A company's submission with a reference: the sample entry alone, if it is there.
    Submission(Text, Text, bool),
    /// The number of held submissions; the company of the first.
    Held(usize, Option<Text>),
    LastSequence(u32),
    SentCount(u64),
    /// From one sequence to another, the latest day.
    Settled(u32, u32, Option<Text>),
    /// A trace names the entry with this sequence and settlement day, and whether it is returned.
    Sent(Text, Option<(u32, Text, bool)>),
    FilesOn(Text, u64),
    File(Text, u8, Option<Text>),
    /// A company's account has one line, of these cents.
    Line(Text, i64),
    /// The sums of a company's account; of the operator's where none is named.
    Balances(Option<Text>, &'static [(Text, i128)]),
    /// A company has the sample return, and no change.
    Return(Text),
    /// The sample row, if it is there.
    Suspense(bool),
    SuspenseCount(u64),
    /// The sample file under a key of one byte, if it is there.
    Taken(u8, bool),
}

fn caller(rt: &impl Abort, company: Option<Text>) -> Caller {
    match company {
        Some(name) => Caller::Company(id(rt, name)),
        None => Caller::Operator,
    }
}

fn account(rt: &impl Abort, company: Option<Text>) -> Account {
    match company {
        Some(name) => Account::Company(id(rt, name)),
        None => Account::Operator,
    }
}

fn days(rt: &(impl Abort + Alloc<A = Global>), texts: &[Text]) -> Vec<Day> {
    let mut days = Vec::new(rt.alloc());
    for text in texts {
        days.push(day(rt, text)).ok().expect(rt, "memory");
    }
    days
}

fn sums(rt: &(impl Abort + Alloc<A = Global>), rows: &[(Text, i128)]) -> Vec<(Day, i128)> {
    let mut sums = Vec::new(rt.alloc());
    for (text, sum) in rows {
        sums.push((day(rt, text), *sum)).ok().expect(rt, "memory");
    }
    sums
}

fn entry_state(rt: &impl Abort, state: State) -> EntryState {
    let settled = rule_day(rt, b"2025-01-10");
    let row = return_row(rt);
    match state {
        State::Held => EntryState::Held,
        State::Sent => EntryState::Sent { settled },
        State::Returned => EntryState::Returned {
            settled,
            code: row.code,
            day: row.day,
            late: row.late,
        },
    }
}

fn holidays<S: Store>(rt: &(impl Abort + Alloc<A = Global>), store: &mut S) -> Vec<Day> {
    let calendar = store.calendar(rt.alloc()).ok().expect(rt, "holidays");
    Vec::from_slice(rt.alloc(), calendar.holidays())
        .ok()
        .expect(rt, "memory")
}

// Returns the state of a company's first entry, if the company has one submission.
fn only_state<S: Store>(
    rt: &(impl Abort + Alloc<A = Global>),
    store: &mut S,
    company: Text,
) -> Option<EntryState> {
    let rows = store
        .entries_of(rt.alloc(), id(rt, company))
        .ok()
        .expect(rt, "rows");
    match rows.as_slice() {
        [row] => row.states.as_slice().first().copied(),
        _ => None,
    }
}

// Is there a submission? It has the sample entry alone.
fn has_submission<S: Store>(
    rt: &(impl Abort + Alloc<A = Global>),
    store: &mut S,
    company: Text,
    name: Text,
) -> bool {
    let found = store.submission(rt.alloc(), id(rt, company), reference(rt, name));
    match found.ok().expect(rt, "an answer") {
        Some(row) => {
            let entries = row.content.submission().entries.as_slice();
            assert!(rt; entries == [entry(rt)].as_slice());
            true
        }
        None => false,
    }
}

// How many submissions are held, and the company of the first.
fn held_submissions<S: Store>(
    rt: &(impl Abort + Alloc<A = Global>),
    store: &mut S,
) -> (usize, Option<Id>) {
    let rows = store.waiting(rt.alloc()).ok().expect(rt, "rows");
    let first = match rows.first() {
        Some(first) => Some(first.company.id),
        None => None,
    };
    (rows.len(), first)
}

// Returns the entry that a trace names, after a text that is not a trace.
fn traced_entry<S: Store>(
    rt: &(impl Abort + Alloc<A = Global>),
    store: &mut S,
    trace: &[u8],
) -> Option<NamedEntry> {
    let trace = Trace::parse(trace).ok().expect(rt, "a trace");
    let found = store.traced_entries(rt.alloc(), [None, Some(trace)].as_slice());
    let found = found.ok().expect(rt, "an answer");
    assert!(rt; found.len() == 2 && found[0] == None);
    found[1]
}

fn has_file<S: Store>(
    rt: &(impl Abort + Alloc<A = Global>),
    store: &mut S,
    text: Text,
    modifier: u8,
    wanted: Option<Text>,
) -> bool {
    let found = store.file(rt.alloc(), day(rt, text), modifier);
    match (found.ok().expect(rt, "an answer"), wanted) {
        (Some(text), Some(wanted)) => text.as_slice() == wanted,
        (None, None) => true,
        _ => false,
    }
}

// The cents of the one line of a company's account.
fn only_line<S: Store>(
    rt: &(impl Abort + Alloc<A = Global>),
    store: &mut S,
    company: Text,
) -> Option<i64> {
    let lines = store
        .postings_of(rt.alloc(), Account::Company(id(rt, company)))
        .ok()
        .expect(rt, "lines");
    match lines.as_slice() {
        [line] => Some(line.cents),
        _ => None,
    }
}

fn balances<S: Store>(
    rt: &(impl Abort + Alloc<A = Global>),
    store: &mut S,
    company: Option<Text>,
) -> Vec<(Day, i128)> {
    store
        .balances_of(rt.alloc(), account(rt, company))
        .ok()
        .expect(rt, "sums")
}

fn has_return<S: Store>(
    rt: &(impl Abort + Alloc<A = Global>),
    store: &mut S,
    company: Text,
) -> bool {
    let items = store
        .items_of(rt.alloc(), id(rt, company))
        .ok()
        .expect(rt, "items");
    items.changes.as_slice().is_empty() && items.returns.as_slice() == [return_row(rt)].as_slice()
}

// Does the suspense have the sample row alone? Else it is empty.
fn has_suspense<S: Store>(rt: &(impl Abort + Alloc<A = Global>), store: &mut S) -> bool {
    let rows = store.suspense(rt.alloc()).ok().expect(rt, "rows");
    assert!(rt; rows.is_empty() || rows.as_slice() == [suspense_row(rt)].as_slice());
    !rows.is_empty()
}

// Is a file taken under a key of this byte? It is the sample file.
fn has_taken<S: Store>(rt: &(impl Abort + Alloc<A = Global>), store: &mut S, byte: u8) -> bool {
    let found = store
        .taken(rt.alloc(), [byte; 21])
        .ok()
        .expect(rt, "an answer");
    assert!(rt; found.is_none() || found == Some(taken_file(rt)));
    found.is_some()
}

fn maybe_id(rt: &impl Abort, name: Option<Text>) -> Option<Id> {
    match name {
        Some(name) => Some(id(rt, name)),
        None => None,
    }
}

fn maybe_day(rt: &impl Abort, text: Option<Text>) -> Option<Day> {
    match text {
        Some(text) => Some(day(rt, text)),
        None => None,
    }
}

fn maybe_rule_day(rt: &impl Abort, text: Option<Text>) -> Option<RuleDay> {
    match text {
        Some(text) => Some(rule_day(rt, text)),
        None => None,
    }
}

fn maybe_company(rt: &impl Abort, name: Text, limits: Option<Limits>) -> Option<Company> {
    match limits {
        Some(limits) => Some(Company {
            limits,
            ..company(rt, name)
        }),
        None => None,
    }
}

fn maybe_named(rt: &impl Abort, wanted: Option<(u32, Text, bool)>) -> Option<NamedEntry> {
    match wanted {
        Some((sequence, settled, returned)) => Some(NamedEntry {
            entry: sent_entry(rt, sequence, settled),
            returned,
        }),
        None => None,
    }
}

/// Is what the store gives so?
pub(super) fn finds<S: Store>(
    rt: &(impl Abort + Alloc<A = Global>),
    store: &mut S,
    read: Read,
) -> bool {
    let alloc = rt.alloc();
    match read {
        Read::Identity => store.identity(alloc) == Ok(identity(rt)),
        Read::Key(name, key) => store.key_of(alloc, caller(rt, name)) == Ok(key),
        Read::Day(text) => store.day(alloc) == Ok(maybe_rule_day(rt, text)),
        Read::Holidays(texts) => holidays(rt, store) == days(rt, texts),
        Read::Company(name, limits) => {
            store.company(alloc, id(rt, name)) == Ok(maybe_company(rt, name, limits))
        }
        Read::State(name, wanted) => only_state(rt, store, name) == Some(entry_state(rt, wanted)),
        Read::Submission(name, text, is_there) => {
            has_submission(rt, store, name, text) == is_there
        }
        Read::Held(count, first) => held_submissions(rt, store) == (count, maybe_id(rt, first)),
        Read::LastSequence(wanted) => store.last_sequence(alloc) == Ok(wanted),
        Read::SentCount(wanted) => store.sent_count(alloc) == Ok(wanted),
        Read::Settled(from, to, text) => {
            store.latest_settled(alloc, from, to) == Ok(maybe_day(rt, text))
        }
        Read::Sent(trace, wanted) => { traced_entry(rt, store, trace) == maybe_named(rt, wanted) }
        Read::FilesOn(text, count) => store.files_on(alloc, day(rt, text)) == Ok(count),
        Read::File(text, modifier, wanted) => has_file(rt, store, text, modifier, wanted),
        Read::Line(name, wanted) => only_line(rt, store, name) == Some(wanted),
        Read::Balances(name, rows) => balances(rt, store, name) == sums(rt, rows),
        Read::Return(name) => has_return(rt, store, name),
        Read::Suspense(is_there) => has_suspense(rt, store) == is_there,
        Read::SuspenseCount(wanted) => store.suspense_count(alloc) == Ok(wanted),
        Read::Taken(byte, is_there) => has_taken(rt, store, byte) == is_there,
    }
}
