//! Trials that are cut off at each call of a file in turn.
use super::exchanges::count_answers;
use super::limits::{Harm, Which, limits_of};
use super::tears::{garbage_of, half_of_write};
use super::trials::{Trial, attempt, days, is_ahead, migration, new_desk, retries};
use super::visits::Visited;
use std::alloc::Global;
use std::process::Abort;

/// Fewer calls of a file are made.
const MOST_CALLS: u64 = 20_000;

/// The findings.
#[derive(Clone, Copy)]
struct Findings {
    /// The number of file pairs, left by a process, in which more was done than answered, and of
    /// those in which it was not. Unchanged files count once.
    ahead: u64,
    behind: u64,
    /// The number of messages found done and not answered; the last one counts.
    unanswered: usize,
    last: Option<usize>,
    /// The number of torn writes.
    torn: usize,
    /// The number of times that it was cut off.
    times: usize,
}

impl Findings {
    const NONE: Findings = Findings {
        ahead: 0,
        behind: 0,
        unanswered: 0,
        last: None,
        torn: 0,
        times: 0,
    };

    fn note(&mut self, answered: usize, is_ahead: bool) {
        if !is_ahead {
            self.behind = self.behind.saturating_add(1);
            return;
        }
        self.ahead = self.ahead.saturating_add(1);
        if self.last != Some(answered) {
            self.unanswered = self.unanswered.saturating_add(1);
            self.last = Some(answered);
        }
    }
}

// The state before any call.
fn first_visit(rt: &(impl Abort + Alloc<A = Global>), trial: &Trial) -> Visited {
    Visited {
        told: Vec::new(rt.alloc()),
        fault: None,
        is_closed: false,
        written: trial.image.copy(rt),
        synced: trial.image.copy(rt),
        refusals: 0,
    }
}

// The files are as they have to be where a process ended and where a machine stopped, unless they are what
// was found last.
fn look(
    rt: &(impl Abort + Alloc<A = Global>),
    trial: &Trial,
    last: &Visited,
    now: &Visited,
    findings: &mut Findings,
) {
    let answered = count_answers(rt, trial.script.messages, &now.told);
    let is_told = last.told == now.told;
    if !(is_told && now.written.is(&last.written)) {
        let is_ahead = is_ahead(rt, trial, &now.written, answered);
        findings.note(answered, is_ahead);
    }
    if !(is_told && now.synced.is(&last.synced)) {
        let _ = is_ahead(rt, trial, &now.synced, answered);
    }
}

// They are so too where this file has these bytes.
fn look_at_file(
    rt: &(impl Abort + Alloc<A = Global>),
    trial: &Trial,
    which: Which,
    last: &Visited,
    bytes: &[u8],
) {
    let answered = count_answers(rt, trial.script.messages, &last.told);
    let image = last.written.with(rt, which, bytes);
    let _ = is_ahead(rt, trial, &image, answered);
}

// They are so too where the write of this file between the two was torn. Was there one?
fn look_at_tears(
    rt: &(impl Abort + Alloc<A = Global>),
    trial: &Trial,
    which: Which,
    last: &Visited,
    now: &Visited,
) -> bool {
    let old = last.written.file(which);
    let new = now.written.file(which);
    if old == new {
        return false;
    }
    look_at_file(rt, trial, which, last, &half_of_write(rt, old, new));
    look_at_file(rt, trial, which, last, &garbage_of(rt, old, new));
    true
}

// The files before are so too.
fn begin(rt: &(impl Abort + Alloc<A = Global>), trial: &Trial) -> Findings {
    let mut findings = Findings::NONE;
    let is_ahead = is_ahead(rt, trial, &trial.image, 0);
    findings.note(0, is_ahead);
    findings
}

// The files are as they have to be after each number of calls, or writes, that the file bears.
fn bear(
    rt: &(impl Abort + Alloc<A = Global>),
    trial: &Trial,
    which: Which,
    harm: Harm,
) -> Findings {
    let mut findings = begin(rt, trial);
    let mut last = first_visit(rt, trial);
    for number in 0..MOST_CALLS {
        let now = attempt(rt, trial, limits_of(which, harm, number));
        look(rt, trial, &last, &now, &mut findings);
        if matches!(harm, Harm::Stops) && look_at_tears(rt, trial, which, &last, &now) {
            findings.torn = findings.torn.saturating_add(1);
        }
        if now.is_closed && now.refusals == 0 {
            return findings;
        }
        findings.times = findings.times.saturating_add(1);
        last = now;
    }
    panic!(rt; "it takes more calls")
}

// A message is written to the log before it is synced there, and answered after.
fn log_stops(rt: &(impl Abort + Alloc<A = Global>), trial: &Trial) {
    let found = bear(rt, trial, Which::Log, Harm::Stops);
    assert!(rt; found.unanswered == trial.script.changes);
    assert!(rt; found.torn >= trial.script.changes);
}

#[test]
fn the_log_stops(rt: HostRuntime) {
    log_stops(&rt, &days(&rt));
}

#[test]
fn the_database_file_stops(rt: HostRuntime) {
    let found = bear(&rt, &days(&rt), Which::Db, Harm::Stops);
    assert!(rt; found.torn > 0);
}

#[test]
fn the_log_stops_while_a_debit_is_tried_again(rt: HostRuntime) {
    log_stops(&rt, &retries(&rt));
}

#[test]
fn the_database_file_stops_while_a_debit_is_tried_again(rt: HostRuntime) {
    let found = bear(&rt, &retries(&rt), Which::Db, Harm::Stops);
    assert!(rt; found.torn > 0);
}

// A desk is closed after it was made or migrated, which takes calls of both files.
fn stops(rt: &(impl Abort + Alloc<A = Global>), trial: &Trial, which: Which) {
    let found = bear(rt, trial, which, Harm::Stops);
    assert!(rt; found.ahead > 1 && found.behind > 0 && found.torn > 0);
}

#[test]
fn a_file_of_a_new_desk_stops(rt: HostRuntime) {
    let trial = new_desk(&rt);
    stops(&rt, &trial, Which::Log);
    stops(&rt, &trial, Which::Db);
}

#[test]
fn a_file_stops_while_a_desk_is_migrated(rt: HostRuntime) {
    let trial = migration(&rt);
    stops(&rt, &trial, Which::Log);
    stops(&rt, &trial, Which::Db);
}

// Checks a file that has no room for one write, or for none after it, at least this many times.
fn has_no_room(rt: &(impl Abort + Alloc<A = Global>), trial: &Trial, which: Which, least: usize) {
    let once = bear(rt, trial, which, Harm::HasNoRoom(1));
    let ever = bear(rt, trial, which, Harm::HasNoRoom(u64::MAX));
    assert!(rt; once.times >= least);
    assert!(rt; once.times == ever.times);
}

// Each message that changes something is written to the log.
#[test]
fn a_file_has_no_room(rt: HostRuntime) {
    let trial = days(&rt);
    has_no_room(&rt, &trial, Which::Log, trial.script.changes);
    has_no_room(&rt, &trial, Which::Db, 1);
}
