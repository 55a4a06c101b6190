//! The trials: a session, a new desk and a migration, each from the files that it begins with; and
//! the expected contents of files after they were cut off.
use super::exchanges::{add, add_answers, add_requests, add_second_answers};
use super::images::Image;
use super::limits::Both;
use super::scripts::{DAYS, Exchange, RETRIES, Script};
use super::tasks::Task;
use super::visits::{Visited, free_visit, visit};
use sql_setup::OpenFault;
use std::alloc::Global;
use std::process::Abort;

// Version 1 has neither table.
const TO_FIRST_VERSION: &str =
    "DROP TABLE authorizations; DROP TABLE numbers; UPDATE desk SET version = 1 WHERE id = 1";

/// The kind of a trial.
#[derive(Clone, Copy)]
pub(super) enum Kind {
    /// A desk answers the messages.
    Session,
    /// A desk is made.
    NewDesk,
    /// A desk of version 1, after all messages, becomes one of version 2.
    Migration,
}

/// A trial, and its files.
#[derive(Drop)]
pub(super) struct Trial {
    pub kind: Kind,
    pub script: Script,
    /// The files before.
    pub image: Image,
    /// The tables of a desk after each number of messages.
    pub tables: Vec<Vec<u8>>,
}

// Returns the output of the tasks, all of which are done.
fn output_of(rt: &(impl Abort + Alloc<A = Global>), image: &Image, tasks: &[Task<'_>]) -> Vec<u8> {
    let seen = free_visit(rt, image, tasks);
    assert!(rt; seen.fault.is_none());
    seen.told
}

// Returns the files after the tasks, all of which are done.
fn image_after(rt: &(impl Abort + Alloc<A = Global>), image: &Image, tasks: &[Task<'_>]) -> Image {
    let seen = free_visit(rt, image, tasks);
    assert!(rt; seen.is_closed);
    seen.written
}

fn add_tables(rt: &(impl Abort + Alloc<A = Global>), all: &mut Vec<Vec<u8>>, image: &Image) {
    let tables = output_of(rt, image, &[Task::Read]);
    all.push(tables).ok().expect(rt, "memory");
}

/// The bytes of the messages.
pub(super) fn requests(rt: &(impl Abort + Alloc<A = Global>), messages: &[Exchange]) -> Vec<u8> {
    let mut out = Vec::new(rt.alloc());
    add_requests(rt, &mut out, messages);
    out
}

// The tables of the desk in the files, and after each message.
fn course_of(
    rt: &(impl Abort + Alloc<A = Global>),
    image: &Image,
    messages: &[Exchange],
) -> Vec<Vec<u8>> {
    let mut all = Vec::new(rt.alloc());
    let mut image = image.copy(rt);
    add_tables(rt, &mut all, &image);
    for message in messages {
        let input = requests(rt, &[*message]);
        image = image_after(rt, &image, &[Task::Answer(&input)]);
        add_tables(rt, &mut all, &image);
    }
    all
}

// A new desk answers the messages.
fn session_of(rt: &(impl Abort + Alloc<A = Global>), script: Script) -> Trial {
    let image = image_after(rt, &Image::empty(rt), &[Task::Make]);
    let tables = course_of(rt, &image, script.messages);
    Trial {
        kind: Kind::Session,
        script,
        image,
        tables,
    }
}

/// A new desk answers the messages of some days.
pub(super) fn days(rt: &(impl Abort + Alloc<A = Global>)) -> Trial {
    session_of(rt, DAYS)
}

/// A new desk answers messages, one of which retries a debit.
pub(super) fn retries(rt: &(impl Abort + Alloc<A = Global>)) -> Trial {
    session_of(rt, RETRIES)
}

/// A desk is made at an empty path.
pub(super) fn new_desk(rt: &(impl Abort + Alloc<A = Global>)) -> Trial {
    let mut trial = session_of(
        rt,
        Script {
            messages: &[],
            accepted: &[],
            changes: 0,
        },
    );
    trial.kind = Kind::NewDesk;
    trial.image = Image::empty(rt);
    trial
}

// The files of a desk of version 1 that answered the messages.
fn image_of_first_version(
    rt: &(impl Abort + Alloc<A = Global>),
    image: &Image,
    input: &[u8],
) -> Image {
    let tasks = [Task::Answer(input), Task::Run(TO_FIRST_VERSION)];
    let image = image_after(rt, image, &tasks);
    let told = free_visit(rt, &image, &[Task::Check]).fault;
    assert!(rt; told == Some(OpenFault::WrongVersion(1)));
    image
}

/// A desk of version 1 is migrated.
pub(super) fn migration(rt: &(impl Abort + Alloc<A = Global>)) -> Trial {
    let mut trial = days(rt);
    let input = requests(rt, trial.script.messages);
    trial.kind = Kind::Migration;
    trial.image = image_of_first_version(rt, &trial.image, &input);
    trial
}

/// Makes the trial on files some of whose calls fail.
pub(super) fn attempt(
    rt: &(impl Abort + Alloc<A = Global>),
    trial: &Trial,
    limits: Both,
) -> Visited {
    match trial.kind {
        Kind::Session => {
            let input = requests(rt, trial.script.messages);
            visit(rt, &trial.image, limits, &[Task::Answer(&input)])
        }
        Kind::NewDesk => visit(rt, &trial.image, limits, &[Task::Make]),
        Kind::Migration => visit(rt, &trial.image, limits, &[Task::Migrate]),
    }
}

fn tables_at(trial: &Trial, count: usize) -> &[u8] {
    match trial.tables.get(count) {
        Some(tables) => tables,
        None => &[],
    }
}

// Returns the expected output of a desk that did the first messages, some of which were answered:
// its tables, the answers to the other messages and again to all accepted ones, and the tables
// after that.
fn expected_output(
    rt: &(impl Abort + Alloc<A = Global>),
    trial: &Trial,
    answered: usize,
    done: usize,
) -> Vec<u8> {
    let messages = trial.script.messages;
    let mut out = Vec::new(rt.alloc());
    add(rt, &mut out, tables_at(trial, done));
    add_second_answers(rt, &mut out, messages.get(answered..done).unwrap_or(&[]));
    add_answers(rt, &mut out, messages.get(done..).unwrap_or(&[]));
    add_answers(rt, &mut out, trial.script.accepted);
    add(rt, &mut out, tables_at(trial, messages.len()));
    out
}

// The tables, the answers to the messages, and the tables after them.
fn output_around(rt: &(impl Abort + Alloc<A = Global>), image: &Image, input: &[u8]) -> Vec<u8> {
    output_of(rt, image, &[Task::Read, Task::Answer(input), Task::Read])
}

// Returns the output of a desk that gets the messages that were not answered, and then again all
// accepted ones.
fn output_after(
    rt: &(impl Abort + Alloc<A = Global>),
    trial: &Trial,
    image: &Image,
    answered: usize,
) -> Vec<u8> {
    let mut input = requests(rt, trial.script.messages.get(answered..).unwrap_or(&[]));
    add_requests(rt, &mut input, trial.script.accepted);
    output_around(rt, image, &input)
}

/// The files have the tables after the messages that were answered, or after one more. From there on the
/// desk answers the messages that are left, and then once more, as the first time, all that it accepted.
/// Its tables are then those of a run in which nothing failed.
///
/// Was one message more done than answered?
pub(super) fn goes_on(
    rt: &(impl Abort + Alloc<A = Global>),
    trial: &Trial,
    image: &Image,
    answered: usize,
) -> bool {
    let found = output_after(rt, trial, image, answered);
    let is_ahead = found != expected_output(rt, trial, answered, answered);
    let next = answered.saturating_add(1);
    assert!(rt;
        !is_ahead || found == expected_output(rt, trial, answered, next),
        "{answered}"
    );
    is_ahead
}

// The one visit found the tables of a new desk, and the other this fault.
fn is_new_desk(trial: &Trial, one: &Visited, other: &Visited, fault: OpenFault) -> bool {
    one.fault.is_none() && one.told.as_slice() == tables_at(trial, 0) && other.fault == Some(fault)
}

// Reports whether the files have a desk. It has the tables of a new one; and so has one that is
// made there if there is none.
fn has_desk(rt: &(impl Abort + Alloc<A = Global>), trial: &Trial, image: &Image) -> bool {
    let found = free_visit(rt, image, &[Task::Check, Task::Read]);
    let made = free_visit(rt, image, &[Task::Make, Task::Read]);
    let is_there = is_new_desk(trial, &found, &made, OpenFault::Exists);
    assert!(rt; is_there || is_new_desk(trial, &made, &found, OpenFault::NotADesk));
    is_there
}

// The files have version 1 whole, and are migrated now, or version 2 whole. The desk then goes on. Was it
// version 2?
fn is_second(rt: &(impl Abort + Alloc<A = Global>), trial: &Trial, image: &Image) -> bool {
    let first = free_visit(rt, image, &[Task::Migrate]);
    let again = free_visit(rt, &first.written, &[Task::Migrate]).fault;
    assert!(rt; again == Some(OpenFault::WrongVersion(2)));
    assert!(rt; first.fault.is_none() || first.fault == again);
    assert!(rt; !goes_on(rt, trial, &first.written, trial.script.messages.len()));
    first.fault.is_some()
}

/// Checks the files after this many messages were answered, or a call failed. Reports whether more
/// was done than answered.
pub(super) fn is_ahead(
    rt: &(impl Abort + Alloc<A = Global>),
    trial: &Trial,
    image: &Image,
    answered: usize,
) -> bool {
    match trial.kind {
        Kind::Session => goes_on(rt, trial, image, answered),
        Kind::NewDesk => has_desk(rt, trial, image),
        Kind::Migration => is_second(rt, trial, image),
    }
}
