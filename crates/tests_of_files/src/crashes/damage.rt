//! Files of a desk that lost or changed what was written to them.
use super::images::{Image, copy};
use super::limits::Which;
use super::tasks::Task;
use super::trials::{Trial, days, requests};
use super::visits::free_visit;
use std::alloc::Global;
use std::process::Abort;

/// A file has fewer places that are damaged.
const MOST_PLACES: usize = 20_000;

/// A change to a file at a place.
#[derive(Clone, Copy)]
enum Damage {
    /// The file ends at the place.
    Cut,
    /// The byte there is changed.
    Change,
}

/// The result of opening damaged files.
#[derive(Clone, Copy, PartialEq, Eq)]
enum Outcome {
    /// They are not opened as a desk.
    Refused,
    /// They have the tables after this many of the messages.
    After(usize),
}

/// The counts of each result.
#[derive(Clone, Copy)]
struct Counts {
    refused: u64,
    /// They have the tables after some of the messages.
    behind: u64,
    /// They have the tables after all messages.
    right: u64,
}

const PAGE: usize = 4_096;

// Returns the size of the file's head, and that of a page with its head.
fn layout_of(which: Which) -> (usize, usize) {
    match which {
        Which::Log => (32, 24 + PAGE),
        Which::Db => (0, PAGE),
    }
}

// The place with this number: a file is cut before each page and in the middle of each, and a byte of each
// page is changed, each at another place of its page.
fn place_of(which: Which, damage: Damage, number: usize) -> usize {
    let (before, size) = layout_of(which);
    let from = match damage {
        Damage::Cut => number.saturating_mul(size / 2),
        Damage::Change => {
            let within = number.saturating_mul(97) % PAGE;
            number.saturating_mul(size).saturating_add(within)
        }
    };
    before.saturating_add(from)
}

fn with_damage(
    rt: &(impl Abort + Alloc<A = Global>),
    bytes: &[u8],
    damage: Damage,
    place: usize,
) -> Vec<u8> {
    let mut out = copy(rt, bytes);
    match damage {
        Damage::Cut => out.truncate(place),
        Damage::Change => {
            if let Some(byte) = out.get_mut(place) {
                *byte ^= 1;
            }
        }
    }
    out
}

// Messages that change nothing leave the same tables: the last of them counts.
fn count_done(trial: &Trial, told: &[u8]) -> Option<usize> {
    let mut count = None;
    for (number, tables) in trial.tables.iter().enumerate() {
        if tables.as_slice() == told {
            count = Some(number);
        }
    }
    count
}

fn outcome_of(rt: &(impl Abort + Alloc<A = Global>), trial: &Trial, image: &Image) -> Outcome {
    let seen = free_visit(rt, image, &[Task::Check, Task::Read]);
    if seen.fault.is_some() {
        return Outcome::Refused;
    }
    let done = count_done(trial, &seen.told);
    Outcome::After(done.expect(rt, "the tables after a number of messages"))
}

fn count(counts: &mut Counts, outcome: Outcome, all: usize) {
    match outcome {
        Outcome::Refused => counts.refused = counts.refused.saturating_add(1),
        Outcome::After(number) if number < all => counts.behind = counts.behind.saturating_add(1),
        Outcome::After(_) => counts.right = counts.right.saturating_add(1),
    }
}

// Damages the file at each place in turn.
fn count_outcomes(
    rt: &(impl Abort + Alloc<A = Global>),
    trial: &Trial,
    image: &Image,
    which: Which,
    damage: Damage,
) -> Counts {
    let mut counts = Counts {
        refused: 0,
        behind: 0,
        right: 0,
    };
    let bytes = image.file(which);
    for number in 0..MOST_PLACES {
        let place = place_of(which, damage, number);
        if place >= bytes.len() {
            return counts;
        }
        let image = image.with(rt, which, &with_damage(rt, bytes, damage, place));
        let outcome = outcome_of(rt, trial, &image);
        count(&mut counts, outcome, trial.script.messages.len());
    }
    panic!(rt; "the file has more places")
}

// Were all refused, and was there one?
fn is_refused(counts: Counts) -> bool {
    counts.refused > 0 && counts.behind == 0 && counts.right == 0
}

// The files after all messages, closed or left open.
fn files_after(rt: &(impl Abort + Alloc<A = Global>), trial: &Trial, is_closed: bool) -> Image {
    let input = requests(rt, trial.script.messages);
    let last = if is_closed { Task::Check } else { Task::Leave };
    let image = free_visit(rt, &trial.image, &[Task::Answer(&input), last]).written;
    let all = Outcome::After(trial.script.messages.len());
    assert!(rt; outcome_of(rt, trial, &image) == all);
    image
}

#[test]
fn the_database_file_of_a_closed_desk_is_damaged(rt: HostRuntime) {
    let trial = days(&rt);
    let image = files_after(&rt, &trial, true);
    let cut = count_outcomes(&rt, &trial, &image, Which::Db, Damage::Cut);
    assert!(rt; is_refused(cut));
    let changed = count_outcomes(&rt, &trial, &image, Which::Db, Damage::Change);
    assert!(rt; is_refused(changed));
}

// The content that the log has too is correct.
#[test]
fn the_database_file_of_a_desk_that_was_left_open_is_damaged(rt: HostRuntime) {
    let trial = days(&rt);
    let image = files_after(&rt, &trial, false);
    let cut = count_outcomes(&rt, &trial, &image, Which::Db, Damage::Cut);
    assert!(rt; cut.behind == 0);
    let changed = count_outcomes(&rt, &trial, &image, Which::Db, Damage::Change);
    assert!(rt; changed.refused > 0 && changed.behind == 0);
}

// A damaged log is used up to the last write before the damage: nobody can know that there was
// more.
#[test]
fn a_log_is_damaged(rt: HostRuntime) {
    let trial = days(&rt);
    let image = files_after(&rt, &trial, false);
    let cut = count_outcomes(&rt, &trial, &image, Which::Log, Damage::Cut);
    assert!(rt; cut.behind > 0);
    let changed = count_outcomes(&rt, &trial, &image, Which::Log, Damage::Change);
    assert!(rt; changed.behind > 0);
}

// A file lost everything written since the desk was made: the database file, after its log was
// emptied into it, or the log alone. Nobody can know that there was more.
#[test]
fn a_file_lost_a_sync(rt: HostRuntime) {
    let trial = days(&rt);
    let closed = files_after(&rt, &trial, true);
    let image = closed.with(&rt, Which::Db, &trial.image.db);
    assert!(rt; outcome_of(&rt, &trial, &image) == Outcome::After(0));
    let open = files_after(&rt, &trial, false);
    let image = open.with(&rt, Which::Log, &trial.image.log);
    let outcome = outcome_of(&rt, &trial, &image);
    assert!(rt; matches!(outcome, Outcome::After(number) if number < trial.script.messages.len()));
}
