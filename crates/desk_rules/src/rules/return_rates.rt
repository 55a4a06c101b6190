//! Return rates: the share of a company's debits that is returned, by Nacha's rules.
ghost use Rattle.std.specs.Prelude.{◌≡◌};
ghost use Rattle.desk_rules.specs.ReturnRates.{exceeds, has_settled, is_in_window, is_of_level, rate_of, rates, returned_count, settled_count, was_returned};

use crate::{EntryFact, EntryState, Level, Rate, Rates, ReturnCode};
use bank_days::Day;

/// The days by which the window of the rates begins before the desk day.
const DAYS_BEFORE: i64 = 59;

/// Gives the company's return rates over the 60 days that end on the desk day: for each level how
/// many of its live debits have a return with a code of the level that was taken in these days, and
/// how many settled in them.
pub fn rates(facts: &[EntryFact], day: Day) -> Rates
    ensures { result ≡ rates facts.now day }
{
    Rates {
        unauthorized: rate(Level::Unauthorized, facts, day),
        administrative: rate(Level::Administrative, facts, day),
        overall: rate(Level::Overall, facts, day),
    }
}

fn rate(level: Level, facts: &[EntryFact], day: Day) -> Rate
    ensures { result ≡ rate_of level facts.now day }
{
    let n = returned_count(level, facts, day);
    let d = settled_count(facts, day);
    Rate {
        n,
        d,
        over: exceeds(level, n, d),
    }
}

/// Are n returns of d debits more than the level allows: more than 0.5 percent unauthorized, 3
/// percent administrative, 15 percent overall? The products are compared, so nothing is rounded.
pub fn exceeds(level: Level, n: u64, d: u64) -> bool
    ensures { result ≡ exceeds level n d }
{
    let (n, d) = (u128::from(n), u128::from(d));
    match level {
        Level::Unauthorized => n * 1_000 > d * 5,
        Level::Administrative => n * 100 > d * 3,
        Level::Overall => n * 100 > d * 15,
    }
}

fn returned_count(level: Level, facts: &[EntryFact], day: Day) -> u64
    ensures { result ≡ returned_count level facts.now day }
{
    facts
        .iter()
        .filter(|f| f.debit && !f.prenote && was_returned(level, f.state, day))
        .count() as u64
}

fn settled_count(facts: &[EntryFact], day: Day) -> u64
    ensures { result ≡ settled_count facts.now day }
{
    facts
        .iter()
        .filter(|f| f.debit && !f.prenote && has_settled(f.state, day))
        .count() as u64
}

// Was a return taken in the window, with a code of the level?
fn was_returned(level: Level, state: EntryState, day: Day) -> bool
    ensures { result ≡ was_returned level state day }
{
    match state {
        EntryState::Returned {
            code,
            day: taken,
            ..
        } => is_in_window(taken, day) && is_of_level(level, code),
        _ => false,
    }
}

// Did an entry settle in the window?
fn has_settled(state: EntryState, day: Day) -> bool
    ensures { result ≡ has_settled state day }
{
    match state {
        EntryState::Sent { settled } => is_in_window(settled.day(), day),
        EntryState::Returned { settled, .. } => is_in_window(settled.day(), day),
        EntryState::Held | EntryState::Lapsed => false,
    }
}

// Is a day one of the 60 that end on the desk day?
fn is_in_window(at: Day, day: Day) -> bool
    ensures { result ≡ is_in_window at day }
{
    at <= day && day.number() - at.number() <= DAYS_BEFORE
}

fn is_of_level(level: Level, code: ReturnCode) -> bool
    ensures { result ≡ is_of_level level code }
{
    match level {
        Level::Unauthorized => matches!(code.number(), 5 | 7 | 10 | 11 | 29),
        Level::Administrative => matches!(code.number(), 2 | 3 | 4),
        Level::Overall => true,
    }
}
