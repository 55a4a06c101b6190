//! Exposures: the cents that a company's entries may still cost the bank. The rule is the desk's
//! own.
ghost use Rattle.std.specs.Prelude.{◌≡◌, ◌≤◌, ◌*◌, length};
ghost use Rattle.ach_fields.specs.Cents.{most_cents};
ghost use Rattle.desk_rules.specs.Exposure.{credit_exposure, debit_exposure, is_open_credit, is_open_debit};

use crate::{EntryFact, EntryState};
use bank_days::{Calendar, Day};

/// Gives the credit exposure: the cents of the company's credits that are held, or settle on the
/// desk day or after it, returned ones included. Holidays have no part in it: the calendar is there
/// so that both exposures are called alike.
pub fn credit_exposure(facts: &[EntryFact], day: Day, _calendar: &Calendar) -> u128
    ensures value { result ≡ credit_exposure facts.now day }
    ensures within { result ≤ most_cents * length facts.now }
{
    let mut exposed = 0;
    for fact in facts {
        if !fact.debit && is_open_credit(fact.state, day) {
            exposed += u128::from(fact.cents.get());
        }
    }
    exposed
}

/// Reports whether a credit is held or settles on the day or later. Returned credits count too.
pub fn is_open_credit(state: EntryState, day: Day) -> bool
    ensures { result ≡ is_open_credit state day }
{
    match state {
        EntryState::Held => true,
        EntryState::Sent { settled } => settled.day() >= day,
        EntryState::Returned { settled, .. } => settled.day() >= day,
        EntryState::Lapsed => false,
    }
}

/// Gives the debit exposure: the cents of the company's debits that are held, or were sent and have
/// their second banking day after settlement on the desk day or after it. Returned and lapsed ones
/// do not count.
pub fn debit_exposure(facts: &[EntryFact], day: Day, calendar: &Calendar) -> u128
    ensures value { result ≡ debit_exposure facts.now day calendar.now }
    ensures within { result ≤ most_cents * length facts.now }
{
    let mut exposed = 0;
    for fact in facts {
        if fact.debit && is_open_debit(fact.state, day, calendar) {
            exposed += u128::from(fact.cents.get());
        }
    }
    exposed
}

/// Reports whether a debit is held or can still be returned within two banking days.
pub fn is_open_debit(state: EntryState, day: Day, calendar: &Calendar) -> bool
    ensures { result ≡ is_open_debit state day calendar.now }
{
    match state {
        EntryState::Held => true,
        EntryState::Sent { settled } => calendar.nth_after(settled.day(), 2) >= day,
        EntryState::Returned { .. } => false,
        EntryState::Lapsed => false,
    }
}
