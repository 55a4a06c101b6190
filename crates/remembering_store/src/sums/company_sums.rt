//! A company's open sums: what is held, and what settles by day, for credits and debits.
ghost use Rattle.std.specs.Prelude.{◌≡◌, ◌+◌, true, false, IfSome, IsTrue};
ghost use Rattle.remembering_store.specs.Kept.{held_in, settled_in, IsEmpty, Holds, Lets, Settles, ComesBack};
ghost use Rattle.remembering_store.specs.OpenSums.{from_day, comes_back_by};

use crate::sums::day_sums::DaySums;
use bank_days::{Calendar, Day};
use desk_rules::RuleDay;
use std::alloc::Global;

/// A company's open sums, in cents.
#[derive(Drop)]
pub(crate) struct Sums {
    held_credits: u128,
    held_debits: u128,
    /// Sent credits by settlement day, returned ones included.
    credits: DaySums,
    /// Sent debits by settlement day, without the returned ones.
    debits: DaySums,
}

impl Sums {
    /// Returns sums of nothing.
    pub(crate) fn new(alloc: Global) -> Sums
        ensures { IsEmpty result }
    {
        Sums {
            held_credits: 0,
            held_debits: 0,
            credits: DaySums::new(alloc),
            debits: DaySums::new(alloc),
        }
    }

    /// Adds cents to what is held. Returns false on overflow.
    pub(crate) fn hold(&mut self, debit: bool, cents: u128) -> bool
        ensures { IsTrue result → Holds debit cents self.old self.new }
    {
        let held = if debit {
            self.held_debits
        } else {
            self.held_credits
        };
        let Some(sum) = held.checked_add(cents) else {
            return false;
        };
        if debit {
            self.held_debits = sum;
        } else {
            self.held_credits = sum;
        }
        true
    }

    /// Takes cents from what is held. Returns false if fewer are held.
    pub(crate) fn let_go(&mut self, debit: bool, cents: u128) -> bool
        ensures { IsTrue result → Lets debit cents self.old self.new }
    {
        let held = if debit {
            self.held_debits
        } else {
            self.held_credits
        };
        let Some(left) = held.checked_sub(cents) else {
            return false;
        };
        if debit {
            self.held_debits = left;
        } else {
            self.held_credits = left;
        }
        true
    }

    /// Adds cents to what settles on a day. Returns false on overflow or if there is no memory.
    pub(crate) fn settle(&mut self, debit: bool, day: RuleDay, cents: u128) -> bool
        ensures { IsTrue result → Settles debit day cents self.old self.new }
    {
        if debit {
            self.debits.add(day, cents)
        } else {
            self.credits.add(day, cents)
        }
    }

    /// Takes the cents of a returned debit from its settlement day. Returns false if the day has fewer.
    pub(crate) fn give_back(&mut self, day: RuleDay, cents: u128) -> bool
        ensures { IsTrue result → ComesBack day cents self.old self.new }
    {
        self.debits.take(day, cents)
    }

    /// Returns the credit and debit exposure on a day, in cents, or `None` on overflow.
    pub(crate) fn exposures(&self, day: Day, calendar: &Calendar) -> Option<(u128, u128)>
        ensures { IfSome result (λ sums.
            (sums.0 ≡ held_in false self.now + settled_in false (from_day day) self.now)
            × (sums.1 ≡ held_in true self.now + settled_in true (comes_back_by day calendar.now) self.now)) }
    {
        let credits = self.held_credits.checked_add(self.credits.from(day)?)?;
        let debits = self
            .held_debits
            .checked_add(self.debits.coming_back(day, calendar)?)?;
        Some((credits, debits))
    }
}
