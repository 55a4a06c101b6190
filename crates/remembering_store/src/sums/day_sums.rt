//! Sums of cents by settlement day.
ghost use Rattle.std.specs.Prelude.{◌≡◌, ◌+◌, ◌<◌, ℕ, Bool, IfSome, IsTrue, length, slice_index_or, if◌then◌else◌};
ghost use Rattle.remembering_store.specs.DaySums.{cents_on};
ghost use Rattle.remembering_store.specs.OpenSums.{from_day, comes_back_by};
ghost use Rattle.remembering_store.specs.declared.sums.day_sums.DayCents.{DayCents};

use bank_days::{Calendar, Day};
use desk_rules::RuleDay;
use std::alloc::Global;

/// The cents that settle on one day.
#[derive(Clone, Copy, Drop)]
pub(crate) struct DayCents {
    pub(crate) day: RuleDay,
    pub(crate) cents: u128,
}

/// Cents by settlement day: one item a day, in the order in which the days first came.
#[derive(Drop)]
pub(crate) struct DaySums {
    items: Vec<DayCents>,
}

// Returns the place of a day's item.
fn place_of(items: &[DayCents], day: RuleDay) -> Option<usize>
    ensures { IfSome result (λ place. (place < length items.now)
        × ((d : DayCents) → (slice_index_or items.now place d).day ≡ day)) }
{
    for place in 0..items.len() {
        if items[place].day == day {
            return Some(place);
        }
    }
    None
}

impl DaySums {
    /// Returns sums without a day.
    pub(crate) fn new(alloc: Global) -> DaySums
        ensures { (days : ℕ → Bool) → cents_on days result ≡ 0 }
    {
        DaySums {
            items: Vec::new(alloc),
        }
    }

    /// Adds cents to a day. Returns false if there is no memory or the sum would overflow.
    pub(crate) fn add(&mut self, day: RuleDay, cents: u128) -> bool
        ensures { IsTrue result → (days : ℕ → Bool)
            → cents_on days self.new ≡ cents_on days self.old + (if days day then cents else 0) }
    {
        let Some(place) = place_of(&self.items, day) else {
            return self.items.push(DayCents { day, cents }).is_ok();
        };
        let Some(sum) = self.items[place].cents.checked_add(cents) else {
            return false;
        };
        self.items[place] = DayCents { day, cents: sum };
        true
    }

    /// Takes cents from a day. Returns false if the day has fewer.
    pub(crate) fn take(&mut self, day: RuleDay, cents: u128) -> bool
        ensures { IsTrue result → (days : ℕ → Bool)
            → cents_on days self.new + (if days day then cents else 0) ≡ cents_on days self.old }
    {
        let Some(place) = place_of(&self.items, day) else {
            return false;
        };
        let Some(left) = self.items[place].cents.checked_sub(cents) else {
            return false;
        };
        self.items[place] = DayCents { day, cents: left };
        true
    }

    /// Returns the cents that settle on a day or later, or `None` on overflow.
    pub(crate) fn from(&self, day: Day) -> Option<u128>
        ensures { IfSome result (λ cents. cents ≡ cents_on (from_day day) self.now) }
    {
        let mut sum: u128 = 0;
        for item in &self.items {
            if item.day.day() >= day {
                sum = sum.checked_add(item.cents)?;
            }
        }
        Some(sum)
    }

    /// Returns the cents of the settlement days whose second banking day is `day` or later, or `None` on
    /// overflow: debits that can still be returned in time.
    pub(crate) fn coming_back(&self, day: Day, calendar: &Calendar) -> Option<u128>
        ensures { IfSome result (λ cents. cents ≡ cents_on (comes_back_by day calendar.now) self.now) }
    {
        let mut sum: u128 = 0;
        for item in &self.items {
            if calendar.nth_after(item.day.day(), 2) >= day {
                sum = sum.checked_add(item.cents)?;
            }
        }
        Some(sum)
    }
}
