//! What is remembered of one company: its open submissions and its return rates on a day.
ghost use Rattle.std.specs.Prelude.{◌≡◌, ◌+◌, ◌++◌, ◌∷◌, ◌<◌, [], List, Option, Some, length, map, IfSome, IsTrue};
ghost use Rattle.desk_book.specs.declared.row.Row.{Row};
ghost use Rattle.desk_book.specs.declared.flat_rows.ReturnedRow.{ReturnedRow};
ghost use Rattle.desk_book.specs.Standing.{facts_in, lapsed_row, next_row, sent_row};
ghost use Rattle.desk_book.specs.Steps.{if_order, returned_row_by};
ghost use Rattle.desk_book.specs.Sums.{exposures_on};
ghost use Rattle.desk_rules.specs.ReturnRates.{rates};
ghost use Rattle.desk_rules.specs.declared.bodies.submission.Retry.{Retry};
ghost use Rattle.remembering_store.specs.KnownCompany.{AgreesWith};
ghost use Rattle.remembering_store.specs.Remembered.{AreNumbered, IsOf};

use crate::sums::remembered::Remembered;
use bank_days::{Calendar, Day};
use desk_book::ReturnedRow;
use desk_history::DayRates;
use desk_rules::{Rates, RuleDay, SizedSubmission};
use std::alloc::Global;

/// A company's open submissions, and its return rates on the last day for which they were asked.
#[derive(Drop)]
pub(crate) struct KnownCompany {
    submissions: Remembered,
    rates: Option<DayRates>,
}

// Returns the rates if they are of a day before this one.
fn rates_before(rates: Option<DayRates>, day: Day) -> Option<DayRates>
    ensures { IfSome result (λ x. (rates ≡ Some x) × (x.day < day)) }
{
    match rates {
        Some(known) if known.day < day => Some(known),
        _ => None,
    }
}

impl KnownCompany {
    /// Returns the memory of a company whose return rates are not known.
    pub(crate) fn new(submissions: Remembered) -> KnownCompany
        ensures { (rs : List Row) → IsOf submissions rs → AgreesWith result rs }
    {
        KnownCompany {
            submissions,
            rates: None,
        }
    }

    /// Follows an accepted submission. Returns false if it cannot. The rates stay: held entries do not
    /// count in them.
    pub(crate) fn add(&mut self, alloc: Global, order: u64, content: &SizedSubmission) -> bool
        ensures { IsTrue result → (rs : List Row) (retry : Option Retry) → order ≡ length rs + 1
            → AreNumbered rs → AgreesWith self.old rs
            → AgreesWith self.new (rs ++ next_row rs content.now retry ∷ []) }
    {
        self.submissions.add(alloc, order, content)
    }

    /// Follows a submission that is sent, by its order number. Returns false if it cannot. The rates stay
    /// if it settles after their day, since its entries were held before and do not count yet.
    pub(crate) fn send(&mut self, order: u64, settled: RuleDay) -> bool
        ensures { IsTrue result → (rs : List Row) → AgreesWith self.old rs
            → AgreesWith self.new (map (if_order order (sent_row settled)) rs) }
    {
        self.rates = rates_before(self.rates, settled.day());
        self.submissions.send(order, settled)
    }

    /// Follows a retry that lapses, by its order number. Returns false if it cannot. The rates stay:
    /// neither held nor lapsed entries count in them.
    pub(crate) fn lapse(&mut self, order: u64) -> bool
        ensures { IsTrue result → (rs : List Row) → AgreesWith self.old rs
            → AgreesWith self.new (map (if_order order lapsed_row) rs) }
    {
        self.submissions.lapse(order)
    }

    /// Follows a return. Returns false if it cannot. The rates are forgotten, also if the submission is
    /// not kept.
    pub(crate) fn give_back(&mut self, returned: &ReturnedRow) -> bool
        ensures { IsTrue result → (rs : List Row) → AgreesWith self.old rs
            → AgreesWith self.new (map (returned_row_by returned.now) rs) }
    {
        self.rates = None;
        self.submissions.give_back(returned)
    }

    /// Returns the credit and debit exposure on a day, in cents, if they are known.
    pub(crate) fn exposures(&self, today: Day, calendar: &Calendar) -> Option<(u128, u128)>
        ensures { IfSome result (λ sums. (rs : List Row) → AgreesWith self.now rs
            → sums ≡ exposures_on rs today calendar.now) }
    {
        self.submissions.exposures(today, calendar)
    }

    /// Returns the return rates on a day, if they are known.
    pub(crate) fn rates(&self, today: Day) -> Option<Rates>
        ensures { IfSome result (λ found. (rs : List Row) → AgreesWith self.now rs
            → found ≡ rates (facts_in rs) today) }
    {
        let known = self.rates?;
        if known.day != today {
            return None;
        }
        Some(known.rates)
    }

    /// Remembers the return rates on a day, in place of those of another day.
    pub(crate) fn remember_rates(&mut self, today: Day, found: Rates)
        ensures { (rs : List Row) → found ≡ rates (facts_in rs) today → AgreesWith self.old rs
            → AgreesWith self.new rs }
    {
        self.rates = Some(DayRates {
            day: today,
            rates: found,
        });
    }
}
