//! What is remembered of one company, and how it follows each write.
ghost use Rattle.std.specs.Prelude.{◌≡◌, ◌+◌, ◌++◌, ◌∷◌, [], List, Option, length, map, IfSome, IsTrue};
ghost use Rattle.desk_book.specs.declared.row.Row.{Row};
ghost use Rattle.desk_book.specs.declared.flat_rows.ReturnedRow.{ReturnedRow};
ghost use Rattle.desk_book.specs.Standing.{lapsed_row, next_row, sent_row};
ghost use Rattle.desk_rules.specs.declared.bodies.submission.Retry.{Retry};
ghost use Rattle.desk_book.specs.Steps.{if_order, returned_row_by};
ghost use Rattle.desk_book.specs.Sums.{exposures_on};
ghost use Rattle.remembering_store.specs.KnownRow.{Fits};
ghost use Rattle.desk_book.specs.OpenRows.{open_rows};
ghost use Rattle.desk_book.specs.OpenSubmissions.{open_submission};
ghost use Rattle.remembering_store.specs.Remembered.{AreAllKept, AreHeld, AreNumbered, IsOf, KeepsOn};

use crate::sums::caps::{Caps, is_behind};
use crate::sums::company_sums::Sums;
use crate::sums::first_read::keep_open;
use crate::sums::keep::keep;
use crate::sums::open_row::OpenRow;
use crate::sums::open_rows::OpenRows;
use bank_days::{Calendar, Day};
use desk_book::{OpenSubmission, ReturnedRow, first_open_day};
use desk_rules::{RuleDay, SizedSubmission};
use std::alloc::Global;

/// The sums of a company's open submissions: all that is held, and what settles on day `since` or later.
/// The submissions are kept one by one too, unless there are too many.
#[derive(Drop)]
pub(crate) struct Remembered {
    since: Day,
    sums: Sums,
    rows: Option<OpenRows>,
}

// Keeps one more submission. If there is no room for it, none is kept one by one any more.
fn keep_row(rows: &mut Option<OpenRows>, order: u64, row: OpenRow)
    ensures { KeepsOn order row rows.old rows.new }
{
    let Some(kept) = rows else {
        return;
    };
    if !kept.add(order, row) {
        *rows = None;
    }
}

impl Remembered {
    /// Returns the memory of a company without submissions.
    pub(crate) fn new(alloc: Global, caps: Caps, since: Day) -> Remembered
        ensures of { IsOf result [] }
        ensures since { result.since ≡ since }
    {
        Remembered {
            since,
            sums: Sums::new(alloc),
            rows: Some(OpenRows::new(alloc, caps)),
        }
    }

    // Adds a submission that the store already has. Returns false if it cannot be counted.
    fn load(&mut self, order: u64, row: OpenRow) -> bool
        ensures right { IsTrue result → (rs : List Row) (of : Row) → IsOf self.old rs
            → AreAllKept self.old.rows rs → of.order ≡ order → Fits row of
            → IsOf self.new (rs ++ of ∷ []) × AreAllKept self.new.rows (rs ++ of ∷ []) }
        ensures since { self.new.since ≡ self.old.since }
    {
        let debit = row.debit;
        let total = row.total;
        let settled = row.settled;
        let Some(counted) = row.counted() else {
            return false;
        };
        keep_row(&mut self.rows, order, row);
        match settled {
            Some(day) => self.sums.settle(debit, day, counted),
            None => self.sums.hold(debit, total),
        }
    }

    /// Returns the memory of a company by its submissions that are open since a day, or `None` if they
    /// cannot be counted.
    pub(crate) fn read(
        alloc: Global,
        caps: Caps,
        since: Day,
        submissions: Vec<OpenSubmission>,
    ) -> Option<Remembered>
        ensures { IfSome result (λ m. (all : List Row) → AreNumbered all
            → submissions.items ≡ map open_submission (open_rows since all) → IsOf m all) }
    {
        let mut read = Remembered::new(alloc, caps, since);
        for submission in submissions {
            let order = submission.order;
            let kept = keep_open(submission)?;
            if !read.load(order, kept) {
                return None;
            }
        }
        Some(read)
    }

    /// Follows an accepted submission. Returns false if it cannot.
    pub(crate) fn add(&mut self, alloc: Global, order: u64, content: &SizedSubmission) -> bool
        ensures { IsTrue result → (rs : List Row) (retry : Option Retry) → order ≡ length rs + 1
            → AreNumbered rs → IsOf self.old rs
            → IsOf self.new (rs ++ next_row rs content.now retry ∷ []) }
    {
        let Some(row) = keep(alloc, content) else {
            return false;
        };
        let debit = row.debit;
        let cents = row.total;
        keep_row(&mut self.rows, order, row);
        self.sums.hold(debit, cents)
    }

    /// Follows a submission that is sent, by its order number. Returns false if it cannot, as when the
    /// sums alone are kept.
    pub(crate) fn send(&mut self, order: u64, day: RuleDay) -> bool
        ensures follows { IsTrue result → (rs : List Row) → IsOf self.old rs
            → IsOf self.new (map (if_order order (sent_row day)) rs) }
        ensures held { IsTrue result → (rs : List Row) → IsOf self.old rs → AreHeld order rs }
    {
        let Some(rows) = &mut self.rows else {
            return false;
        };
        let Some((debit, cents)) = rows.send(order, day) else {
            return false;
        };
        if !self.sums.let_go(debit, cents) {
            return false;
        }
        self.sums.settle(debit, day, cents)
    }

    /// Follows a retry that lapses, by its order number. Returns false if it cannot, as when the sums
    /// alone are kept.
    pub(crate) fn lapse(&mut self, order: u64) -> bool
        ensures follows { IsTrue result → (rs : List Row) → IsOf self.old rs
            → IsOf self.new (map (if_order order lapsed_row) rs) }
        ensures held { IsTrue result → (rs : List Row) → IsOf self.old rs → AreHeld order rs }
    {
        let Some(rows) = &mut self.rows else {
            return false;
        };
        let Some((debit, cents)) = rows.lapse(order) else {
            return false;
        };
        self.sums.let_go(debit, cents)
    }

    /// Follows a return. Returns false if it cannot, as when the sums alone are kept. Otherwise a return
    /// of a submission that is not kept is too late to change any exposure.
    pub(crate) fn give_back(&mut self, returned: &ReturnedRow) -> bool
        ensures { IsTrue result → (rs : List Row) → IsOf self.old rs
            → IsOf self.new (map (returned_row_by returned.now) rs) }
    {
        let row = &returned.row;
        let Some(rows) = &mut self.rows else {
            return false;
        };
        match rows.take(row.reference, row.index) {
            Some((day, cents)) => self.sums.give_back(day, u128::from(cents)),
            None => true,
        }
    }

    /// Returns the credit and debit exposure on a day, in cents. Returns `None` if something before
    /// `since` counts on that day, as after a holiday list that opens an earlier settlement again, or if
    /// `since` is more than 30 days before the first day that counts.
    pub(crate) fn exposures(&self, today: Day, calendar: &Calendar) -> Option<(u128, u128)>
        ensures { IfSome result (λ sums. (rs : List Row) → IsOf self.now rs
            → sums ≡ exposures_on rs today calendar.now) }
    {
        let first = first_open_day(calendar, today)?;
        if first < self.since || is_behind(self.since, first) {
            return None;
        }
        self.sums.exposures(today, calendar)
    }
}
