//! What is kept of one open submission: enough to follow its exposure.
ghost use Rattle.std.specs.Prelude.{◌≡◌, Some, None, IfSome};
ghost use Rattle.remembering_store.specs.KnownRow.{KnownRow, counted, taken, once_taken};

use ach_fields::Ref;
use desk_rules::RuleDay;
use std::marker::Model;

/// A submission that is held or sent.
#[derive(Drop)]
pub(crate) struct OpenRow {
    pub(crate) reference: Ref,
    pub(crate) debit: bool,
    /// Its settlement day, once it is sent.
    pub(crate) settled: Option<RuleDay>,
    /// The cents of all its entries.
    pub(crate) total: u128,
    /// For debits: the cents of each entry, 0 once it is returned. Empty for credits.
    pub(crate) cents: Vec<u64>,
}

// Contracts see the cents as a list.
impl Model for OpenRow {
    ghost use Rattle.remembering_store.specs.KnownRow.{KnownRow};

    ghost Value = { KnownRow };

    ghost view = { λ t. record { reference = t.reference; debit = t.debit; settled = t.settled; total = t.total; cents = t.cents.items } };
}

impl OpenRow {
    /// Marks it sent, with its settlement day.
    pub(crate) fn settle(&mut self, day: RuleDay)
        ensures { self.new ≡ record self.old { settled = Some day } }
    {
        self.settled = Some(day);
    }

    /// Returns the cents that it counts: those of all credits, or of the debits that are not returned.
    /// Returns `None` on overflow.
    pub(crate) fn counted(&self) -> Option<u128>
        ensures { IfSome result (λ cents. cents ≡ counted self.now) }
    {
        if !self.debit {
            return Some(self.total);
        }
        let mut sum: u128 = 0;
        for cents in &self.cents {
            sum = sum.checked_add(u128::from(*cents))?;
        }
        Some(sum)
    }

    /// Takes away the cents of the entry with this number (from 1), which was returned, and returns
    /// them with its settlement day. Returns `None` for credits, for a held submission and for a number
    /// that no entry has: a return of these changes no exposure.
    pub(crate) fn take(&mut self, index: u64) -> Option<(RuleDay, u64)>
        ensures result { result ≡ taken self.old index }
        ensures after { self.new ≡ once_taken self.old index }
    {
        if !self.debit {
            return None;
        }
        let Some(settled) = self.settled else {
            return None;
        };
        let Some(before) = index.checked_sub(1) else {
            return None;
        };
        let place = before as usize;
        if place >= self.cents.len() {
            return None;
        }
        let cents = self.cents[place];
        self.cents[place] = 0;
        Some((settled, cents))
    }
}
