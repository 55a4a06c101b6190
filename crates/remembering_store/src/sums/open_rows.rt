//! A company's open submissions, found by order number and by reference.
ghost use Rattle.std.specs.Prelude.{◌≡◌, ℕ, None, IsTrue, IfSome};
ghost use Rattle.remembering_store.specs.Caps.{HasRoom};
ghost use Rattle.remembering_store.specs.OpenRows.{Adds, Lapses, Returns, Sends, row_in};

use crate::sums::caps::Caps;
use crate::sums::open_row::OpenRow;
use crate::sums::reference_key::ReferenceKey;
use ach_fields::Ref;
use desk_rules::RuleDay;
use std::alloc::Global;
use std::collections::BTreeMap;

/// A company's open submissions. A cut names them by order number, a return by reference.
#[derive(Drop)]
pub(crate) struct OpenRows {
    rows: BTreeMap<u64, OpenRow>,
    orders: BTreeMap<ReferenceKey, u64>,
    /// The number of debits that were added.
    debits: usize,
    caps: Caps,
}

impl OpenRows {
    /// Returns no submissions, with room for so many.
    pub(crate) fn new(alloc: Global, caps: Caps) -> OpenRows
        ensures none { (order : ℕ) → row_in order result ≡ None }
        ensures caps { result.caps ≡ caps }
    {
        OpenRows {
            rows: BTreeMap::new(alloc),
            orders: BTreeMap::new(alloc),
            debits: 0,
            caps,
        }
    }

    /// Adds a submission. Returns false if its order number or reference is already kept, if more would
    /// be kept than the caps allow, or if there is no memory.
    pub(crate) fn add(&mut self, order: u64, row: OpenRow) -> bool
        ensures adds { IsTrue result → Adds order row self.old self.new }
        ensures room { IsTrue result → HasRoom self.old row }
    {
        let key = ReferenceKey {
            reference: row.reference,
        };
        if self.rows.contains_key(&order) || self.orders.contains_key(&key) {
            return false;
        }
        let Some(debits) = self.debits.checked_add(row.cents.len()) else {
            return false;
        };
        if self.rows.len() >= self.caps.submissions || debits > self.caps.debits {
            return false;
        }
        self.debits = debits;
        if self.orders.insert(key, order).is_err() {
            return false;
        }
        if self.rows.insert(order, row).is_err() {
            return false;
        }
        true
    }

    /// Marks a held submission sent, and returns whether it is one of debits, with its cents. Returns
    /// `None` if no held submission has this order number.
    pub(crate) fn send(&mut self, order: u64, day: RuleDay) -> Option<(bool, u128)>
        ensures { IfSome result (λ x. Sends order day x.0 x.1 self.old self.new) }
    {
        let row = self.rows.get_mut(&order)?;
        if row.settled.is_some() {
            return None;
        }
        let found = (row.debit, row.total);
        row.settle(day);
        Some(found)
    }

    /// Removes a held submission that lapsed, and returns whether it is one of debits, with its cents.
    /// Returns `None` if no held submission has this order number.
    pub(crate) fn lapse(&mut self, order: u64) -> Option<(bool, u128)>
        ensures { IfSome result (λ x. Lapses order x.0 x.1 self.old self.new) }
    {
        let row = self.rows.remove(&order)?;
        if row.settled.is_some() {
            return None;
        }
        Some((row.debit, row.total))
    }

    /// Takes away the cents of a returned entry, named by its submission's reference and its number
    /// there, and returns them with their settlement day. Returns `None` if that changes nothing.
    pub(crate) fn take(&mut self, reference: Ref, index: u64) -> Option<(RuleDay, u64)>
        ensures { Returns reference index result self.old self.new }
    {
        let order = *self.orders.get(&ReferenceKey { reference })?;
        let row = self.rows.get_mut(&order)?;
        if row.reference.bytes() != reference.bytes() {
            return None;
        }
        row.take(index)
    }
}
