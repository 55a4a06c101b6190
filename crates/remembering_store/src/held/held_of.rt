//! What is kept of one company: the sizes of its held submissions.
ghost use Rattle.std.specs.Prelude.{◌≡◌, ◌+◌, ◌++◌, ◌∷◌, [], ℕ, List, None, false, IfOk, IfSome, IsTrue, length, map, not};
ghost use Rattle.std.specs.List.{list_all};
ghost use Rattle.desk_book.specs.HeldSizes.{size_of};
ghost use Rattle.desk_book.specs.Standing.{lapsed_row, next_row, sent_row};
ghost use Rattle.desk_book.specs.Steps.{if_order};
ghost use Rattle.desk_book.specs.declared.row.Row.{Row};
ghost use Rattle.desk_rules.specs.declared.bodies.submission.Submission.{Submission};
ghost use Rattle.remembering_store.specs.HeldSizes.{AreKept, held_sizes_among, kept};

use desk_book::HeldSize;
use std::alloc::{AllocError, Global};
use std::collections::BTreeSet;

/// The sizes of a company's held submissions, of which none is a retry.
#[derive(Drop)]
pub(crate) struct HeldOf {
    /// Those that were read, and those that were added since, by order number.
    sizes: Vec<HeldSize>,
    /// The order numbers of those among them that cuts have decided since.
    decided: BTreeSet<u64>,
    /// The most sizes that are kept.
    most: usize,
}

// Reports whether none of these is the size of a retry.
fn are_plain(sizes: &[HeldSize]) -> bool
    ensures { result ≡ list_all (λ z. not z.is_retry) sizes.now }
{
    sizes.iter().all(|size| !size.is_retry)
}

impl HeldOf {
    /// Returns the memory of a company. Returns `None` if there are more sizes than these, or if one is
    /// of a retry: a cut can change on what day the original of a retry settles.
    pub(crate) fn new(alloc: Global, most: usize, sizes: Vec<HeldSize>) -> Option<HeldOf>
        ensures { IfSome result
            (λ m. (rs : List Row) → sizes.items ≡ held_sizes_among rs → AreKept m rs) }
    {
        if sizes.len() > most || !are_plain(&sizes) {
            return None;
        }
        Some(HeldOf {
            sizes,
            decided: BTreeSet::new(alloc),
            most,
        })
    }

    /// Adds a submission that is no retry, which has the next order number. Returns false if it cannot.
    pub(crate) fn add(&mut self, size: HeldSize) -> bool
        ensures { IsTrue result → (rs : List Row) (s : Submission)
            → size ≡ size_of (length rs + 1) s false None → AreKept self.old rs
            → AreKept self.new (rs ++ next_row rs s None ∷ []) }
    {
        if self.sizes.len() >= self.most || self.decided.contains(&size.order) {
            return false;
        }
        self.sizes.push(size).is_ok()
    }

    /// Follows a cut that decides a submission. Returns false if it cannot.
    pub(crate) fn decide(&mut self, order: u64) -> bool
        ensures sent { IsTrue result → (on : ℕ) (rs : List Row) → AreKept self.old rs
            → AreKept self.new (map (if_order order (sent_row on)) rs) }
        ensures lapsed { IsTrue result → (rs : List Row) → AreKept self.old rs
            → AreKept self.new (map (if_order order lapsed_row) rs) }
    {
        self.decided.insert(order).is_ok()
    }

    // Returns the sizes of what is still held.
    fn still_held(&self, alloc: Global) -> Result<Vec<HeldSize>, AllocError>
        ensures { IfOk result (λ sizes. sizes.items ≡ kept self.now) }
    {
        let mut held = Vec::new(alloc);
        for size in &self.sizes {
            if !self.decided.contains(&size.order) {
                held.push(*size)?;
            }
        }
        Ok(held)
    }

    // Keeps these sizes in place of those that were kept.
    fn keep(&mut self, sizes: Vec<HeldSize>)
        ensures { kept self.new ≡ sizes.items }
    {
        self.sizes = sizes;
        self.decided.clear();
    }

    /// Returns the sizes of what is held, and keeps no others from then on. Returns `None` if there is
    /// no memory.
    pub(crate) fn read(&mut self, alloc: Global) -> Option<Vec<HeldSize>>
        ensures result { IfSome result (λ sizes. (rs : List Row) → AreKept self.old rs
            → sizes.items ≡ held_sizes_among rs) }
        ensures kept { kept self.new ≡ kept self.old }
    {
        let Ok(held) = self.still_held(alloc) else {
            return None;
        };
        if let Ok(copy) = Vec::from_slice(alloc, &held) {
            self.keep(copy);
        }
        Some(held)
    }
}
