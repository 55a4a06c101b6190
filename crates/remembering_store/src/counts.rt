//! The numbers of submissions of companies.
ghost use Rattle.std.specs.Prelude.{◌≡◌, ℕ, List, IfSome, false, bytes_eq};
ghost use Rattle.remembering_store.specs.Known.{CountsRight};

use crate::company_key::CompanyKey;
use ach_fields::Id;
use std::alloc::Global;
use std::collections::HashMap;

/// How many submissions and retries a company has, of the companies that were asked about.
#[derive(Drop)]
pub(crate) struct Counts {
    counts: HashMap<CompanyKey, u64>,
}

impl Counts {
    /// Returns no counts.
    pub(crate) fn new(alloc: Global) -> Counts
        ensures { (count_of : List ℕ → ℕ) → CountsRight result count_of }
    {
        Counts {
            counts: HashMap::new(alloc),
        }
    }

    /// Returns a company's count, if it is known.
    pub(crate) fn count(&self, company: Id) -> Option<u64>
        ensures { IfSome result (λ count. (count_of : List ℕ → ℕ) → CountsRight self.now count_of
            → count ≡ count_of company) }
    {
        self.counts.get(&CompanyKey { company }).copied()
    }

    /// Sets a company's count. If there is no memory, all counts are forgotten.
    pub(crate) fn set(&mut self, company: Id, count: u64)
        ensures { (before : List ℕ → ℕ) (after : List ℕ → ℕ) → count ≡ after company
            → ((other : List ℕ) → bytes_eq company other ≡ false → after other ≡ before other)
            → CountsRight self.old before → CountsRight self.new after }
    {
        if self.counts.insert(CompanyKey { company }, count).is_err() {
            self.counts.clear();
        }
    }
}
