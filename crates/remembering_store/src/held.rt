//! What is remembered of the sizes of held submissions.
ghost use Rattle.std.specs.Prelude.{◌≡◌, ◌+◌, Option, IfSome, is_some, length};
ghost use Rattle.desk_rules.specs.declared.bodies.submission.Retry.{Retry};
ghost use Rattle.desk_book.specs.Book.{Book};
ghost use Rattle.desk_book.specs.Steps.{add_submission, put_lapsed_row, put_sent_row};
ghost use Rattle.desk_store.specs.Written.{cut_step};
ghost use Rattle.remembering_store.specs.HeldSizes.{AreKept, FollowsHeld, HeldRight, held_sizes_among};

mod held_of;

use crate::company_key::CompanyKey;
use crate::held::held_of::HeldOf;
use crate::sums::caps::Caps;
use ach_fields::Id;
use desk_book::{HeldSize, LapsedRow, SentRow, size_of};
use desk_rules::SizedSubmission;
use desk_store::CutRows;
use std::alloc::Global;
use std::collections::HashMap;

/// The sizes of the held submissions of the companies that were asked about.
#[derive(Drop)]
pub(crate) struct KnownHeld {
    companies: HashMap<CompanyKey, HeldOf>,
}

impl KnownHeld {
    /// Returns memory of no company.
    pub(crate) fn new(alloc: Global) -> KnownHeld
        ensures { (b : Book) → HeldRight result b }
    {
        KnownHeld {
            companies: HashMap::new(alloc),
        }
    }

    // Forgets a company.
    fn forget(&mut self, company: Id)
        ensures { (b : Book) → HeldRight self.old b → HeldRight self.new b }
    {
        self.companies.remove(&CompanyKey { company });
    }

    // Remembers a company. Without memory for it, all companies are forgotten.
    fn put(&mut self, company: Id, held: HeldOf)
        ensures { (b : Book) → HeldRight self.old b → AreKept held (b.rows company)
            → HeldRight self.new b }
    {
        if self.companies.insert(CompanyKey { company }, held).is_err() {
            self.companies.clear();
        }
    }

    /// Remembers the sizes of a company's held submissions, unless one of them is a retry or there are
    /// too many.
    pub(crate) fn remember(&mut self, alloc: Global, caps: Caps, company: Id, sizes: &[HeldSize])
        ensures { (b : Book) → sizes.now ≡ held_sizes_among (b.rows company)
            → HeldRight self.old b → HeldRight self.new b }
    {
        let Ok(copy) = Vec::from_slice(alloc, sizes) else {
            return;
        };
        let Some(held) = HeldOf::new(alloc, caps.submissions, copy) else {
            return;
        };
        self.put(company, held);
    }

    /// Returns the sizes of a company's held submissions, if they are known.
    pub(crate) fn read(&mut self, alloc: Global, company: Id) -> Option<Vec<HeldSize>>
        ensures result { IfSome result (λ sizes. (b : Book) → HeldRight self.old b
            → sizes.items ≡ held_sizes_among (b.rows company)) }
        ensures known { (b : Book) → HeldRight self.old b → HeldRight self.new b }
    {
        self.companies.get_mut(&CompanyKey { company })?.read(alloc)
    }

    /// Follows an accepted submission. A retry makes the company forgotten.
    pub(crate) fn add(&mut self, company: Id, order: u64, content: &SizedSubmission, is_retry: bool)
        ensures { (b : Book) (retry : Option Retry) → is_retry ≡ is_some retry
            → order ≡ length (b.rows company) + 1 → HeldRight self.old b
            → HeldRight self.new ((add_submission company order content.now retry).after b) }
    {
        let key = CompanyKey { company };
        let Some(held) = self.companies.get_mut(&key) else {
            return;
        };
        if is_retry || !held.add(size_of(order, content, false, None)) {
            self.companies.remove(&key);
        }
    }

    // Follows a submission that a cut sends. A company that cannot be followed is forgotten.
    fn send(&mut self, sent: &SentRow)
        ensures { FollowsHeld self.old self.new (λ b. put_sent_row b sent.now) }
    {
        let key = CompanyKey {
            company: sent.company,
        };
        let Some(held) = self.companies.get_mut(&key) else {
            return;
        };
        if !held.decide(sent.order) {
            self.companies.remove(&key);
        }
    }

    // Follows a retry that lapses at a cut.
    fn lapse(&mut self, lapsed: &LapsedRow)
        ensures { FollowsHeld self.old self.new (λ b. put_lapsed_row b lapsed.now) }
    {
        let key = CompanyKey {
            company: lapsed.company,
        };
        let Some(held) = self.companies.get_mut(&key) else {
            return;
        };
        if !held.decide(lapsed.order) {
            self.companies.remove(&key);
        }
    }

    /// Follows a cut.
    pub(crate) fn follow_cut(&mut self, cut: &CutRows<'_>)
        ensures { FollowsHeld self.old self.new (cut_step cut.now).after }
    {
        for row in cut.sent {
            self.send(row);
        }
        for row in cut.lapsed {
            self.lapse(row);
        }
    }
}
