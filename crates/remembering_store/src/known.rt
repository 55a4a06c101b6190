//! What is remembered of a store's book.
ghost use Rattle.std.specs.Prelude.{◌≡◌, Option, is_some};
ghost use Rattle.desk_rules.specs.declared.bodies.submission.Retry.{Retry};
ghost use Rattle.desk_book.specs.Book.{Book};
ghost use Rattle.desk_book.specs.Reads.{submission_count};
ghost use Rattle.desk_book.specs.Steps.{add_submission, put_company, put_limits};
ghost use Rattle.desk_store.specs.Written.{cut_step, intake_step};
ghost use Rattle.remembering_store.specs.Known.{IsNumbered, KnowsNothing, KnowsRight};

use crate::counts::Counts;
use crate::held::KnownHeld;
use crate::registry::Registry;
use crate::sums::KnownSums;
use ach_fields::Id;
use bank_days::Calendar;
use desk_history::Identity;
use desk_rules::{Company, Limits, RuleDay, SizedSubmission};
use desk_store::{CutRows, IntakeRows};
use std::alloc::Global;

/// What is remembered of a book. Of each field `None` means that it has to be read.
#[derive(Drop)]
pub(crate) struct Known {
    pub(crate) identity: Option<Identity>,
    pub(crate) operator_key: Option<[u8; 32]>,
    pub(crate) day: Option<RuleDay>,
    pub(crate) holidays: Option<Calendar>,
    pub(crate) companies: Option<Registry>,
    pub(crate) listed: Option<Vec<Company>>,
    pub(crate) counts: Counts,
    pub(crate) sums: KnownSums,
    pub(crate) held: KnownHeld,
}

impl Known {
    /// Remembers nothing.
    pub(crate) fn new(alloc: Global) -> Known
        ensures { KnowsNothing result }
    {
        Known {
            identity: None,
            operator_key: None,
            day: None,
            holidays: None,
            companies: None,
            listed: None,
            counts: Counts::new(alloc),
            sums: KnownSums::new(alloc),
            held: KnownHeld::new(alloc),
        }
    }

    /// Follows a registration. The list of companies is forgotten, and so is the registry if there is no
    /// memory for the company.
    pub(crate) fn register(&mut self, company: Company)
        ensures { (b : Book) → (put_company company).Admits b → KnowsRight self.old b
            → KnowsRight self.new ((put_company company).after b) }
    {
        self.listed = None;
        let Some(registry) = &mut self.companies else {
            return;
        };
        if !registry.add(company) {
            self.companies = None;
        }
    }

    /// Follows new limits of a company. The list of companies is forgotten.
    pub(crate) fn limit(&mut self, company: Id, limits: Limits)
        ensures { (b : Book) → KnowsRight self.old b
            → KnowsRight self.new ((put_limits company limits).after b) }
    {
        self.listed = None;
        if let Some(registry) = &mut self.companies {
            registry.limit(company, limits);
        }
    }

    /// Remembers how many submissions a company has.
    pub(crate) fn remember_count(&mut self, company: Id, count: u64)
        ensures { (b : Book) → count ≡ submission_count company b → KnowsRight self.old b
            → KnowsRight self.new b }
    {
        self.counts.set(company, count);
    }

    /// Follows an accepted submission, which has the company's next order number.
    pub(crate) fn add(
        &mut self,
        alloc: Global,
        company: Id,
        order: u64,
        content: &SizedSubmission,
        is_retry: bool,
    )
        ensures { (b : Book) (retry : Option Retry) → is_retry ≡ is_some retry
            → (add_submission company order content.now retry).Admits b → IsNumbered b
            → KnowsRight self.old b
            → KnowsRight self.new ((add_submission company order content.now retry).after b) }
    {
        self.counts.set(company, order);
        self.sums.add(alloc, company, order, content);
        self.held.add(company, order, content, is_retry);
    }

    /// Follows a cut, which changes open and held submissions alone.
    pub(crate) fn follow_cut(&mut self, cut: &CutRows<'_>)
        ensures { (b : Book) → KnowsRight self.old b
            → KnowsRight self.new ((cut_step cut.now).after b) }
    {
        self.sums.follow_cut(cut);
        self.held.follow_cut(cut);
    }

    /// Follows an incoming file, of which the returns change open submissions.
    pub(crate) fn follow_intake(&mut self, intake: &IntakeRows<'_>)
        ensures { (b : Book) → KnowsRight self.old b
            → KnowsRight self.new ((intake_step intake.now).after b) }
    {
        self.sums.follow_intake(intake);
    }
}
