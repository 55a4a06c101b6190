//! What is remembered of the open submissions and the return rates of companies.
ghost use Rattle.std.specs.Prelude.{◌≡◌, ◌+◌, Option, IfSome, length};
ghost use Rattle.desk_rules.specs.declared.bodies.submission.Retry.{Retry};
ghost use Rattle.desk_book.specs.Book.{Book};
ghost use Rattle.desk_book.specs.Steps.{add_submission, put_lapsed_row, put_return, put_sent_row};
ghost use Rattle.desk_book.specs.Sums.{exposures_on, rates_of};
ghost use Rattle.desk_store.specs.Written.{cut_step, intake_step};
ghost use Rattle.remembering_store.specs.Known.{IsNumbered};
ghost use Rattle.remembering_store.specs.KnownSums.{Follows, Forgets, SumsRight, is_known};
ghost use Rattle.remembering_store.specs.Remembered.{IsOf};

pub(crate) mod caps;
mod company_sums;
mod day_sums;
mod first_read;
mod keep;
mod known_company;
mod open_row;
mod open_rows;
mod reference_key;
pub(crate) mod remembered;

use crate::company_key::CompanyKey;
use crate::sums::known_company::KnownCompany;
use crate::sums::remembered::Remembered;
use ach_fields::Id;
use bank_days::{Calendar, Day};
use desk_book::{LapsedRow, ReturnedRow, SentRow};
use desk_rules::{Rates, SizedSubmission};
use desk_store::{CutRows, IntakeRows};
use std::alloc::Global;
use std::collections::HashMap;
use std::mem::replace;

/// The open submissions and the return rates of the companies that were asked about.
#[derive(Drop)]
pub(crate) struct KnownSums {
    companies: HashMap<CompanyKey, KnownCompany>,
    /// Those that a cut or a file could not be followed for, and that were forgotten for it.
    lost: Vec<Id>,
}

impl KnownSums {
    /// Returns memory of no company.
    pub(crate) fn new(alloc: Global) -> KnownSums
        ensures { (b : Book) → SumsRight result b }
    {
        KnownSums {
            companies: HashMap::new(alloc),
            lost: Vec::new(alloc),
        }
    }

    /// Remembers a company's open submissions. Without memory for them, all companies are forgotten.
    pub(crate) fn remember(&mut self, company: Id, remembered: Remembered)
        ensures { (b : Book) → SumsRight self.old b → IsOf remembered (b.rows company)
            → SumsRight self.new b }
    {
        if self
            .companies
            .insert(CompanyKey { company }, KnownCompany::new(remembered))
            .is_err()
        {
            self.companies.clear();
        }
    }

    /// Forgets a company.
    pub(crate) fn forget(&mut self, company: Id)
        ensures { (b : Book) → SumsRight self.old b → SumsRight self.new b }
    {
        self.companies.remove(&CompanyKey { company });
    }

    /// Reports whether a company is remembered.
    pub(crate) fn has(&self, company: Id) -> bool
        ensures { result ≡ is_known company self.now }
    {
        self.companies.contains_key(&CompanyKey { company })
    }

    /// Returns a company's credit and debit exposure on a day, in cents, if they are known.
    pub(crate) fn exposures(
        &self,
        company: Id,
        today: Day,
        calendar: &Calendar,
    ) -> Option<(u128, u128)>
        ensures { IfSome result (λ sums. (b : Book) → SumsRight self.now b
            → sums ≡ exposures_on (b.rows company) today calendar.now) }
    {
        self.companies
            .get(&CompanyKey { company })?
            .exposures(today, calendar)
    }

    /// Returns a company's return rates on a day, if they are known.
    pub(crate) fn rates(&self, company: Id, today: Day) -> Option<Rates>
        ensures { IfSome result (λ found. (b : Book) → SumsRight self.now b
            → found ≡ rates_of company today b) }
    {
        self.companies.get(&CompanyKey { company })?.rates(today)
    }

    /// Remembers a company's return rates on a day, if the company is remembered.
    pub(crate) fn remember_rates(&mut self, company: Id, today: Day, found: Rates)
        ensures { (b : Book) → found ≡ rates_of company today b → SumsRight self.old b
            → SumsRight self.new b }
    {
        let Some(known) = self.companies.get_mut(&CompanyKey { company }) else {
            return;
        };
        known.remember_rates(today, found);
    }

    /// Follows an accepted submission.
    pub(crate) fn add(&mut self, alloc: Global, company: Id, order: u64, content: &SizedSubmission)
        ensures { (b : Book) (retry : Option Retry) → order ≡ length (b.rows company) + 1
            → IsNumbered b → SumsRight self.old b
            → SumsRight self.new ((add_submission company order content.now retry).after b) }
    {
        let key = CompanyKey { company };
        let Some(known) = self.companies.get_mut(&key) else {
            return;
        };
        if !known.add(alloc, order, content) {
            self.companies.remove(&key);
        }
    }

    // Forgets a company that cannot be followed. Without memory for it, it is not among the lost, and
    // the next question about it reads it again.
    fn lose(&mut self, company: Id)
        ensures { Forgets company self.old self.new }
    {
        self.companies.remove(&CompanyKey { company });
        let _noted = self.lost.push(company);
    }

    /// Returns the companies that could not be followed, and lists them no longer.
    pub(crate) fn take_lost(&mut self, alloc: Global) -> Vec<Id>
        ensures lost { result ≡ self.old.lost }
        ensures known { (b : Book) → SumsRight self.old b → SumsRight self.new b }
    {
        replace(&mut self.lost, Vec::new(alloc))
    }

    // Follows a submission that a cut sends. A company that cannot be followed is forgotten.
    fn send(&mut self, sent: &SentRow)
        ensures { Follows self.old self.new (λ b. put_sent_row b sent.now) }
    {
        let key = CompanyKey {
            company: sent.company,
        };
        let Some(company) = self.companies.get_mut(&key) else {
            return;
        };
        if !company.send(sent.order, sent.settled) {
            self.lose(sent.company);
        }
    }

    // Follows a retry that lapses at a cut.
    fn lapse(&mut self, lapsed: &LapsedRow)
        ensures { Follows self.old self.new (λ b. put_lapsed_row b lapsed.now) }
    {
        let key = CompanyKey {
            company: lapsed.company,
        };
        let Some(company) = self.companies.get_mut(&key) else {
            return;
        };
        if !company.lapse(lapsed.order) {
            self.lose(lapsed.company);
        }
    }

    // Follows a return.
    fn give_back(&mut self, returned: &ReturnedRow)
        ensures { Follows self.old self.new (λ b. put_return b returned.now) }
    {
        let key = CompanyKey {
            company: returned.company,
        };
        let Some(company) = self.companies.get_mut(&key) else {
            return;
        };
        if !company.give_back(returned) {
            self.lose(returned.company);
        }
    }

    /// Follows a cut.
    pub(crate) fn follow_cut(&mut self, cut: &CutRows<'_>)
        ensures { Follows self.old self.new (cut_step cut.now).after }
    {
        for row in cut.sent {
            self.send(row);
        }
        for row in cut.lapsed {
            self.lapse(row);
        }
    }

    /// Follows the returns of an incoming file.
    pub(crate) fn follow_intake(&mut self, intake: &IntakeRows<'_>)
        ensures { Follows self.old self.new (intake_step intake.now).after }
    {
        for row in intake.returned {
            self.give_back(row);
        }
    }
}
