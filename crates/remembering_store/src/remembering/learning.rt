//! How a store that remembers reads what it does not know yet.
ghost use Rattle.desk_book.specs.Reads.{key_of};
ghost use Rattle.desk_book.specs.declared.caller.Caller.TheVariants.{Operator};
ghost use Rattle.desk_store.specs.Promises.{CallGives};
ghost use Rattle.remembering_store.specs.Known.{HoldsKnown, Learns};

use super::Remembering;
use crate::registry::Registry;
use crate::sums::remembered::Remembered;
use ach_fields::Id;
use bank_days::{Calendar, Day};
use desk_book::{Caller, first_open_day};
use desk_rules::RuleDay;
use desk_store::{Store, StoreFault};
use std::alloc::Global;

impl<S: Store> Remembering<S> {
    // Reads all companies, unless they are remembered. If they cannot be read or kept, nothing changes.
    pub(super) fn learn_companies(&mut self, alloc: Global)
        ensures { Learns S.is_clean S.holds S.may_leave self.old.store self.new.store
            self.old.known self.new.known }
    {
        if self.known.companies.is_some() {
            return;
        }
        if let Ok(companies) = self.store.companies(alloc) {
            self.known.companies = Registry::of(alloc, &companies);
        }
    }

    // Reads the digest of the operator's key.
    pub(super) fn operator_key(&mut self, alloc: Global) -> Result<Option<[u8; 32]>, StoreFault>
        ensures { CallGives (λ r. S.is_clean r.store)
            (λ r. HoldsKnown (S.holds r.store) r.known) (λ r. S.may_leave r.store)
            self.old self.new result (key_of Operator) }
    {
        if let Some(digest) = self.known.operator_key {
            return Ok(Some(digest));
        }
        let digest = self.store.key_of(alloc, Caller::Operator)?;
        self.known.operator_key = digest;
        Ok(digest)
    }

    // Reads the desk day.
    pub(super) fn known_day(&mut self, alloc: Global) -> Result<Option<RuleDay>, StoreFault>
        ensures { CallGives (λ r. S.is_clean r.store)
            (λ r. HoldsKnown (S.holds r.store) r.known) (λ r. S.may_leave r.store)
            self.old self.new result (λ b. b.day) }
    {
        if let Some(day) = &self.known.day {
            return Ok(Some(*day));
        }
        let day = &self.store.day(alloc)?;
        self.known.day = *day;
        Ok(*day)
    }

    // Reads the holidays.
    pub(super) fn known_calendar(&mut self, alloc: Global) -> Result<Calendar, StoreFault>
        ensures { CallGives (λ r. S.is_clean r.store)
            (λ r. HoldsKnown (S.holds r.store) r.known) (λ r. S.may_leave r.store)
            self.old self.new result (λ b. b.holidays) }
    {
        if let Some(holidays) = &self.known.holidays {
            return Ok(holidays.try_clone(alloc)?);
        }
        let holidays = self.store.calendar(alloc)?;
        self.known.holidays = holidays.try_clone(alloc).ok();
        Ok(holidays)
    }

    // Reads a company's open submissions and remembers them. Remembers nothing if they cannot be read or
    // counted.
    pub(super) fn learn(&mut self, alloc: Global, company: Id, today: Day, calendar: &Calendar)
        ensures { Learns S.is_clean S.holds S.may_leave self.old.store self.new.store
            self.old.known self.new.known }
    {
        let Some(since) = first_open_day(calendar, today) else {
            return;
        };
        self.known.sums.forget(company);
        let Ok(submissions) = self.store.open_entries(alloc, company, since) else {
            return;
        };
        let Some(read) = Remembered::read(alloc, self.caps, since, submissions) else {
            return;
        };
        self.known.sums.remember(company, read);
    }

    // Learns a company that is not known yet. Returns the fault if the holidays cannot be read.
    pub(super) fn learn_new(
        &mut self,
        alloc: Global,
        company: Id,
        today: Day,
    ) -> Result<(), StoreFault>
        ensures { Learns S.is_clean S.holds S.may_leave self.old.store self.new.store
            self.old.known self.new.known }
    {
        if self.known.sums.has(company) {
            return Ok(());
        }
        let calendar = self.known_calendar(alloc)?;
        self.learn(alloc, company, today, &calendar);
        Ok(())
    }

    // Reads a company as of the desk day, if that can be read.
    fn learn_today(&mut self, alloc: Global, company: Id)
        ensures { Learns S.is_clean S.holds S.may_leave self.old.store self.new.store
            self.old.known self.new.known }
    {
        let Ok(day) = self.known_day(alloc) else {
            return;
        };
        let Some(today) = day else {
            return;
        };
        let Ok(calendar) = self.known_calendar(alloc) else {
            return;
        };
        self.learn(alloc, company, today.day(), &calendar);
    }

    // Reads the companies again that a write could not be followed for: of these the sums alone are kept.
    pub(super) fn learn_lost(&mut self, alloc: Global)
        ensures { Learns S.is_clean S.holds S.may_leave self.old.store self.new.store
            self.old.known self.new.known }
    {
        for company in self.known.sums.take_lost(alloc) {
            self.learn_today(alloc, company);
        }
    }
}
