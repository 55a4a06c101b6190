//! The store around a store.
ghost use Rattle.std.specs.Prelude.{◌≡◌};
ghost use Rattle.remembering_store.specs.Known.{KnowsNothing};

mod learning;

use crate::known::Known;
use crate::sums::caps::Caps;
use ach_fields::{Id, Ref, Trace};
use bank_days::{Calendar, Day};
use desk_accounts::{Account, Posting};
use desk_book::{Caller, HeldSize, HeldSubmission, NamedEntry, OpenSubmission, Row};
use desk_history::{ChangeRow, Identity, ListOf, ReturnRow, SuspenseRow, TakenFile};
use desk_rules::{Company, Limits, Rates, Retry, RuleDay, SizedSubmission};
use desk_store::{CutRows, IntakeRows, LastNumber, Store, StoreFault};
use std::alloc::Global;

/// A store that remembers the desk's identity, key, day, holidays and companies, and of the companies that
/// were asked about how many submissions they have, the open ones, the sizes of the held ones and the
/// return rates. It hands every other call on to the store inside.
#[derive(Drop)]
pub struct Remembering<S> {
    store: S,
    known: Known,
    caps: Caps,
}

impl<S> Remembering<S> {
    /// Returns a store around `store` that remembers nothing yet.
    pub fn new(alloc: Global, store: S) -> Remembering<S>
        ensures store { result.store ≡ store }
        ensures known { KnowsNothing result.known }
    {
        Remembering::with_caps(alloc, store, Caps::standard())
    }

    /// Does the same with other caps.
    pub fn with_caps(alloc: Global, store: S, caps: Caps) -> Remembering<S>
        ensures store { result.store ≡ store }
        ensures known { KnowsNothing result.known }
    {
        Remembering {
            store,
            known: Known::new(alloc),
            caps,
        }
    }

    /// Returns the store inside.
    pub fn into_inner(self) -> S
        ensures { result ≡ self.store }
    {
        self.store
    }
}

impl<S: Store> Store for Remembering<S> {
    ghost use Rattle.remembering_store.specs.Known.{HoldsKnown, KeepsNumbered};

    ghost holds = { λ r. HoldsKnown (S.holds r.store) r.known };

    ghost Kept = { S.Kept };

    ghost keeps = { KeepsNumbered S.keeps };

    ghost may_leave = { λ r. S.may_leave r.store };

    ghost is_clean = { λ r. S.is_clean r.store };

    fn identity(&mut self, alloc: Global) -> Result<Identity, StoreFault> {
        if let Some(identity) = &self.known.identity {
            return Ok(*identity);
        }
        let identity = &self.store.identity(alloc)?;
        self.known.identity = Some(*identity);
        Ok(*identity)
    }

    fn key_of(&mut self, alloc: Global, caller: Caller) -> Result<Option<[u8; 32]>, StoreFault> {
        let Caller::Company(id) = caller else {
            return self.operator_key(alloc);
        };
        match self.company(alloc, id)? {
            Some(company) => Ok(Some(company.digest)),
            None => Ok(None),
        }
    }

    fn day(&mut self, alloc: Global) -> Result<Option<RuleDay>, StoreFault> {
        self.known_day(alloc)
    }

    fn calendar(&mut self, alloc: Global) -> Result<Calendar, StoreFault> {
        self.known_calendar(alloc)
    }

    fn company(&mut self, alloc: Global, id: Id) -> Result<Option<Company>, StoreFault> {
        self.learn_companies(alloc);
        if let Some(companies) = &self.known.companies {
            return Ok(companies.company(id));
        }
        self.store.company(alloc, id)
    }

    fn companies(&mut self, alloc: Global) -> Result<Vec<Company>, StoreFault> {
        if let Some(listed) = &self.known.listed {
            return Ok(Vec::from_slice(alloc, listed)?);
        }
        let companies = self.store.companies(alloc)?;
        self.known.listed = Vec::from_slice(alloc, &companies).ok();
        Ok(companies)
    }

    fn submission(
        &mut self,
        alloc: Global,
        company: Id,
        reference: Ref,
    ) -> Result<Option<Row>, StoreFault> {
        self.store.submission(alloc, company, reference)
    }

    fn submission_count(&mut self, alloc: Global, company: Id) -> Result<u64, StoreFault> {
        if let Some(count) = self.known.counts.count(company) {
            return Ok(count);
        }
        let count = self.store.submission_count(alloc, company)?;
        self.known.remember_count(company, count);
        Ok(count)
    }

    fn open_rows(
        &mut self,
        alloc: Global,
        company: Id,
        since: Day,
    ) -> Result<Vec<Row>, StoreFault> {
        self.store.open_rows(alloc, company, since)
    }

    fn open_entries(
        &mut self,
        alloc: Global,
        company: Id,
        since: Day,
    ) -> Result<Vec<OpenSubmission>, StoreFault> {
        self.store.open_entries(alloc, company, since)
    }

    fn exposures(
        &mut self,
        alloc: Global,
        company: Id,
        today: Day,
    ) -> Result<(u128, u128), StoreFault> {
        let calendar = self.known_calendar(alloc)?;
        if let Some(exposures) = self.known.sums.exposures(company, today, &calendar) {
            return Ok(exposures);
        }
        self.learn(alloc, company, today, &calendar);
        if let Some(exposures) = self.known.sums.exposures(company, today, &calendar) {
            return Ok(exposures);
        }
        self.store.exposures(alloc, company, today)
    }

    fn rates(&mut self, alloc: Global, company: Id, today: Day) -> Result<Rates, StoreFault> {
        if let Some(rates) = self.known.sums.rates(company, today) {
            return Ok(rates);
        }
        self.learn_new(alloc, company, today)?;
        match self.store.rates(alloc, company, today) {
            Ok(rates) => {
                self.known.sums.remember_rates(company, today, rates);
                Ok(rates)
            }
            Err(fault) => Err(fault),
        }
    }

    fn retries_of(
        &mut self,
        alloc: Global,
        company: Id,
        of: Ref,
        index: u64,
    ) -> Result<Vec<Row>, StoreFault> {
        self.store.retries_of(alloc, company, of, index)
    }

    fn entries_of(&mut self, alloc: Global, company: Id) -> Result<Vec<Row>, StoreFault> {
        self.store.entries_of(alloc, company)
    }

    fn waiting_of(
        &mut self,
        alloc: Global,
        company: Company,
    ) -> Result<Vec<HeldSubmission>, StoreFault> {
        self.store.waiting_of(alloc, company)
    }

    fn held_sizes_of(
        &mut self,
        alloc: Global,
        company: Company,
    ) -> Result<Vec<HeldSize>, StoreFault> {
        let id = company.id;
        if let Some(sizes) = self.known.held.read(alloc, id) {
            return Ok(sizes);
        }
        match self.store.held_sizes_of(alloc, company) {
            Ok(sizes) => {
                self.known.held.remember(alloc, self.caps, id, &sizes);
                Ok(sizes)
            }
            Err(fault) => Err(fault),
        }
    }

    fn waiting(&mut self, alloc: Global) -> Result<Vec<HeldSubmission>, StoreFault> {
        self.store.waiting(alloc)
    }

    fn due(
        &mut self,
        alloc: Global,
        day: RuleDay,
        holidays: &Calendar,
    ) -> Result<Vec<HeldSubmission>, StoreFault> {
        self.store.due(alloc, day, holidays)
    }

    fn last_number(&mut self, alloc: Global) -> Result<LastNumber, StoreFault> {
        self.store.last_number(alloc)
    }

    fn latest_settled(
        &mut self,
        alloc: Global,
        from: u32,
        to: u32,
    ) -> Result<Option<Day>, StoreFault> {
        self.store.latest_settled(alloc, from, to)
    }

    fn files_on(&mut self, alloc: Global, day: Day) -> Result<u64, StoreFault> {
        self.store.files_on(alloc, day)
    }

    fn traced_entries(
        &mut self,
        alloc: Global,
        traces: &[Option<Trace>],
    ) -> Result<Vec<Option<NamedEntry>>, StoreFault> {
        self.store.traced_entries(alloc, traces)
    }

    fn returns_of(&mut self, alloc: Global, company: Id) -> Result<Vec<ReturnRow>, StoreFault> {
        self.store.returns_of(alloc, company)
    }

    fn changes_of(&mut self, alloc: Global, company: Id) -> Result<Vec<ChangeRow>, StoreFault> {
        self.store.changes_of(alloc, company)
    }

    fn postings_of(&mut self, alloc: Global, account: Account) -> Result<Vec<Posting>, StoreFault> {
        self.store.postings_of(alloc, account)
    }

    fn balances_of(
        &mut self,
        alloc: Global,
        account: Account,
    ) -> Result<Vec<(Day, i128)>, StoreFault> {
        self.store.balances_of(alloc, account)
    }

    fn suspense(&mut self, alloc: Global) -> Result<Vec<SuspenseRow>, StoreFault> {
        self.store.suspense(alloc)
    }

    fn suspense_count(&mut self, alloc: Global) -> Result<u64, StoreFault> {
        self.store.suspense_count(alloc)
    }

    fn file(
        &mut self,
        alloc: Global,
        day: Day,
        modifier: u8,
    ) -> Result<Option<ListOf<u8>>, StoreFault> {
        self.store.file(alloc, day, modifier)
    }

    fn taken(&mut self, alloc: Global, key: [u8; 21]) -> Result<Option<TakenFile>, StoreFault> {
        self.store.taken(alloc, key)
    }

    fn set_day(&mut self, alloc: Global, day: RuleDay) -> Result<(), StoreFault> {
        self.store.set_day(alloc, day)?;
        self.known.day = Some(day);
        Ok(())
    }

    fn set_holidays(&mut self, alloc: Global, holidays: Calendar) -> Result<(), StoreFault> {
        let kept = holidays.try_clone(alloc).ok();
        self.store.set_holidays(alloc, holidays)?;
        self.known.holidays = kept;
        Ok(())
    }

    fn put_company(&mut self, alloc: Global, company: Company) -> Result<(), StoreFault> {
        let company = &company;
        self.store.put_company(alloc, *company)?;
        self.known.register(*company);
        Ok(())
    }

    fn put_limits(&mut self, alloc: Global, company: Id, limits: Limits) -> Result<(), StoreFault> {
        self.store.put_limits(alloc, company, limits)?;
        self.known.limit(company, limits);
        Ok(())
    }

    fn add_submission(
        &mut self,
        alloc: Global,
        company: Id,
        order: u64,
        content: &SizedSubmission,
        retry: Option<Retry>,
    ) -> Result<(), StoreFault> {
        let retry = &retry;
        let is_retry = retry.is_some();
        match self
            .store
            .add_submission(alloc, company, order, content, *retry)
        {
            Ok(done) => {
                self.known.add(alloc, company, order, content, is_retry);
                Ok(done)
            }
            Err(fault) => Err(fault),
        }
    }

    fn commit_cut(&mut self, alloc: Global, cut: &CutRows<'_>) -> Result<(), StoreFault> {
        match self.store.commit_cut(alloc, cut) {
            Ok(done) => {
                self.known.follow_cut(cut);
                self.learn_lost(alloc);
                Ok(done)
            }
            Err(fault) => Err(fault),
        }
    }

    fn commit_intake(&mut self, alloc: Global, intake: &IntakeRows<'_>) -> Result<(), StoreFault> {
        match self.store.commit_intake(alloc, intake) {
            Ok(done) => {
                self.known.follow_intake(intake);
                self.learn_lost(alloc);
                Ok(done)
            }
            Err(fault) => Err(fault),
        }
    }
}
