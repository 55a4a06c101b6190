//! The calls of the store that keeps lists in memory.
//!
//! A call that takes no memory always succeeds. A read takes memory for what it copies, and none if
//! there is nothing to copy; a call that finds a row by an index may grow the index.
ghost use Rattle.std.specs.Prelude.{◌≢◌, [], None, IsOk, OnErr, find, length};
ghost use Rattle.desk_book.specs.Reads.{key_of, company};
ghost use Rattle.desk_store.specs.LastNumber.{last_number};
ghost use Rattle.desk_book.specs.Steps.{is_file, set_day, set_holidays, put_limits};
ghost use Rattle.memory_store.specs.Kept.{rows_in};
ghost use Rattle.memory_store.specs.OnLists.{GivesHeld, GivesHeldList, TakesHeld};

use crate::balances::day_sums_of;
use crate::cut::write_cut;
use crate::entries::{RowFilter, row_of, rows_passing, submission_among};
use crate::intake::write_intake;
use crate::items::{changes_of, count_on, lines_of, returns_of, taken_file, text_at};
use crate::list_store::ListStore;
use crate::place_index::KeyKind;
use crate::reads::{company_among, copy_of, rows_of};
use crate::row_key::RowKey;
use crate::sent::last_of;
use crate::traced::Traced;
use crate::waiting::{all_waiting, company_waiting};
use crate::writes::{held_row, limit_company, place_of};
use ach_fields::{Id, Ref, Trace};
use bank_days::{Calendar, Day};
use desk_accounts::{Account, Posting};
use desk_book::{Caller, HeldSubmission, NamedEntry, Row};
use desk_history::{ChangeRow, Identity, ListOf, ReturnRow, SuspenseRow, TakenFile};
use desk_rules::{Company, Limits, Retry, RuleDay, SizedSubmission};
use desk_store::{CutRows, IntakeRows, LastNumber, Store, StoreFault};
use std::alloc::Global;

impl Store for ListStore {
    ghost use Rattle.std.specs.Prelude.{◌≡◌, ⊤};
    ghost use Rattle.desk_book.specs.Book.{Book};
    ghost use Rattle.memory_store.specs.Kept.{IsBookOf, IsHeld};

    ghost holds = { IsHeld };

    ghost Kept = { Book };

    ghost keeps = { λ k b. k ≡ b };

    // A crash leaves the book that it holds. It leaves no index: what begins again makes one.
    ghost may_leave = { IsBookOf };

    ghost is_clean = { λ _. ⊤ };

    fn identity(&mut self, _alloc: Global) -> Result<Identity, StoreFault>
        ensures ok { IsOk result }
        ensures gives { GivesHeld self.old self.new result (λ b. b.identity) }
    {
        Ok(self.identity)
    }

    fn key_of(&mut self, _alloc: Global, caller: Caller) -> Result<Option<[u8; 32]>, StoreFault>
        ensures ok { IsOk result }
        ensures gives { GivesHeld self.old self.new result (key_of caller) }
    {
        let company = match caller {
            Caller::Operator => return Ok(Some(self.operator_key)),
            Caller::Company(company) => company,
        };
        match company_among(&self.companies, company) {
            Some(company) => Ok(Some(company.digest)),
            None => Ok(None),
        }
    }

    fn day(&mut self, _alloc: Global) -> Result<Option<RuleDay>, StoreFault>
        ensures ok { IsOk result }
        ensures gives { GivesHeld self.old self.new result (λ b. b.day) }
    {
        Ok(self.day)
    }

    fn calendar(&mut self, alloc: Global) -> Result<Calendar, StoreFault>
        ensures memory { OnErr result ((rows_in self.old).holidays ≢ []) }
        ensures gives { GivesHeld self.old self.new result (λ b. b.holidays) }
    {
        Ok(self.holidays.try_clone(alloc)?)
    }

    fn company(&mut self, _alloc: Global, id: Id) -> Result<Option<Company>, StoreFault>
        ensures ok { IsOk result }
        ensures gives { GivesHeld self.old self.new result (company id) }
    {
        Ok(company_among(&self.companies, id))
    }

    fn companies(&mut self, alloc: Global) -> Result<Vec<Company>, StoreFault>
        ensures memory { OnErr result ((rows_in self.old).companies ≢ []) }
        ensures gives { GivesHeldList self.old self.new result (λ b. b.companies) }
    {
        Ok(copy_of(alloc, &self.companies)?)
    }

    fn submission(
        &mut self,
        alloc: Global,
        company: Id,
        reference: Ref,
    ) -> Result<Option<Row>, StoreFault> {
        let kept = self.submissions.as_slice();
        self.places.cover_references(alloc, kept)?;
        let key = RowKey::under(company, reference);
        let places = self.places.references.of(key);
        let found = submission_among(kept, places, company, reference);
        Ok(row_of(alloc, found)?)
    }

    fn submission_count(&mut self, alloc: Global, company: Id) -> Result<u64, StoreFault> {
        let kept = self.submissions.as_slice();
        self.places.companies.cover(alloc, kept, &KeyKind::Company)?;
        Ok(self.places.companies.of(RowKey::whole(company)).len() as u64)
    }

    fn open_rows(
        &mut self,
        alloc: Global,
        company: Id,
        since: Day,
    ) -> Result<Vec<Row>, StoreFault> {
        let kept = self.submissions.as_slice();
        self.places.cover_recent(alloc, kept, since)?;
        let places = self.places.recent.of(RowKey::whole(company));
        let which = RowFilter::OpenSince(since);
        Ok(rows_passing(alloc, kept, places, company, &which)?)
    }

    fn retries_of(
        &mut self,
        alloc: Global,
        company: Id,
        of: Ref,
        index: u64,
    ) -> Result<Vec<Row>, StoreFault> {
        let kept = self.submissions.as_slice();
        self.places
            .originals
            .cover(alloc, kept, &KeyKind::Original)?;
        let places = self.places.originals.of(RowKey::under(company, of));
        let which = RowFilter::RetriesOf(of, index);
        Ok(rows_passing(alloc, kept, places, company, &which)?)
    }

    fn entries_of(&mut self, alloc: Global, company: Id) -> Result<Vec<Row>, StoreFault> {
        Ok(rows_of(alloc, &self.submissions, company)?)
    }

    fn waiting_of(
        &mut self,
        alloc: Global,
        company: Company,
    ) -> Result<Vec<HeldSubmission>, StoreFault> {
        let kept = self.submissions.as_slice();
        self.places.cover_held(alloc, kept)?;
        let places = &self.places;
        let index = places.held();
        Ok(company_waiting(alloc, &company, kept, index, &places.references)?)
    }

    fn waiting(&mut self, alloc: Global) -> Result<Vec<HeldSubmission>, StoreFault> {
        let kept = self.submissions.as_slice();
        self.places.cover_held(alloc, kept)?;
        let places = &self.places;
        let index = places.held();
        Ok(all_waiting(alloc, &self.companies, kept, index, &places.references)?)
    }

    fn last_number(&mut self, _alloc: Global) -> Result<LastNumber, StoreFault>
        ensures ok { IsOk result }
        ensures gives { GivesHeld self.old self.new result last_number }
    {
        Ok(LastNumber {
            sequence: last_of(&self.sent),
            place: self.sent.len() as u64,
        })
    }

    fn latest_settled(
        &mut self,
        _alloc: Global,
        from: u32,
        to: u32,
    ) -> Result<Option<Day>, StoreFault> {
        self.settlements.cover(&self.sent)?;
        Ok(self.settlements.latest(from, to))
    }

    fn files_on(&mut self, _alloc: Global, day: Day) -> Result<u64, StoreFault>
        ensures ok { IsOk result }
        ensures gives { GivesHeld self.old self.new result (λ b. b.files_on day) }
    {
        Ok(count_on(&self.files, day))
    }

    fn traced_entries(
        &mut self,
        alloc: Global,
        traces: &[Option<Trace>],
    ) -> Result<Vec<Option<NamedEntry>>, StoreFault> {
        self.traces.cover(&self.sent)?;
        let kept = self.submissions.as_slice();
        self.places.cover_references(alloc, kept)?;
        let traced = Traced {
            odfi: self.identity.odfi,
            traces: &self.traces,
            kept,
            references: &self.places.references,
        };
        Ok(traced.entries_of(alloc, traces)?)
    }

    fn returns_of(&mut self, alloc: Global, company: Id) -> Result<Vec<ReturnRow>, StoreFault> {
        Ok(returns_of(alloc, &self.returned, company)?)
    }

    fn changes_of(&mut self, alloc: Global, company: Id) -> Result<Vec<ChangeRow>, StoreFault> {
        Ok(changes_of(alloc, &self.changed, company)?)
    }

    fn postings_of(&mut self, alloc: Global, account: Account) -> Result<Vec<Posting>, StoreFault> {
        Ok(lines_of(alloc, &self.postings, account)?)
    }

    fn balances_of(
        &mut self,
        alloc: Global,
        account: Account,
    ) -> Result<Vec<(Day, i128)>, StoreFault> {
        day_sums_of(alloc, &self.postings, account)
    }

    fn suspense(&mut self, alloc: Global) -> Result<Vec<SuspenseRow>, StoreFault>
        ensures memory { OnErr result ((rows_in self.old).suspense ≢ []) }
        ensures gives { GivesHeldList self.old self.new result (λ b. b.suspense) }
    {
        Ok(copy_of(alloc, &self.suspense)?)
    }

    fn suspense_count(&mut self, _alloc: Global) -> Result<u64, StoreFault>
        ensures ok { IsOk result }
        ensures gives { GivesHeld self.old self.new result (λ b. length b.suspense) }
    {
        Ok(self.suspense.len() as u64)
    }

    fn file(
        &mut self,
        alloc: Global,
        day: Day,
        modifier: u8,
    ) -> Result<Option<ListOf<u8>>, StoreFault>
        ensures memory { OnErr result (find (is_file day modifier) (rows_in self.old).files ≢ None) }
        ensures gives { GivesHeld self.old self.new result (λ b. b.file day modifier) }
    {
        Ok(text_at(alloc, &self.files, day, modifier)?)
    }

    fn taken(&mut self, _alloc: Global, key: [u8; 21]) -> Result<Option<TakenFile>, StoreFault>
        ensures ok { IsOk result }
        ensures gives { GivesHeld self.old self.new result (λ b. b.taken key) }
    {
        Ok(taken_file(&self.taken, key))
    }

    fn set_day(&mut self, _alloc: Global, day: RuleDay) -> Result<(), StoreFault>
        ensures ok { IsOk result }
        ensures takes { TakesHeld self.old self.new result (set_day day) }
    {
        self.day = Some(day);
        Ok(())
    }

    fn set_holidays(&mut self, _alloc: Global, holidays: Calendar) -> Result<(), StoreFault>
        ensures ok { IsOk result }
        ensures takes { TakesHeld self.old self.new result (set_holidays holidays) }
    {
        self.holidays = holidays;
        Ok(())
    }

    fn put_company(&mut self, _alloc: Global, company: Company) -> Result<(), StoreFault> {
        let at = place_of(&self.companies, company.id);
        self.companies.insert(at, company)?;
        Ok(())
    }

    fn put_limits(&mut self, _alloc: Global, company: Id, limits: Limits) -> Result<(), StoreFault>
        ensures ok { IsOk result }
        ensures takes { TakesHeld self.old self.new result (put_limits company limits) }
    {
        limit_company(&mut self.companies, company, limits);
        Ok(())
    }

    fn add_submission(
        &mut self,
        alloc: Global,
        company: Id,
        order: u64,
        content: &SizedSubmission,
        retry: Option<Retry>,
    ) -> Result<(), StoreFault> {
        let kept = held_row(alloc, company, order, content, retry)?;
        self.submissions.push(kept)?;
        Ok(())
    }

    fn commit_cut(&mut self, alloc: Global, cut: &CutRows<'_>) -> Result<(), StoreFault> {
        let kept = self.submissions.as_slice();
        self.places.cover_orders(alloc, kept)?;
        write_cut(self, alloc, cut)?;
        self.places.since = None;
        Ok(())
    }

    fn commit_intake(&mut self, alloc: Global, intake: &IntakeRows<'_>) -> Result<(), StoreFault> {
        let kept = self.submissions.as_slice();
        self.places.cover_references(alloc, kept)?;
        Ok(write_intake(self, intake)?)
    }
}
