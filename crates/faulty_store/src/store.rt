//! A store that refuses one call, to test how a desk reacts.
ghost use Rattle.std.specs.Prelude.{◌≡◌, ◌≢◌, ◌↔◌, ◌-◌, ⊤, [], None, Err, find, length};
ghost use Rattle.desk_book.specs.OnIntake.{traced_entries};
ghost use Rattle.desk_book.specs.Reads.{key_of, company, submission, submission_count, open_rows_of, retries_of, waiting_of, waiting, latest_settled};
ghost use Rattle.desk_book.specs.Steps.{is_file, set_day, set_holidays, put_company, put_limits};
ghost use Rattle.desk_store.specs.Accounts.{postings_of, balances_of};
ghost use Rattle.desk_store.specs.LastNumber.{last_number};
ghost use Rattle.desk_store.specs.Written.{cut_step, intake_step};
ghost use Rattle.memory_store.specs.Kept.{rows_in};
ghost use Rattle.faulty_store.specs.Counted.{AddsHeld, Counts, GivesHeld, GivesHeldList, TakesHeld};

use ach_fields::{Id, Ref, Trace};
use bank_days::{Calendar, Day};
use desk_accounts::{Account, Posting};
use desk_book::{Caller, HeldSubmission, NamedEntry, Row};
use desk_history::{ChangeRow, Identity, ListOf, ReturnRow, SuspenseRow, TakenFile};
use desk_rules::{Company, Limits, Retry, RuleDay, SizedSubmission};
use desk_store::{CutRows, IntakeRows, LastNumber, Store, StoreFault};
use memory_store::ListStore;
use std::alloc::Global;

/// A `FaultyStore` is a store of lists that refuses one call with `Unavailable`, and leaves the lists
/// unchanged. Its calls are counted from 1, over all reads and writes. A read that the trait provides
/// counts as the calls that it makes. Any other call succeeds or fails as the same call of the lists.
#[derive(Drop)]
pub struct FaultyStore {
    store: ListStore,
    /// The number of calls up to the refused one, that one included; 0 if there is none left.
    until: u64,
}

impl FaultyStore {
    /// Returns a store of these lists that refuses the call with this number, or none if it is 0.
    pub fn new(store: ListStore, call: u64) -> FaultyStore
        ensures lists { result.store ≡ store }
        ensures refused { result.until ≡ call }
    {
        FaultyStore { store, until: call }
    }

    /// Returns the lists.
    pub fn into_inner(self) -> ListStore
        ensures { result ≡ self.store }
    {
        self.store
    }

    // Counts a call, and refuses it if the count has come to it.
    fn count_call(&mut self) -> Result<(), StoreFault>
        ensures refused { (result ≡ Err StoreFault.Unavailable) ↔ (self.old.until ≡ 1) }
        ensures counted { self.new ≡ record self.old { until = self.old.until - 1 } }
    {
        if self.until == 0 {
            return Ok(());
        }
        self.until -= 1;
        if self.until == 0 {
            return Err(StoreFault::Unavailable);
        }
        Ok(())
    }
}

impl Store for FaultyStore {
    ghost use Rattle.std.specs.Prelude.{⊤};
    ghost use Rattle.faulty_store.specs.Counted.{Holds, MayLeave};

    ghost holds = { Holds };

    ghost Kept = { ⟦<ListStore as Store>⟧.Kept };

    ghost keeps = { ⟦<ListStore as Store>⟧.keeps };

    ghost may_leave = { MayLeave };

    ghost is_clean = { λ _. ⊤ };

    fn identity(&mut self, alloc: Global) -> Result<Identity, StoreFault>
        ensures gives { GivesHeld self.old self.new result (λ b. b.identity) }
        ensures counts { Counts self.old self.new result ⊥ }
    {
        self.count_call()?;
        self.store.identity(alloc)
    }

    fn key_of(&mut self, alloc: Global, caller: Caller) -> Result<Option<[u8; 32]>, StoreFault>
        ensures gives { GivesHeld self.old self.new result (key_of caller) }
        ensures counts { Counts self.old self.new result ⊥ }
    {
        self.count_call()?;
        self.store.key_of(alloc, caller)
    }

    fn day(&mut self, alloc: Global) -> Result<Option<RuleDay>, StoreFault>
        ensures gives { GivesHeld self.old self.new result (λ b. b.day) }
        ensures counts { Counts self.old self.new result ⊥ }
    {
        self.count_call()?;
        self.store.day(alloc)
    }

    fn calendar(&mut self, alloc: Global) -> Result<Calendar, StoreFault>
        ensures gives { GivesHeld self.old self.new result (λ b. b.holidays) }
        ensures counts { Counts self.old self.new result ((rows_in self.old.store).holidays ≢ []) }
    {
        self.count_call()?;
        self.store.calendar(alloc)
    }

    fn company(&mut self, alloc: Global, id: Id) -> Result<Option<Company>, StoreFault>
        ensures gives { GivesHeld self.old self.new result (company id) }
        ensures counts { Counts self.old self.new result ⊥ }
    {
        self.count_call()?;
        self.store.company(alloc, id)
    }

    fn companies(&mut self, alloc: Global) -> Result<Vec<Company>, StoreFault>
        ensures gives { GivesHeldList self.old self.new result (λ b. b.companies) }
        ensures counts { Counts self.old self.new result
            ((rows_in self.old.store).companies ≢ []) }
    {
        self.count_call()?;
        self.store.companies(alloc)
    }

    fn submission(
        &mut self,
        alloc: Global,
        company: Id,
        reference: Ref,
    ) -> Result<Option<Row>, StoreFault>
        ensures gives { GivesHeld self.old self.new result (submission company reference) }
        ensures counts { Counts self.old self.new result ⊤ }
    {
        self.count_call()?;
        self.store.submission(alloc, company, reference)
    }

    fn submission_count(&mut self, alloc: Global, company: Id) -> Result<u64, StoreFault>
        ensures gives { GivesHeld self.old self.new result (submission_count company) }
        ensures counts { Counts self.old self.new result ⊤ }
    {
        self.count_call()?;
        self.store.submission_count(alloc, company)
    }

    fn open_rows(&mut self, alloc: Global, company: Id, since: Day) -> Result<Vec<Row>, StoreFault>
        ensures gives { GivesHeldList self.old self.new result (open_rows_of company since) }
        ensures counts { Counts self.old self.new result ⊤ }
    {
        self.count_call()?;
        self.store.open_rows(alloc, company, since)
    }

    fn retries_of(
        &mut self,
        alloc: Global,
        company: Id,
        of: Ref,
        index: u64,
    ) -> Result<Vec<Row>, StoreFault>
        ensures gives { GivesHeldList self.old self.new result (retries_of company of index) }
        ensures counts { Counts self.old self.new result ⊤ }
    {
        self.count_call()?;
        self.store.retries_of(alloc, company, of, index)
    }

    fn entries_of(&mut self, alloc: Global, company: Id) -> Result<Vec<Row>, StoreFault>
        ensures gives { GivesHeldList self.old self.new result (λ b. b.rows company) }
        ensures counts { Counts self.old self.new result ⊤ }
    {
        self.count_call()?;
        self.store.entries_of(alloc, company)
    }

    fn waiting_of(
        &mut self,
        alloc: Global,
        company: Company,
    ) -> Result<Vec<HeldSubmission>, StoreFault>
        ensures gives { GivesHeldList self.old self.new result (waiting_of company) }
        ensures counts { Counts self.old self.new result ⊤ }
    {
        self.count_call()?;
        self.store.waiting_of(alloc, company)
    }

    fn waiting(&mut self, alloc: Global) -> Result<Vec<HeldSubmission>, StoreFault>
        ensures gives { GivesHeldList self.old self.new result waiting }
        ensures counts { Counts self.old self.new result ⊤ }
    {
        self.count_call()?;
        self.store.waiting(alloc)
    }

    fn last_number(&mut self, alloc: Global) -> Result<LastNumber, StoreFault>
        ensures gives { GivesHeld self.old self.new result last_number }
        ensures counts { Counts self.old self.new result ⊥ }
    {
        self.count_call()?;
        self.store.last_number(alloc)
    }

    fn latest_settled(
        &mut self,
        alloc: Global,
        from: u32,
        to: u32,
    ) -> Result<Option<Day>, StoreFault>
        ensures gives { GivesHeld self.old self.new result (latest_settled from to) }
        ensures counts { Counts self.old self.new result ⊤ }
    {
        self.count_call()?;
        self.store.latest_settled(alloc, from, to)
    }

    fn files_on(&mut self, alloc: Global, day: Day) -> Result<u64, StoreFault>
        ensures gives { GivesHeld self.old self.new result (λ b. b.files_on day) }
        ensures counts { Counts self.old self.new result ⊥ }
    {
        self.count_call()?;
        self.store.files_on(alloc, day)
    }

    fn traced_entries(
        &mut self,
        alloc: Global,
        traces: &[Option<Trace>],
    ) -> Result<Vec<Option<NamedEntry>>, StoreFault>
        ensures gives { GivesHeldList self.old self.new result (traced_entries traces.now) }
        ensures counts { Counts self.old self.new result ⊤ }
    {
        self.count_call()?;
        self.store.traced_entries(alloc, traces)
    }

    fn returns_of(&mut self, alloc: Global, company: Id) -> Result<Vec<ReturnRow>, StoreFault>
        ensures gives { GivesHeldList self.old self.new result (λ b. b.returns company) }
        ensures counts { Counts self.old self.new result ⊤ }
    {
        self.count_call()?;
        self.store.returns_of(alloc, company)
    }

    fn changes_of(&mut self, alloc: Global, company: Id) -> Result<Vec<ChangeRow>, StoreFault>
        ensures gives { GivesHeldList self.old self.new result (λ b. b.changes company) }
        ensures counts { Counts self.old self.new result ⊤ }
    {
        self.count_call()?;
        self.store.changes_of(alloc, company)
    }

    fn postings_of(&mut self, alloc: Global, account: Account) -> Result<Vec<Posting>, StoreFault>
        ensures gives { GivesHeldList self.old self.new result (postings_of account) }
        ensures counts { Counts self.old self.new result ⊤ }
    {
        self.count_call()?;
        self.store.postings_of(alloc, account)
    }

    fn balances_of(
        &mut self,
        alloc: Global,
        account: Account,
    ) -> Result<Vec<(Day, i128)>, StoreFault>
        ensures gives { GivesHeldList self.old self.new result (balances_of account) }
        ensures counts { Counts self.old self.new result ⊤ }
    {
        self.count_call()?;
        self.store.balances_of(alloc, account)
    }

    fn suspense(&mut self, alloc: Global) -> Result<Vec<SuspenseRow>, StoreFault>
        ensures gives { GivesHeldList self.old self.new result (λ b. b.suspense) }
        ensures counts { Counts self.old self.new result ((rows_in self.old.store).suspense ≢ []) }
    {
        self.count_call()?;
        self.store.suspense(alloc)
    }

    fn suspense_count(&mut self, alloc: Global) -> Result<u64, StoreFault>
        ensures gives { GivesHeld self.old self.new result (λ b. length b.suspense) }
        ensures counts { Counts self.old self.new result ⊥ }
    {
        self.count_call()?;
        self.store.suspense_count(alloc)
    }

    fn file(
        &mut self,
        alloc: Global,
        day: Day,
        modifier: u8,
    ) -> Result<Option<ListOf<u8>>, StoreFault>
        ensures gives { GivesHeld self.old self.new result (λ b. b.file day modifier) }
        ensures counts { Counts self.old self.new result
            (find (is_file day modifier) (rows_in self.old.store).files ≢ None) }
    {
        self.count_call()?;
        self.store.file(alloc, day, modifier)
    }

    fn taken(&mut self, alloc: Global, key: [u8; 21]) -> Result<Option<TakenFile>, StoreFault>
        ensures gives { GivesHeld self.old self.new result (λ b. b.taken key) }
        ensures counts { Counts self.old self.new result ⊥ }
    {
        self.count_call()?;
        self.store.taken(alloc, key)
    }

    fn set_day(&mut self, alloc: Global, day: RuleDay) -> Result<(), StoreFault>
        ensures takes { TakesHeld self.old self.new result (set_day day) }
        ensures counts { Counts self.old self.new result ⊥ }
    {
        self.count_call()?;
        self.store.set_day(alloc, day)
    }

    fn set_holidays(&mut self, alloc: Global, holidays: Calendar) -> Result<(), StoreFault>
        ensures takes { TakesHeld self.old self.new result (set_holidays holidays) }
        ensures counts { Counts self.old self.new result ⊥ }
    {
        self.count_call()?;
        self.store.set_holidays(alloc, holidays)
    }

    fn put_company(&mut self, alloc: Global, company: Company) -> Result<(), StoreFault>
        ensures takes { TakesHeld self.old self.new result (put_company company) }
        ensures counts { Counts self.old self.new result ⊤ }
    {
        self.count_call()?;
        self.store.put_company(alloc, company)
    }

    fn put_limits(&mut self, alloc: Global, company: Id, limits: Limits) -> Result<(), StoreFault>
        ensures takes { TakesHeld self.old self.new result (put_limits company limits) }
        ensures counts { Counts self.old self.new result ⊥ }
    {
        self.count_call()?;
        self.store.put_limits(alloc, company, limits)
    }

    fn add_submission(
        &mut self,
        alloc: Global,
        company: Id,
        order: u64,
        content: &SizedSubmission,
        retry: Option<Retry>,
    ) -> Result<(), StoreFault>
        ensures takes { AddsHeld self.old self.new result company order content.now retry }
        ensures counts { Counts self.old self.new result ⊤ }
    {
        self.count_call()?;
        self.store
            .add_submission(alloc, company, order, content, retry)
    }

    fn commit_cut(&mut self, alloc: Global, cut: &CutRows<'_>) -> Result<(), StoreFault>
        ensures takes { TakesHeld self.old self.new result (cut_step cut.now) }
        ensures counts { Counts self.old self.new result ⊤ }
    {
        self.count_call()?;
        self.store.commit_cut(alloc, cut)
    }

    fn commit_intake(&mut self, alloc: Global, intake: &IntakeRows<'_>) -> Result<(), StoreFault>
        ensures takes { TakesHeld self.old self.new result (intake_step intake.now) }
        ensures counts { Counts self.old self.new result ⊤ }
    {
        self.count_call()?;
        self.store.commit_intake(alloc, intake)
    }
}
