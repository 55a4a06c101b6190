//! A desk keeps its book in a store, in whatever way.
ghost use Rattle.std.specs.Prelude.{◌≡◌, length, Option};
ghost use Rattle.desk_book.specs.Book.{Book};
ghost use Rattle.desk_book.specs.HeldSizes.{held_sizes_of};
ghost use Rattle.desk_book.specs.OnCut.{due};
ghost use Rattle.desk_book.specs.OnIntake.{traced_entries};
ghost use Rattle.desk_book.specs.OpenSubmissions.{open_entries_of};
ghost use Rattle.desk_book.specs.Reads.{key_of, company, submission, submission_count, open_rows_of, retries_of, waiting_of, waiting, last_sequence, sent_count, latest_settled, sent_as, items_of};
ghost use Rattle.desk_book.specs.Steps.{set_day, set_holidays, put_company, put_limits};
ghost use Rattle.desk_book.specs.Sums.{exposures_of, rates_of};
ghost use Rattle.desk_store.specs.Accounts.{postings_of, balances_of};
ghost use Rattle.desk_store.specs.LastNumber.{last_number};
ghost use Rattle.desk_store.specs.Written.{cut_step, intake_step};
ghost use Rattle.desk_store.specs.declared.store.StoreFault.TheVariants.{Unavailable};
ghost use Rattle.desk_store.specs.Promises.{CallGives, CallGivesList, CallTakes, CallAdds};

use ach_fields::{Id, Ref, Trace};
use bank_days::{Calendar, Day};
use desk_accounts::{Account, Posting};
use desk_book::{
    Caller, ChangedRow, FileRow, HeldSize, HeldSubmission, LapsedRow, NamedEntry, OpenSubmission,
    ReturnedRow, ReturnsAndChanges, Row, SentRow, due_among, exposures_among, first_open_day,
    held_sizes, open_submissions, rates_among,
};
use desk_history::{ChangeRow, Identity, ListOf, ReturnRow, SentEntry, SuspenseRow, TakenFile};
use desk_rules::{Company, Limits, Rates, Retry, RuleDay, SizedSubmission};
use std::alloc::{AllocError, AllocFailed, Global};

/// A `StoreFault` says why a store does not answer.
#[derive(Clone, Copy, Debug, PartialEq, Eq, Drop)]
pub enum StoreFault {
    /// The store is out of memory, or could not act. It holds what it held.
    Unavailable,
}

impl From<AllocError> for StoreFault {
    ghost from_gives = { λ _ e. e ≡ Unavailable };

    fn from(_error: AllocError) -> StoreFault {
        StoreFault::Unavailable
    }
}

impl<T: Drop> From<AllocFailed<T>> for StoreFault {
    ghost from_gives = { λ _ e. e ≡ Unavailable };

    fn from(_error: AllocFailed<T>) -> StoreFault {
        StoreFault::Unavailable
    }
}

/// A `LastNumber` is the number of the last sent entry.
#[derive(Clone, Copy, Debug, PartialEq, Eq, Drop)]
pub struct LastNumber {
    /// Its sequence, 0 where no entry was sent.
    pub sequence: u32,
    /// Its place among all sent entries, from 1, which is their number.
    pub place: u64,
}

/// `CutRows` are all that a cut writes.
#[derive(Clone, Copy)]
pub struct CutRows<'a> {
    /// How many entries were sent before it.
    pub before: u64,
    pub sent: &'a [SentRow],
    pub lapsed: &'a [LapsedRow],
    /// The entries of what is sent, in the order of their traces.
    pub entries: &'a [SentEntry],
    pub postings: &'a [Posting],
    pub files: &'a [FileRow],
}

/// `IntakeRows` are all that an incoming file writes.
#[derive(Clone, Copy)]
pub struct IntakeRows<'a> {
    pub returned: &'a [ReturnedRow],
    pub changed: &'a [ChangedRow],
    pub suspense: &'a [SuspenseRow],
    pub postings: &'a [Posting],
    pub file: TakenFile,
}

/// The store of a desk. It holds a book.
///
/// Each call succeeds, or returns `StoreFault::Unavailable` and leaves the book unchanged. Each write is
/// one atomic step. The clauses about the book hold if the store is clean when the call ends.
///
/// A write must succeed for the rows that a desk writes. For other rows a store may return
/// `Unavailable`: a company, reference, file or key that exists already; a retry unlike its content; a
/// submission that is sent or lapses and is not held, or appears twice; an entry that was sent before,
/// or a sequence past 9,999,999; a return or change of an unknown reference, or a return of an entry
/// that was not sent; sums of an account that it cannot keep.
pub trait Store {
    /// Says which books it may hold: the one that it holds.
    ghost holds: { Self → Book → Type 0 };

    /// Is in what form it keeps a book, as the rows of its tables: what a crash leaves is this.
    ghost Kept: { Type 0 };

    /// The books that have this form. It may be two, because the tables of a desk no longer name the
    /// older entry of a sequence that is used again.
    ghost keeps: { Kept → Book → Type 0 };

    /// Says what a crash may leave.
    ghost may_leave: { Self → Kept → Type 0 };

    /// Says that nobody else wrote to it, and that it gave back what was written.
    ghost is_clean: { Self → Type 0 };

    /// Reads the identity of the desk.
    fn identity(&mut self, alloc: Global) -> Result<Identity, StoreFault>
        ensures { CallGives is_clean holds may_leave self.old self.new result (λ b. b.identity) };

    /// Reads the digest of a caller's key, or `None` if the company is not registered.
    fn key_of(&mut self, alloc: Global, caller: Caller) -> Result<Option<[u8; 32]>, StoreFault>
        ensures { CallGives is_clean holds may_leave self.old self.new result (key_of caller) };

    /// Reads the desk day, once one was set.
    fn day(&mut self, alloc: Global) -> Result<Option<RuleDay>, StoreFault>
        ensures { CallGives is_clean holds may_leave self.old self.new result (λ b. b.day) };

    /// Reads the holidays.
    fn calendar(&mut self, alloc: Global) -> Result<Calendar, StoreFault>
        ensures { CallGives is_clean holds may_leave self.old self.new result (λ b. b.holidays) };

    /// Reads a registered company, with its present limits.
    fn company(&mut self, alloc: Global, id: Id) -> Result<Option<Company>, StoreFault>
        ensures { CallGives is_clean holds may_leave self.old self.new result (company id) };

    /// Reads all registered companies, with their present limits, by identification.
    fn companies(&mut self, alloc: Global) -> Result<Vec<Company>, StoreFault>
        ensures { CallGivesList is_clean holds may_leave self.old self.new result
            (λ b. b.companies) };

    /// Reads a company's submission or retry with its entries, by its reference.
    fn submission(
        &mut self,
        alloc: Global,
        company: Id,
        reference: Ref,
    ) -> Result<Option<Row>, StoreFault>
        ensures { CallGives is_clean holds may_leave self.old self.new result
            (submission company reference) };

    /// Says how many submissions and retries a company has.
    fn submission_count(&mut self, alloc: Global, company: Id) -> Result<u64, StoreFault>
        ensures { CallGives is_clean holds may_leave self.old self.new result
            (submission_count company) };

    /// Reads a company's open submissions and retries with their entries, by order number: those with
    /// an entry that is held or settled on a day or later. Returned entries count too.
    fn open_rows(&mut self, alloc: Global, company: Id, since: Day) -> Result<Vec<Row>, StoreFault>
        ensures { CallGivesList is_clean holds may_leave self.old self.new result
            (open_rows_of company since) };

    /// Reads of the same submissions and retries only what exposures depend on: the direction, the
    /// settlement day and the cents, without names, accounts and texts. A store without a better way
    /// reads the whole rows.
    fn open_entries(
        &mut self,
        alloc: Global,
        company: Id,
        since: Day,
    ) -> Result<Vec<OpenSubmission>, StoreFault>
        ensures { CallGivesList is_clean holds may_leave self.old self.new result
            (open_entries_of company since) }
    {
        let rows = self.open_rows(alloc, company, since)?;
        Ok(open_submissions(alloc, &rows)?)
    }

    /// Reads a company's retries of the entry that has this number in the submission with this
    /// reference, by order number.
    fn retries_of(
        &mut self,
        alloc: Global,
        company: Id,
        of: Ref,
        index: u64,
    ) -> Result<Vec<Row>, StoreFault>
        ensures { CallGivesList is_clean holds may_leave self.old self.new result
            (retries_of company of index) };

    /// Reads a company's submissions and retries with their entries, by order number.
    fn entries_of(&mut self, alloc: Global, company: Id) -> Result<Vec<Row>, StoreFault>
        ensures { CallGivesList is_clean holds may_leave self.old self.new result
            (λ b. b.rows company) };

    /// Reads a company's credit exposure and its debit exposure on a day, in cents. A store without a
    /// better way reads the holidays and the rows that still count: the open ones, or all if every
    /// settlement still counts.
    fn exposures(
        &mut self,
        alloc: Global,
        company: Id,
        today: Day,
    ) -> Result<(u128, u128), StoreFault>
        ensures { CallGives is_clean holds may_leave self.old self.new result
            (exposures_of company today) }
    {
        desk_book::open_rows_suffice();
        let calendar = self.calendar(alloc)?;
        let rows = match first_open_day(&calendar, today) {
            Some(since) => self.open_rows(alloc, company, since)?,
            None => self.entries_of(alloc, company)?,
        };
        Ok(exposures_among(alloc, &rows, today, &calendar)?)
    }

    /// Reads a company's return rates on a day. A store without a better way reads all the company's
    /// rows.
    fn rates(&mut self, alloc: Global, company: Id, today: Day) -> Result<Rates, StoreFault>
        ensures { CallGives is_clean holds may_leave self.old self.new result
            (rates_of company today) }
    {
        let rows = self.entries_of(alloc, company)?;
        Ok(rates_among(alloc, &rows, today)?)
    }

    /// Reads the held submissions of a company, by order number.
    fn waiting_of(
        &mut self,
        alloc: Global,
        company: Company,
    ) -> Result<Vec<HeldSubmission>, StoreFault>
        ensures { CallGivesList is_clean holds may_leave self.old self.new result
            (waiting_of company) };

    /// Reads of the held submissions of a company only their sizes, by order number, without names,
    /// accounts and texts. A store without a better way reads the whole submissions.
    fn held_sizes_of(
        &mut self,
        alloc: Global,
        company: Company,
    ) -> Result<Vec<HeldSize>, StoreFault>
        ensures { CallGivesList is_clean holds may_leave self.old self.new result
            (held_sizes_of company) }
    {
        let held = self.waiting_of(alloc, company)?;
        Ok(held_sizes(alloc, &held)?)
    }

    /// Reads the held submissions of all companies, by identification and then by order number.
    fn waiting(&mut self, alloc: Global) -> Result<Vec<HeldSubmission>, StoreFault>
        ensures { CallGivesList is_clean holds may_leave self.old self.new result waiting };

    /// Reads those of the held submissions of all companies that a cut on a day decides by these
    /// holidays, in the same order. A store without a better way reads all held submissions.
    fn due(
        &mut self,
        alloc: Global,
        day: RuleDay,
        holidays: &Calendar,
    ) -> Result<Vec<HeldSubmission>, StoreFault>
        ensures { CallGivesList is_clean holds may_leave self.old self.new result
            (due holidays.now day) }
    {
        let held = self.waiting(alloc)?;
        Ok(due_among(held, day, holidays))
    }

    /// Reads the number of the last sent entry.
    fn last_number(&mut self, alloc: Global) -> Result<LastNumber, StoreFault>
        ensures { CallGives is_clean holds may_leave self.old self.new result last_number };

    /// Reads the sequence of the last sent entry, 0 before the first.
    fn last_sequence(&mut self, alloc: Global) -> Result<u32, StoreFault>
        ensures { CallGives is_clean holds may_leave self.old self.new result last_sequence }
    {
        Ok(self.last_number(alloc)?.sequence)
    }

    /// Says how many entries were sent.
    fn sent_count(&mut self, alloc: Global) -> Result<u64, StoreFault>
        ensures { CallGives is_clean holds may_leave self.old self.new result sent_count }
    {
        Ok(self.last_number(alloc)?.place)
    }

    /// Reads the latest day on which a youngest entry settled that has a sequence from the first to
    /// the last.
    fn latest_settled(
        &mut self,
        alloc: Global,
        from: u32,
        to: u32,
    ) -> Result<Option<Day>, StoreFault>
        ensures { CallGives is_clean holds may_leave self.old self.new result
            (latest_settled from to) };

    /// Says how many files a day has.
    fn files_on(&mut self, alloc: Global, day: Day) -> Result<u64, StoreFault>
        ensures { CallGives is_clean holds may_leave self.old self.new result
            (λ b. b.files_on day) };

    /// Reads for each trace the youngest entry that has it, and whether that is returned. A text that
    /// is not a trace names nothing.
    fn traced_entries(
        &mut self,
        alloc: Global,
        traces: &[Option<Trace>],
    ) -> Result<Vec<Option<NamedEntry>>, StoreFault>
        ensures { CallGivesList is_clean holds may_leave self.old self.new result
            (traced_entries traces.now) };

    /// Reads the youngest entry that was sent with a trace.
    fn sent_as(&mut self, alloc: Global, trace: Trace) -> Result<Option<SentEntry>, StoreFault>
        ensures { CallGives is_clean holds may_leave self.old self.new result (sent_as trace) }
    {
        let named = self.traced_entries(alloc, &[Some(trace)])?;
        match named.first() {
            Some(Some(named)) => Ok(Some(named.entry)),
            _ => Ok(None),
        }
    }

    /// Returns the returns of a company's entries, in the order in which they were taken.
    fn returns_of(&mut self, alloc: Global, company: Id) -> Result<Vec<ReturnRow>, StoreFault>
        ensures { CallGivesList is_clean holds may_leave self.old self.new result
            (λ b. b.returns company) };

    /// Returns the notifications of change for a company's entries, in the order in which they were
    /// taken.
    fn changes_of(&mut self, alloc: Global, company: Id) -> Result<Vec<ChangeRow>, StoreFault>
        ensures { CallGivesList is_clean holds may_leave self.old self.new result
            (λ b. b.changes company) };

    /// Returns the returns and the notifications of change of a company's entries.
    fn items_of(&mut self, alloc: Global, company: Id) -> Result<ReturnsAndChanges, StoreFault>
        ensures { CallGives is_clean holds may_leave self.old self.new result (items_of company) }
    {
        let returns = self.returns_of(alloc, company)?;
        let changes = self.changes_of(alloc, company)?;
        Ok(ReturnsAndChanges {
            returns: ListOf::new(returns),
            changes: ListOf::new(changes),
        })
    }

    /// Reads the lines of an account, in the order in which they came.
    fn postings_of(&mut self, alloc: Global, account: Account) -> Result<Vec<Posting>, StoreFault>
        ensures { CallGivesList is_clean holds may_leave self.old self.new result
            (postings_of account) };

    /// Reads the sums of an account's lines by value day, ascending, in cents.
    fn balances_of(
        &mut self,
        alloc: Global,
        account: Account,
    ) -> Result<Vec<(Day, i128)>, StoreFault>
        ensures { CallGivesList is_clean holds may_leave self.old self.new result
            (balances_of account) };

    /// Reads the items in suspense, in the order in which they were taken.
    fn suspense(&mut self, alloc: Global) -> Result<Vec<SuspenseRow>, StoreFault>
        ensures { CallGivesList is_clean holds may_leave self.old self.new result
            (λ b. b.suspense) };

    /// Returns the number of items in suspense.
    fn suspense_count(&mut self, alloc: Global) -> Result<u64, StoreFault>
        ensures { CallGives is_clean holds may_leave self.old self.new result
            (λ b. length b.suspense) };

    /// Reads the text of a file, by its day and modifier.
    fn file(
        &mut self,
        alloc: Global,
        day: Day,
        modifier: u8,
    ) -> Result<Option<ListOf<u8>>, StoreFault>
        ensures { CallGives is_clean holds may_leave self.old self.new result
            (λ b. b.file day modifier) };

    /// Reads an incoming file that was taken, by its key.
    fn taken(&mut self, alloc: Global, key: [u8; 21]) -> Result<Option<TakenFile>, StoreFault>
        ensures { CallGives is_clean holds may_leave self.old self.new result (λ b. b.taken key) };

    /// Sets the desk day.
    fn set_day(&mut self, alloc: Global, day: RuleDay) -> Result<(), StoreFault>
        ensures { CallTakes is_clean holds may_leave keeps self.old self.new result (set_day day) };

    /// Sets the holidays.
    fn set_holidays(&mut self, alloc: Global, holidays: Calendar) -> Result<(), StoreFault>
        ensures { CallTakes is_clean holds may_leave keeps self.old self.new result
            (set_holidays holidays) };

    /// Registers a company.
    fn put_company(&mut self, alloc: Global, company: Company) -> Result<(), StoreFault>
        ensures { CallTakes is_clean holds may_leave keeps self.old self.new result
            (put_company company) };

    /// Sets a company's limits.
    fn put_limits(&mut self, alloc: Global, company: Id, limits: Limits) -> Result<(), StoreFault>
        ensures { CallTakes is_clean holds may_leave keeps self.old self.new result
            (put_limits company limits) };

    /// Adds a company's next submission or retry, with what a retry asked.
    fn add_submission(
        &mut self,
        alloc: Global,
        company: Id,
        order: u64,
        content: &SizedSubmission,
        retry: Option<Retry>,
    ) -> Result<(), StoreFault>
        ensures { CallAdds is_clean holds may_leave keeps self.old self.new result
            company order content.now retry };

    /// Writes all rows of a cut. Each of its entries is one of a submission that it sends, as the book
    /// has that submission, and `before` is the number of entries sent before.
    fn commit_cut(&mut self, alloc: Global, cut: &CutRows<'_>) -> Result<(), StoreFault>
        ensures { CallTakes is_clean holds may_leave keeps self.old self.new result
            (cut_step cut.now) };

    /// Writes all that an incoming file does. Each of its returns and changes is of an entry that was
    /// sent, with the order number and the reference of the submission that had it.
    fn commit_intake(&mut self, alloc: Global, intake: &IntakeRows<'_>) -> Result<(), StoreFault>
        ensures { CallTakes is_clean holds may_leave keeps self.old self.new result
            (intake_step intake.now) };
}
