//! A desk keeps its book in SQL tables.
ghost use Rattle.sqlite.specs.Held.{state};
ghost use Rattle.sqlite.specs.State.{HasCleanDisk};
ghost use Rattle.sqlite_trees.specs.Tree.{Trees};
ghost use Rattle.sql_tables.specs.Layout.{Keeps, Sees};

use crate::last_number::{number_of, place_after};
use crate::whole_write::write;
use ach_fields::{Id, Ref, Trace};
use bank_days::{Calendar, Day};
use desk_accounts::{Account, Posting};
use desk_book::{Caller, HeldSize, HeldSubmission, NamedEntry, OpenSubmission, Row};
use desk_history::{ChangeRow, Identity, ListOf, ReturnRow, SuspenseRow, TakenFile};
use desk_rules::{Company, Limits, Rates, Retry, RuleDay, SizedSubmission};
use desk_store::{CutRows, IntakeRows, LastNumber, Store, StoreFault};
use sql_read_laws::{files_of_tables, numbers_of_tables, registry_of_tables, rows_of_tables};
use sql_read_steps::or_unavailable;
use sql_write_laws::{
    company_follows, cut_follows, day_follows, holidays_follow, intake_follows, limits_follow,
    submission_follows,
};
use sql_writes::{
    AddSubmission, CommitCut, CommitIntake, PutCompany, PutLimits, SetDay, SetHolidays,
};
use sqlite::{Alter, Connection};
use std::alloc::Global;

/// A `SqlStore` keeps a desk in the tables that a connection sees.
///
/// Each read is one query or a few, and each write one transaction. A connection that is inside a
/// transaction, a row that is outside the ranges of its columns, a fault of the engine and want of
/// memory are `Unavailable`, and then the tables are as they were.
#[derive(Drop)]
pub struct SqlStore<S: Alter> {
    pub(crate) conn: Connection<S>,
}

impl<S: Alter> Store for SqlStore<S> {
    ghost holds = { λ s b. Sees (state S.Store s.conn) b };

    ghost Kept = { Trees };

    ghost keeps = { Keeps };

    ghost may_leave = { λ s k. (state S.Store s.conn).may_leave k };

    ghost is_clean = { λ s. HasCleanDisk (state S.Store s.conn) };

    fn identity(&mut self, _alloc: Global) -> Result<Identity, StoreFault> {
        registry_of_tables();
        or_unavailable(sql_queries::identity(&mut self.conn))
    }

    fn key_of(&mut self, _alloc: Global, caller: Caller) -> Result<Option<[u8; 32]>, StoreFault> {
        registry_of_tables();
        sql_reads::key_of(&mut self.conn, caller)
    }

    fn day(&mut self, _alloc: Global) -> Result<Option<RuleDay>, StoreFault> {
        registry_of_tables();
        or_unavailable(sql_queries::day(&mut self.conn))
    }

    fn calendar(&mut self, alloc: Global) -> Result<Calendar, StoreFault> {
        registry_of_tables();
        or_unavailable(sql_queries::calendar(&mut self.conn, alloc))
    }

    fn company(&mut self, _alloc: Global, id: Id) -> Result<Option<Company>, StoreFault> {
        registry_of_tables();
        or_unavailable(sql_queries::company(&mut self.conn, id))
    }

    fn companies(&mut self, alloc: Global) -> Result<Vec<Company>, StoreFault> {
        registry_of_tables();
        or_unavailable(sql_queries::companies(&mut self.conn, alloc))
    }

    fn submission(
        &mut self,
        alloc: Global,
        company: Id,
        reference: Ref,
    ) -> Result<Option<Row>, StoreFault> {
        rows_of_tables();
        sql_reads::submission(&mut self.conn, alloc, company, reference)
    }

    fn submission_count(&mut self, _alloc: Global, company: Id) -> Result<u64, StoreFault> {
        rows_of_tables();
        or_unavailable(sql_queries::last_order(&mut self.conn, company))
    }

    fn open_rows(
        &mut self,
        alloc: Global,
        company: Id,
        since: Day,
    ) -> Result<Vec<Row>, StoreFault> {
        rows_of_tables();
        sql_reads::open_rows(&mut self.conn, alloc, company, since)
    }

    fn open_entries(
        &mut self,
        alloc: Global,
        company: Id,
        since: Day,
    ) -> Result<Vec<OpenSubmission>, StoreFault> {
        rows_of_tables();
        sql_measures::open_entries(&mut self.conn, alloc, company, since)
    }

    fn retries_of(
        &mut self,
        alloc: Global,
        company: Id,
        of: Ref,
        index: u64,
    ) -> Result<Vec<Row>, StoreFault> {
        rows_of_tables();
        sql_reads::retries_of(&mut self.conn, alloc, company, of, index)
    }

    fn entries_of(&mut self, alloc: Global, company: Id) -> Result<Vec<Row>, StoreFault> {
        rows_of_tables();
        sql_reads::entries_of(&mut self.conn, alloc, company)
    }

    fn exposures(
        &mut self,
        alloc: Global,
        company: Id,
        today: Day,
    ) -> Result<(u128, u128), StoreFault> {
        rows_of_tables();
        sql_measures::exposures(&mut self.conn, alloc, company, today)
    }

    fn rates(&mut self, alloc: Global, company: Id, today: Day) -> Result<Rates, StoreFault> {
        rows_of_tables();
        sql_measures::rates_of(&mut self.conn, alloc, company, today)
    }

    fn waiting_of(
        &mut self,
        alloc: Global,
        company: Company,
    ) -> Result<Vec<HeldSubmission>, StoreFault> {
        rows_of_tables();
        sql_reads::waiting_of(&mut self.conn, alloc, &company)
    }

    fn held_sizes_of(
        &mut self,
        alloc: Global,
        company: Company,
    ) -> Result<Vec<HeldSize>, StoreFault> {
        rows_of_tables();
        sql_reads::held_sizes_of(&mut self.conn, alloc, &company)
    }

    fn waiting(&mut self, alloc: Global) -> Result<Vec<HeldSubmission>, StoreFault> {
        rows_of_tables();
        sql_reads::waiting(&mut self.conn, alloc)
    }

    fn due(
        &mut self,
        alloc: Global,
        day: RuleDay,
        holidays: &Calendar,
    ) -> Result<Vec<HeldSubmission>, StoreFault> {
        rows_of_tables();
        sql_reads::due(&mut self.conn, alloc, day, holidays)
    }

    fn last_number(&mut self, _alloc: Global) -> Result<LastNumber, StoreFault> {
        numbers_of_tables();
        let last = or_unavailable(sql_queries::last_number(&mut self.conn))?;
        Ok(number_of(last))
    }

    fn latest_settled(
        &mut self,
        alloc: Global,
        from: u32,
        to: u32,
    ) -> Result<Option<Day>, StoreFault> {
        numbers_of_tables();
        sql_reads::latest_settled(&mut self.conn, alloc, from, to)
    }

    fn files_on(&mut self, alloc: Global, day: Day) -> Result<u64, StoreFault> {
        files_of_tables();
        sql_reads::files_on(&mut self.conn, alloc, day)
    }

    fn traced_entries(
        &mut self,
        alloc: Global,
        traces: &[Option<Trace>],
    ) -> Result<Vec<Option<NamedEntry>>, StoreFault> {
        numbers_of_tables();
        sql_reads::traced_entries(&mut self.conn, alloc, traces)
    }

    fn returns_of(&mut self, alloc: Global, company: Id) -> Result<Vec<ReturnRow>, StoreFault> {
        rows_of_tables();
        sql_reads::returns_of(&mut self.conn, alloc, company)
    }

    fn changes_of(&mut self, alloc: Global, company: Id) -> Result<Vec<ChangeRow>, StoreFault> {
        rows_of_tables();
        sql_reads::changes_of(&mut self.conn, alloc, company)
    }

    fn postings_of(&mut self, alloc: Global, account: Account) -> Result<Vec<Posting>, StoreFault> {
        files_of_tables();
        or_unavailable(sql_queries::postings(&mut self.conn, alloc, account))
    }

    fn balances_of(
        &mut self,
        alloc: Global,
        account: Account,
    ) -> Result<Vec<(Day, i128)>, StoreFault> {
        files_of_tables();
        sql_reads::balances_of(&mut self.conn, alloc, account)
    }

    fn suspense(&mut self, alloc: Global) -> Result<Vec<SuspenseRow>, StoreFault> {
        files_of_tables();
        or_unavailable(sql_queries::suspense(&mut self.conn, alloc))
    }

    fn suspense_count(&mut self, _alloc: Global) -> Result<u64, StoreFault> {
        files_of_tables();
        or_unavailable(sql_queries::last_suspense_number(&mut self.conn))
    }

    fn file(
        &mut self,
        alloc: Global,
        day: Day,
        modifier: u8,
    ) -> Result<Option<ListOf<u8>>, StoreFault> {
        files_of_tables();
        sql_reads::file(&mut self.conn, alloc, day, modifier)
    }

    fn taken(&mut self, _alloc: Global, key: [u8; 21]) -> Result<Option<TakenFile>, StoreFault> {
        files_of_tables();
        or_unavailable(sql_queries::taken_file(&mut self.conn, key))
    }

    fn set_day(&mut self, _alloc: Global, day: RuleDay) -> Result<(), StoreFault> {
        day_follows();
        write(&mut self.conn, &SetDay { day })
    }

    fn set_holidays(&mut self, _alloc: Global, holidays: Calendar) -> Result<(), StoreFault> {
        holidays_follow();
        let body = SetHolidays {
            holidays: &holidays,
        };
        write(&mut self.conn, &body)
    }

    fn put_company(&mut self, _alloc: Global, company: Company) -> Result<(), StoreFault> {
        company_follows();
        write(&mut self.conn, &PutCompany { company })
    }

    fn put_limits(
        &mut self,
        _alloc: Global,
        company: Id,
        limits: Limits,
    ) -> Result<(), StoreFault> {
        limits_follow();
        write(&mut self.conn, &PutLimits { company, limits })
    }

    fn add_submission(
        &mut self,
        _alloc: Global,
        company: Id,
        order: u64,
        content: &SizedSubmission,
        retry: Option<Retry>,
    ) -> Result<(), StoreFault> {
        submission_follows();
        let body = AddSubmission {
            company,
            order,
            content,
            retry,
        };
        write(&mut self.conn, &body)
    }

    fn commit_cut(&mut self, _alloc: Global, cut: &CutRows<'_>) -> Result<(), StoreFault> {
        cut_follows();
        let first = place_after(cut.before)?;
        let body = CommitCut { first, cut: *cut };
        write(&mut self.conn, &body)
    }

    fn commit_intake(&mut self, _alloc: Global, intake: &IntakeRows<'_>) -> Result<(), StoreFault> {
        intake_follows();
        let body = CommitIntake {
            rows: IntakeRows {
                returned: intake.returned,
                changed: intake.changed,
                suspense: intake.suspense,
                postings: intake.postings,
                file: intake.file,
            },
        };
        write(&mut self.conn, &body)
    }
}
