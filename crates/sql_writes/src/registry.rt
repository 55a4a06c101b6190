//! The desk, its calendar and its companies are written.
ghost use Rattle.sql_tables.specs.Layout.{desk_layout};
ghost use Rattle.sql_tables.specs.TableEdits.{set_day_edit, set_holidays_edit, put_company_edit, put_limits_edit};
ghost use Rattle.sql_writes.specs.HolidayEdits.{clear_holidays_edit, put_holiday_edit};
ghost use Rattle.sql_writes.specs.DeskEdits.{Edits};

use ach_fields::Id;
use bank_days::{Calendar, Day};
use desk_rules::{Company, Limits, RuleDay};
use sql_statements::{RowBody, TransactionBody, blob, execute, run_each};
use sql_tables::{characters, date, natural};
use sqlite::{Alter, Error, Transaction};

/// `SetDay` sets the desk day.
#[derive(Clone, Copy)]
pub struct SetDay {
    pub day: RuleDay,
}

impl TransactionBody for SetDay {
    ghost layout = { desk_layout };

    ghost edit = { λ b. set_day_edit b.day };

    fn run<S: Alter>(&self, tx: &mut Transaction<'_, S>) -> Result<(), Error> {
        set_day(tx, self.day.day())
    }
}

// Writes the desk day into the one row of the desk.
fn set_day<S: Alter>(tx: &mut Transaction<'_, S>, day: Day) -> Result<(), Error>
    ensures { Edits S.Store tx.old tx.new result (set_day_edit day) }
{
    execute(tx, "UPDATE desk SET day = ?1 WHERE id = 1", &[date(day)])?;
    Ok(())
}

/// `SetHolidays` sets the holidays, in place of all that there were.
#[derive(Clone, Copy)]
pub struct SetHolidays<'a> {
    pub holidays: &'a Calendar,
}

impl<'a> TransactionBody for SetHolidays<'a> {
    ghost layout = { desk_layout };

    ghost edit = { λ b. set_holidays_edit b.holidays.now };

    fn run<S: Alter>(&self, tx: &mut Transaction<'_, S>) -> Result<(), Error> {
        clear_holidays(tx)?;
        run_each(tx, &HolidayRows, 1, self.holidays.holidays())?;
        Ok(())
    }
}

// Takes out all holidays.
fn clear_holidays<S: Alter>(tx: &mut Transaction<'_, S>) -> Result<(), Error>
    ensures { Edits S.Store tx.old tx.new result clear_holidays_edit }
{
    execute(tx, "DELETE FROM holidays", &[])?;
    Ok(())
}

// A row of the calendar is a day.
#[derive(Clone, Copy)]
struct HolidayRows;

impl RowBody for HolidayRows {
    type Row = Day;

    ghost layout = { desk_layout };

    ghost edit = { λ _ _ day. put_holiday_edit day };

    fn run_row<S: Alter>(
        &self,
        tx: &mut Transaction<'_, S>,
        _number: u64,
        day: &Day,
    ) -> Result<(), Error> {
        execute(tx, "INSERT INTO holidays VALUES (?1)", &[date(*day)])?;
        Ok(())
    }
}

/// `PutCompany` registers a company. It fails where the company is there already.
#[derive(Clone, Copy)]
pub struct PutCompany {
    pub company: Company,
}

impl TransactionBody for PutCompany {
    ghost layout = { desk_layout };

    ghost edit = { λ b. put_company_edit b.company };

    fn run<S: Alter>(&self, tx: &mut Transaction<'_, S>) -> Result<(), Error> {
        put_company(tx, &self.company)
    }
}

// Writes the row of a new company.
fn put_company<S: Alter>(tx: &mut Transaction<'_, S>, company: &Company) -> Result<(), Error>
    ensures { Edits S.Store tx.old tx.new result (put_company_edit company.now) }
{
    let entry = natural(company.limits.entry)?;
    let credit = natural(company.limits.credit)?;
    let debit = natural(company.limits.debit)?;
    execute(
        tx,
        "INSERT INTO companies VALUES (?1, ?2, ?3, ?4, ?5, ?6)",
        &[
            characters(company.id.bytes()),
            characters(company.name.bytes()),
            blob(&company.digest),
            entry,
            credit,
            debit,
        ],
    )?;
    Ok(())
}

/// `PutLimits` sets the limits of a company; where there is none of the identification it changes
/// nothing.
#[derive(Clone, Copy)]
pub struct PutLimits {
    pub company: Id,
    pub limits: Limits,
}

impl TransactionBody for PutLimits {
    ghost layout = { desk_layout };

    ghost edit = { λ b. put_limits_edit b.company b.limits };

    fn run<S: Alter>(&self, tx: &mut Transaction<'_, S>) -> Result<(), Error> {
        put_limits(tx, &self.company, &self.limits)
    }
}

// Writes the limits into the row of the company.
fn put_limits<S: Alter>(
    tx: &mut Transaction<'_, S>,
    company: &Id,
    limits: &Limits,
) -> Result<(), Error>
    ensures { Edits S.Store tx.old tx.new result (put_limits_edit company.now limits.now) }
{
    let entry = natural(limits.entry)?;
    let credit = natural(limits.credit)?;
    let debit = natural(limits.debit)?;
    execute(
        tx,
        "UPDATE companies SET entry_limit = ?2, credit_limit = ?3, debit_limit = ?4 WHERE id = ?1",
        &[characters(company.bytes()), entry, credit, debit],
    )?;
    Ok(())
}
