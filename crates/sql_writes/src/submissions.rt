//! A submission or a retry is written with its entries.
ghost use Rattle.std.specs.Prelude.{◌≡◌, Some, IfOk, IsTrue, option_and_then};
ghost use Rattle.sqlite.specs.Values.{bound_value, or_null};
ghost use Rattle.sqlite_value.specs.Value.{owned};
ghost use Rattle.sqlite_value.specs.declared.value.Value.TheVariants.{Text};
ghost use Rattle.sql_tables.specs.Columns.{number};
ghost use Rattle.sql_tables.specs.Encodes.{AsksAs};
ghost use Rattle.sql_tables.specs.Layout.{desk_layout};
ghost use Rattle.sql_tables.specs.TableEdits.{add_submission_edit, put_submission_edit, put_authorization_edit};
ghost use Rattle.sql_writes.specs.DeskEdits.{Edits};
ghost use Rattle.sql_writes.specs.Retries.{tried_reference, tried_index};

use crate::batches::run_batches;
use crate::entries::EntryRows;
use ach_fields::{Id, Ref};
use bank_days::Day;
use desk_rules::{Retry, RuleDay, SizedSubmission, Submission};
use sql_statements::{TransactionBody, execute};
use sql_tables::{characters, date, direction, natural, switch};
use sqlite::types::ValueRef;
use sqlite::{Alter, Error, Transaction};

/// `AddSubmission` adds a company's submission or retry under an order number, held. It fails where
/// the company has the order number or the reference already, and where a retry asks under another
/// reference or for another day than its content.
#[derive(Clone, Copy)]
pub struct AddSubmission<'a> {
    pub company: Id,
    pub order: u64,
    pub content: &'a SizedSubmission,
    pub retry: Option<Retry>,
}

impl<'a> TransactionBody for AddSubmission<'a> {
    ghost layout = { desk_layout };

    ghost edit = { λ b. add_submission_edit b.company b.order b.content.now b.retry };

    fn run<S: Alter>(&self, tx: &mut Transaction<'_, S>) -> Result<(), Error> {
        let content = self.content.submission();
        put_submission(tx, &self.company, self.order, content, &self.retry)?;
        let rows = EntryRows {
            company: self.company,
            order: self.order,
        };
        run_batches(tx, &rows, 1, content.entries.as_slice())?;
        put_authorization(tx, &self.company, self.order, authorized_by(&self.retry))?;
        Ok(())
    }
}

// Does a retry ask under this reference and for this day?
fn asks_as(reference: &Ref, day: RuleDay, retry: &Option<Retry>) -> bool
    ensures { IsTrue result → AsksAs reference.now day retry.now }
{
    match retry {
        None => true,
        Some(retry) => {
            retry.reference.bytes() == reference.bytes() && retry.day.day() == day.day()
        }
    }
}

// The reference of the submission whose entry a retry tries again, NULL where there is no retry.
fn retried_reference<'a>(retry: &'a Option<Retry>) -> ValueRef<'a>
    ensures { bound_value (owned result) ≡ or_null Text (tried_reference retry.now) }
{
    match retry {
        None => ValueRef::Null,
        Some(retry) => characters(retry.of.bytes()),
    }
}

// The number of the entry that a retry tries again, NULL where there is no retry.
fn retried_index<'a>(retry: &Option<Retry>) -> Result<ValueRef<'a>, Error>
    ensures { IfOk result (λ v. bound_value (owned v) ≡ or_null number (tried_index retry.now)) }
{
    match retry {
        None => Ok(ValueRef::Null),
        Some(retry) => natural(retry.index),
    }
}

// The day on which the receiver authorized a retry.
fn authorized_by(retry: &Option<Retry>) -> Option<Day>
    ensures { result ≡ option_and_then (λ r. r.authorized) retry.now }
{
    match retry {
        None => None,
        Some(retry) => retry.authorized,
    }
}

// Writes the row of a held submission or retry.
fn put_submission<'x, S: Alter>(
    tx: &mut Transaction<'_, S>,
    company: &'x Id,
    order: u64,
    content: &'x Submission,
    retry: &'x Option<Retry>,
) -> Result<(), Error>
    ensures { Edits S.Store tx.old tx.new result
        (put_submission_edit company.now order content.now retry.now) }
{
    if !asks_as(&content.reference, content.day, retry) {
        return Err(Error::InvalidQuery);
    }
    let order = natural(order)?;
    let of_index = retried_index(retry)?;
    execute(
        tx,
        "INSERT INTO submissions VALUES (?1, ?2, ?3, ?4, ?5, ?6, ?7, ?8, ?9, ?10, ?11, ?12, ?13, ?14)",
        &[
            characters(company.bytes()),
            order,
            characters(content.reference.bytes()),
            characters(content.sec.text()),
            direction(content.direction),
            characters(content.description.bytes()),
            date(content.day.day()),
            retried_reference(retry),
            of_index,
            switch(false),
            ValueRef::Null,
            ValueRef::Null,
            ValueRef::Null,
            ValueRef::Null,
        ],
    )?;
    Ok(())
}

// Writes the day on which the receiver authorized a retry, if there is one.
fn put_authorization<S: Alter>(
    tx: &mut Transaction<'_, S>,
    company: &Id,
    order: u64,
    authorized: Option<Day>,
) -> Result<(), Error>
    ensures { Edits S.Store tx.old tx.new result
        (put_authorization_edit company.now order authorized) }
{
    match authorized {
        None => Ok(()),
        Some(day) => put_authorized_day(tx, company, order, day),
    }
}

// Writes the day on which the receiver authorized a retry.
fn put_authorized_day<S: Alter>(
    tx: &mut Transaction<'_, S>,
    company: &Id,
    order: u64,
    day: Day,
) -> Result<(), Error>
    ensures { Edits S.Store tx.old tx.new result
        (put_authorization_edit company.now order (Some day)) }
{
    let order = natural(order)?;
    execute(
        tx,
        "INSERT INTO authorizations VALUES (?1, ?2, ?3)",
        &[characters(company.bytes()), order, date(day)],
    )?;
    Ok(())
}
