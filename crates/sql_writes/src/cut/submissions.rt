//! A cut sends submissions, and lets retries lapse.
ghost use Rattle.sql_tables.specs.Layout.{desk_layout};
ghost use Rattle.sql_tables.specs.TableEdits.{send_edit, lapse_edit};
ghost use Rattle.sql_writes.specs.Runs.{is_run};
ghost use Rattle.sql_writes.specs.SentRuns.{batch_follows};

use crate::runs::{Follows, RunBody, execute_all, run_length, span_of};
use desk_book::{LapsedRow, SentRow};
use sql_statements::{RowBody, execute_one};
use sql_tables::{characters, date, natural};
use sqlite::{Alter, Error, Transaction};

/// `SendSubmissions` marks each submission of a list as sent: it settles on its day, and was printed
/// at its place. One that is not there, settles already or has lapsed is refused with
/// `Error::InvalidQuery`.
///
/// Submissions whose orders follow one another as their batches do in one file are marked by one
/// statement.
#[derive(Clone, Copy)]
pub(crate) struct SendSubmissions;

impl Follows for SendSubmissions {
    type Row = SentRow;

    ghost stands_after = { λ _ first after s. batch_follows first after s };

    fn follows(&self, first: &SentRow, after: u64, row: &SentRow) -> bool {
        match (
            first.order.checked_add(after),
            first.printed.batch.checked_add(after),
        ) {
            (Some(order), Some(batch)) => {
                row.company.bytes() == first.company.bytes()
                    && row.order == order
                    && row.settled == first.settled
                    && row.printed.day == first.printed.day
                    && row.printed.modifier == first.printed.modifier
                    && row.printed.batch == batch
            }
            _ => false,
        }
    }
}

impl RunBody for SendSubmissions {
    type Row = SentRow;

    type Way = ();

    ghost layout = { desk_layout };

    ghost edit = { λ _ _ s. send_edit s };

    ghost are_run = { λ _ _ rows. is_run batch_follows rows };

    fn first_run(&self, rows: &[SentRow]) -> ((), usize) {
        ((), run_length(self, rows))
    }

    fn run_rows<S: Alter>(
        &self,
        tx: &mut Transaction<'_, S>,
        _number: u64,
        _way: (),
        run: &[SentRow],
    ) -> Result<(), Error> {
        let first = &run[0];
        let span = span_of(first.printed.batch, first.order, run.len())?;
        let letter = [first.printed.modifier];
        let from = natural(first.order)?;
        let to = natural(span.last)?;
        execute_all(
            tx,
            "UPDATE submissions SET settled = ?4, file_day = ?5, modifier = ?6, batch = ?7 + ord WHERE company = ?1 AND ord BETWEEN ?2 AND ?3 AND settled IS NULL AND lapsed = 0",
            &[
                characters(first.company.bytes()),
                from,
                to,
                date(first.settled.day()),
                date(first.printed.day),
                characters(&letter),
                span.added,
            ],
            run.len(),
        )?;
        Ok(())
    }
}

/// `LapseSubmissions` marks each retry of a list as lapsed. One that is not there, settles or has
/// lapsed already is refused with `Error::InvalidQuery`.
#[derive(Clone, Copy)]
pub(crate) struct LapseSubmissions;

impl RowBody for LapseSubmissions {
    type Row = LapsedRow;

    ghost layout = { desk_layout };

    ghost edit = { λ _ _ l. lapse_edit l };

    fn run_row<S: Alter>(
        &self,
        tx: &mut Transaction<'_, S>,
        _number: u64,
        row: &LapsedRow,
    ) -> Result<(), Error> {
        let order = natural(row.order)?;
        execute_one(
            tx,
            "UPDATE submissions SET lapsed = 1 WHERE company = ?1 AND ord = ?2 AND settled IS NULL AND lapsed = 0",
            &[characters(row.company.bytes()), order],
        )?;
        Ok(())
    }
}
