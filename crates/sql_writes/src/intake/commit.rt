//! An incoming file is written, with all that it brings.
ghost use Rattle.sql_tables.specs.Layout.{desk_layout};
ghost use Rattle.sql_tables.specs.TableEdits.{commit_intake_edit};
ghost use Rattle.desk_store.specs.Written.{intake_rows};

use crate::account_lines::put_lines;
use crate::intake::changes::put_changes;
use crate::intake::returns::put_returns;
use crate::intake::suspense::put_suspense;
use crate::intake::taken::put_taken;
use desk_store::IntakeRows;
use sql_statements::TransactionBody;
use sqlite::{Alter, Error, Transaction};

/// `CommitIntake` writes an incoming file: its returns and notifications of change, what stands in
/// suspense, the lines of accounts, and the file itself. It fails where the key of the file was taken
/// before, and where a return is of an entry that was returned before.
#[derive(Clone, Copy)]
pub struct CommitIntake<'a> {
    pub rows: IntakeRows<'a>,
}

impl<'a> TransactionBody for CommitIntake<'a> {
    ghost layout = { desk_layout };

    ghost edit = { λ b. commit_intake_edit (intake_rows b.rows) };

    fn run<S: Alter>(&self, tx: &mut Transaction<'_, S>) -> Result<(), Error> {
        put_returns(tx, self.rows.returned)?;
        put_changes(tx, self.rows.changed)?;
        put_suspense(tx, self.rows.suspense)?;
        put_lines(tx, self.rows.postings)?;
        put_taken(tx, &self.rows.file)?;
        Ok(())
    }
}
