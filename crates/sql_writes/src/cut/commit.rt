//! A cut is written whole.
ghost use Rattle.sql_tables.specs.Layout.{desk_layout};
ghost use Rattle.sql_tables.specs.TableEdits.{commit_cut_edit};
ghost use Rattle.desk_store.specs.Written.{cut_rows};

use crate::account_lines::put_lines;
use crate::cut::entries::place_entries;
use crate::cut::files::PutFiles;
use crate::cut::submissions::{LapseSubmissions, SendSubmissions};
use crate::runs::run_runs;
use desk_store::CutRows;
use sql_statements::{TransactionBody, run_each};
use sqlite::{Alter, Error, Transaction};

/// `CommitCut` writes all that a cut writes. It fails where a statement of it does: where a submission
/// does not wait, an entry is not there or was sent already, or a file is there already.
#[derive(Clone, Copy)]
pub struct CommitCut<'a> {
    /// The place of its first entry among all sent entries.
    pub first: u64,
    pub cut: CutRows<'a>,
}

impl<'a> TransactionBody for CommitCut<'a> {
    ghost layout = { desk_layout };

    ghost edit = { λ b. commit_cut_edit b.first (cut_rows b.cut) };

    fn run<S: Alter>(&self, tx: &mut Transaction<'_, S>) -> Result<(), Error> {
        run_runs(tx, &SendSubmissions, 1, self.cut.sent)?;
        run_each(tx, &LapseSubmissions, 1, self.cut.lapsed)?;
        place_entries(tx, self.first, self.cut.entries)?;
        put_lines(tx, self.cut.postings)?;
        run_each(tx, &PutFiles, 1, self.cut.files)?;
        Ok(())
    }
}
