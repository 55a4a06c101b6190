//! What came back of a submission, as far as the states of its entries say it.
ghost use Rattle.sql_read_steps.specs.Answers.{LearnsOn};
ghost use Rattle.sql_reads.specs.RowsFound.{GiveStatesOf};

use desk_store::StoreFault;
use sql_read_steps::or_unavailable;
use sql_tables::{EntryReturn, SubmissionHead};
use sqlite::{Alter, Connection};
use std::alloc::Global;

/// Reads the returns of a submission of which the head is known. Of one that was not sent nothing is
/// asked: whatever stands among the returns, its entries are held, or lapsed.
pub(crate) fn returns_for<S: Alter>(
    conn: &mut Connection<S>,
    alloc: Global,
    head: &SubmissionHead,
) -> Result<Vec<EntryReturn>, StoreFault>
    ensures { LearnsOn S.Store conn.old conn.new result (GiveStatesOf head.now) }
{
    match head.settled {
        None => Ok(Vec::new(alloc)),
        Some(_) => {
            let returns = or_unavailable(sql_queries::returns(
                conn,
                alloc,
                head.company,
                head.order,
            ))?;
            Ok(returns)
        }
    }
}
