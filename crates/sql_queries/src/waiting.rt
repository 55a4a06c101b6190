//! The submissions of a company that wait for a cut stand first in an index: they are read one at a time,
//! up to the first that does not wait.
ghost use Rattle.sql_queries.specs.Waiting.{waits};

use crate::reading::RowTest;
use sql_tables::SubmissionHead;

/// `Waiting` are the submissions that wait for a cut.
pub(crate) struct Waiting;

impl RowTest<SubmissionHead> for Waiting {
    ghost passes = { λ _. waits };

    fn goes_on(&self, head: &SubmissionHead) -> bool {
        head.settled.is_none() && !head.lapsed
    }
}
