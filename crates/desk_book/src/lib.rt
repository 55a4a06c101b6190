//! The book of a desk: its rows, its reads and its steps. The book determines every answer, and the
//! effect of each message on the book.
//!
//! The answers of a desk are defined over its history. A desk keeps a book and no history, so each
//! definition is given here once more, over the book, and the laws say that both give the same.
#![tactic(auto)]

mod book_laws;
mod caller;
mod companies_laws;
mod cut_laws;
mod due;
mod flat_rows;
mod held_size;
mod held_submission;
mod intake_laws;
mod message_laws;
mod named_entry;
mod open_rows;
mod open_submission;
mod returns_and_changes;
mod row;
mod row_laws;
mod status_laws;
mod sum_laws;
mod sums;

pub use book_laws::{
    steps_of_messages, steps_of_operator, tells_operator, tells_replies, unauthorized_books,
};
pub use caller::Caller;
pub use companies_laws::tells_companies;
pub use cut_laws::{entries_of_cuts, tells_cut};
pub use due::{due_among, is_due};
pub use flat_rows::{ChangedRow, FileRow, LapsedRow, ReturnedRow, SentRow};
pub use held_size::{HeldSize, held_sizes, records_of, size_of};
pub use held_submission::HeldSubmission;
pub use intake_laws::{entries_of_intakes, tells_intake};
pub use message_laws::{book_tells, reads_leave, twice_acts_once};
pub use named_entry::NamedEntry;
pub use open_rows::{first_open_day, open_rows_suffice};
pub use open_submission::{OpenSubmission, open_cents, open_submissions, total_of};
pub use returns_and_changes::ReturnsAndChanges;
pub use row::{Row, state_numbered};
pub use row_laws::{row_steps, rows_of_part, verdicts_on_rows};
pub use status_laws::tells_status;
pub use sum_laws::{exposures_grow, rates_stay};
pub use sums::{exposures_among, rates_among};
