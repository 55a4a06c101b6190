//! The returns and changes of a company's entries.
use desk_history::{ChangeRow, ListOf, ReturnRow};

/// `ReturnsAndChanges` are the returns and changes of a company's entries, in the order in which
/// they came.
#[derive(Drop)]
pub struct ReturnsAndChanges {
    pub returns: ListOf<ReturnRow>,
    pub changes: ListOf<ChangeRow>,
}
