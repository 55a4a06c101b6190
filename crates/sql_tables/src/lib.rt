//! This crate has the records of a desk's tables: what each row says in the desk's own types, how it
//! is stored as a row of SQL values and read back, and which book the tables hold.
//!
//! Four tables have no record of their own: a row of `holidays` is a `Day`, one of `companies` a
//! `Company`, one of `files` a `FileRow` and one of `taken` a `TakenFile`.
#![tactic(auto)]

mod column;
mod parts;
mod records;
mod row;

pub use column::{
    AccountText, FromColumn, MOST_ACCOUNT_CHARACTERS, account_text, cause, characters, date,
    direction, integer, line_reference, natural, number_of, optional_text, read_column,
    read_digest, read_number, read_ordinal, read_text_or_empty, reason, savings, switch,
};
pub use parts::{entry_state, facts_from, row_from};
pub use records::{
    AuthorizationRecord, BalanceRecord, ChangeRecord, DeskRecord, EntryRecord, NumberRecord,
    PostingRecord, ReturnRecord, SubmissionRecord, SuspenseRecord,
};
pub use row::entries::{EntryAmount, EntryPlace, NumberedEntry, PlacedEntry};
pub use row::items::{ChangeLine, EntryReturn, ReturnLine};
pub use row::lines::PostingLine;
pub use row::registry::KeyedIdentity;
pub use row::submissions::{OrderAndSettlement, SubmissionFacts, SubmissionHead};
pub use row::{FromRow, read_only_column};
