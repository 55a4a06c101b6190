//! The store that keeps lists in memory.
ghost use Rattle.std.specs.Prelude.{[]};
ghost use Rattle.desk_book.specs.Book.{book_of};
ghost use Rattle.memory_store.specs.Kept.{IsHeld};

use crate::row_places::RowPlaces;
use crate::settlement_index::SettlementIndex;
use crate::trace_index::TraceIndex;
use ach_fields::Id;
use bank_days::Calendar;
use desk_accounts::Posting;
use desk_book::{ChangedRow, FileRow, ReturnedRow, SentRow};
use desk_history::{Identity, SentEntry, SuspenseRow, TakenFile};
use desk_rules::{Company, EntryState, Retry, RuleDay, SizedSubmission};
use std::alloc::Global;

/// A `KeptSubmission` is a company's submission or retry with its entries.
#[derive(Drop)]
pub(crate) struct KeptSubmission {
    pub(crate) company: Id,
    pub(crate) order: u64,
    pub(crate) content: SizedSubmission,
    pub(crate) retry: Option<Retry>,
    pub(crate) settled: Option<RuleDay>,
    pub(crate) lapsed: bool,
    pub(crate) states: Vec<EntryState>,
}

/// A `ListStore` has the lists of a desk, in memory.
#[derive(Drop)]
pub struct ListStore {
    pub(crate) identity: Identity,
    pub(crate) operator_key: [u8; 32],
    pub(crate) day: Option<RuleDay>,
    pub(crate) holidays: Calendar,
    pub(crate) companies: Vec<Company>,
    pub(crate) submissions: Vec<KeptSubmission>,
    pub(crate) places: RowPlaces,
    pub(crate) returned: Vec<ReturnedRow>,
    pub(crate) changed: Vec<ChangedRow>,
    pub(crate) postings: Vec<Posting>,
    pub(crate) sent: Vec<SentEntry>,
    pub(crate) traces: TraceIndex,
    pub(crate) settlements: SettlementIndex,
    pub(crate) printed: Vec<SentRow>,
    pub(crate) suspense: Vec<SuspenseRow>,
    pub(crate) files: Vec<FileRow>,
    pub(crate) taken: Vec<TakenFile>,
}

impl ListStore {
    /// Makes the store of a new desk, with the SHA-256 digest of the operator's key.
    pub fn new(alloc: Global, identity: Identity, operator_key: [u8; 32]) -> ListStore
        ensures { IsHeld result (book_of identity operator_key []) }
    {
        ListStore {
            identity,
            operator_key,
            day: None,
            holidays: Calendar::empty(alloc),
            companies: Vec::new(alloc),
            submissions: Vec::new(alloc),
            places: RowPlaces::new(alloc),
            returned: Vec::new(alloc),
            changed: Vec::new(alloc),
            postings: Vec::new(alloc),
            sent: Vec::new(alloc),
            traces: TraceIndex::new(alloc),
            settlements: SettlementIndex::new(alloc),
            printed: Vec::new(alloc),
            suspense: Vec::new(alloc),
            files: Vec::new(alloc),
            taken: Vec::new(alloc),
        }
    }
}
