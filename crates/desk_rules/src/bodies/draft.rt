//! A body before its fields are checked: each field is `None` if it is missing or has another JSON
//! type.
ghost use Rattle.std.specs.Prelude.{◌≡◌, IfOk};

use std::alloc::{AllocError, Global};
use std::marker::Model;

/// A `DraftText` is a text of any length.
#[derive(Drop)]
pub struct DraftText {
    bytes: Vec<u8>,
}

// Clauses see the bytes.
impl Model for DraftText {
    ghost use Rattle.std.specs.Prelude.{List, ℕ};

    ghost Value = { List ℕ };

    ghost view = { λ t. t.bytes.items };
}

impl DraftText {
    /// Makes a text of these bytes.
    pub fn new(bytes: Vec<u8>) -> DraftText
        ensures { result ≡ bytes.items }
    {
        DraftText { bytes }
    }

    /// Makes a text of a copy of these bytes.
    pub fn from_slice(alloc: Global, bytes: &[u8]) -> Result<DraftText, AllocError>
        ensures { IfOk result (λ t. t ≡ bytes.now) }
    {
        Ok(DraftText {
            bytes: Vec::from_slice(alloc, bytes)?,
        })
    }

    /// Gives its bytes.
    pub fn bytes(&self) -> &[u8]
        ensures { result.now ≡ self.now }
    {
        self.bytes.as_slice()
    }
}

/// An `Optional` is a field that may be left out.
#[derive(Clone, Copy, Debug, PartialEq, Eq, Drop)]
pub enum Optional<T> {
    /// The body leaves the field out.
    Absent,
    /// The body has the field, of another kind than it should be.
    Wrong,
    /// The body has the field, of the kind that it should be.
    Given(T),
}

/// An `EntryDraft` is an entry of a submission.
#[derive(Drop)]
pub struct EntryDraft {
    pub routing: Option<DraftText>,
    pub account: Option<DraftText>,
    pub kind: Option<DraftText>,
    pub prenote: Optional<bool>,
    pub cents: Option<u64>,
    pub id: Option<DraftText>,
    pub name: Option<DraftText>,
    pub info: Optional<DraftText>,
}

/// The entries of a submission's draft, each `None` if it is not an object.
#[derive(Drop)]
pub struct EntryDrafts {
    items: Vec<Option<EntryDraft>>,
}

// Clauses see the list.
impl Model for EntryDrafts {
    ghost use Rattle.std.specs.Prelude.{List, Option};
    ghost use Rattle.desk_rules.specs.declared.bodies.draft.EntryDraft.{EntryDraft};

    ghost Value = { List (Option EntryDraft) };

    ghost view = { λ t. t.items.items };
}

impl EntryDrafts {
    /// Makes a list of these entries.
    pub fn new(items: Vec<Option<EntryDraft>>) -> EntryDrafts
        ensures { result ≡ items.items }
    {
        EntryDrafts { items }
    }

    /// Gives the entries in their order.
    pub fn as_slice(&self) -> &[Option<EntryDraft>]
        ensures { result.now ≡ self.now }
    {
        self.items.as_slice()
    }
}

/// A submission before its fields are checked: credits or debits that a company submits under a
/// reference of its own.
#[derive(Drop)]
pub struct Draft {
    pub reference: Option<DraftText>,
    pub sec: Option<DraftText>,
    pub direction: Option<DraftText>,
    pub description: Option<DraftText>,
    pub day: Option<DraftText>,
    pub entries: Option<EntryDrafts>,
}

/// A `RetryDraft` is a retry: a returned debit that is to be tried again (Nacha's reinitiation),
/// named by the reference of its submission and its number there.
#[derive(Drop)]
pub struct RetryDraft {
    pub reference: Option<DraftText>,
    pub of: Option<DraftText>,
    pub index: Option<u64>,
    pub day: Option<DraftText>,
    pub authorized: Optional<DraftText>,
}

/// A `CompanyDraft` is a company that is to be registered, with the SHA-256 digest of its key.
#[derive(Drop)]
pub struct CompanyDraft {
    pub id: Option<DraftText>,
    pub name: Option<DraftText>,
    pub key: Option<DraftText>,
    pub limits: LimitDrafts,
    pub digest: [u8; 32],
}

/// A `LimitsDraft` has new limits of a company.
#[derive(Drop)]
pub struct LimitsDraft {
    pub id: Option<DraftText>,
    pub limits: LimitDrafts,
}

/// `LimitDrafts` are three limits in cents.
#[derive(Clone, Copy, Debug, PartialEq, Eq, Drop)]
pub struct LimitDrafts {
    pub entry: Option<u64>,
    pub credit: Option<u64>,
    pub debit: Option<u64>,
}
