//! Submissions and retries have fields that are right.
ghost use Rattle.std.specs.Prelude.{◌≡◌, ◌≤◌, [], ◌∷◌, ◌++◌, length, IfOk, OnOk, OnErr};
ghost use Rattle.desk_rules.specs.Fields.{sec_text};
ghost use Rattle.desk_rules.specs.LimitChecks.{is_debit};

use crate::{EntryCents, RuleDay};
use ach_fields::{Ref, Routing, ShortText};
use bank_days::Day;
use std::alloc::{AllocError, Global};
use std::marker::Model;

/// A `SecCode` is the standard entry class code (SEC) of a batch: consumers' entries (PPD) or
/// companies' (CCD).
#[derive(Clone, Copy, Debug, PartialEq, Eq, Drop)]
pub enum SecCode {
    Ppd,
    Ccd,
}

impl SecCode {
    /// Gives the three letters that files and bodies have for it.
    pub fn text(self) -> &'static [u8; 3]
        ensures { result.now ≡ sec_text self }
    {
        match self {
            SecCode::Ppd => b"PPD",
            SecCode::Ccd => b"CCD",
        }
    }
}

/// The direction of the money, as the receiver sees it.
#[derive(Clone, Copy, Debug, PartialEq, Eq, Drop)]
pub enum Direction {
    Credit,
    Debit,
}

impl Direction {
    /// Is it that of debits?
    pub fn is_debit(self) -> bool
        ensures { result ≡ is_debit self }
    {
        self == Direction::Debit
    }
}

/// An `AccountKind` is the kind of the receiver's account.
#[derive(Clone, Copy, Debug, PartialEq, Eq, Drop)]
pub enum AccountKind {
    Checking,
    Savings,
}

/// An `Entry` is a credit or a debit of one receiver's account.
#[derive(Clone, Copy, Debug, PartialEq, Eq, Drop)]
pub struct Entry {
    /// The receiver's bank (the RDFI).
    pub routing: Routing,
    pub account: ShortText<17>,
    pub kind: AccountKind,
    /// Is it a prenotification, which tries the account and moves no money?
    pub prenote: bool,
    pub cents: EntryCents,
    /// The company's name for the receiver, which may be empty.
    pub id: ShortText<15>,
    pub name: ShortText<22>,
    /// Payment information, sent on in an addenda 05.
    pub info: Option<ShortText<80>>,
}

/// `Entries` are the entries of a submission, one at least.
#[derive(Drop)]
pub struct Entries {
    items: Vec<Entry>,
}

// Clauses see the list.
impl Model for Entries {
    ghost use Rattle.std.specs.Prelude.{List, ◌≤◌, length};
    ghost use Rattle.desk_rules.specs.declared.bodies.submission.Entry.{Entry};

    ghost Value = { List Entry };

    ghost view = { λ t. t.items.items };

    ghost invariant = { λ t. 1 ≤ length t.items.items };
}

impl Entries {
    /// Makes a list of one entry.
    pub fn new(alloc: Global, first: Entry) -> Result<Entries, AllocError>
        ensures { IfOk result (λ entries. entries ≡ first ∷ []) }
    {
        Ok(Entries {
            items: Vec::from_slice(alloc, &[first])?,
        })
    }

    /// Appends an entry.
    ///
    /// # Errors
    ///
    /// Without memory the list is unchanged.
    pub fn push(&mut self, entry: Entry) -> Result<(), AllocError>
        ensures ok { OnOk result (self.new ≡ self.old ++ entry ∷ []) }
        ensures err { OnErr result (self.new ≡ self.old) }
    {
        // The checker follows a move of `Entry` only where its parts' types are seen.
        let _info = entry.info;
        self.items.push(entry)?;
        Ok(())
    }

    /// Makes a copy of the list.
    pub fn copy(&self, alloc: Global) -> Result<Entries, AllocError>
        ensures { IfOk result (λ entries. entries ≡ self.now) }
    {
        Ok(Entries {
            items: Vec::from_slice(alloc, self.items.as_slice())?,
        })
    }

    /// Gives the entries in their order.
    pub fn as_slice(&self) -> &[Entry]
        ensures value { result.now ≡ self.now }
        ensures some { 1 ≤ length self.now }
    {
        self.items.as_slice()
    }
}

/// A `Submission` has fields that are right. It may still have too many entries or too large a
/// total.
#[derive(Drop)]
pub struct Submission {
    pub reference: Ref,
    pub sec: SecCode,
    pub direction: Direction,
    pub description: ShortText<10>,
    /// The day on which the company wants it to settle.
    pub day: RuleDay,
    pub entries: Entries,
}

/// A `Retry` has fields that are right.
#[derive(Clone, Copy, Debug, PartialEq, Eq, Drop)]
pub struct Retry {
    pub reference: Ref,
    /// The reference of the submission that has the entry.
    pub of: Ref,
    /// The entry's number there, from 1.
    pub index: u64,
    /// The day on which the company wants it to settle.
    pub day: RuleDay,
    /// The day on which the receiver authorized a stopped payment again.
    pub authorized: Option<Day>,
}
