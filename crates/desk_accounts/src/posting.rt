use crate::Account;
use ach_fields::Ref;
use bank_days::Day;

/// A `Cause` says why something was posted.
#[derive(Clone, Copy, Debug, PartialEq, Eq)]
pub enum Cause {
    /// A submission was sent.
    Cut,
    /// An entry was returned.
    Return,
}

/// A `Posting` is a line of an account.
#[derive(Clone, Copy, Debug, PartialEq, Eq)]
pub struct Posting {
    /// The account whose line it is.
    pub account: Account,
    /// The first day on which it counts.
    pub value_day: Day,
    /// The cents that it adds to the account, below zero where it takes.
    pub cents: i64,
    /// The cause for which it was posted.
    pub cause: Cause,
    /// The company's reference of the submission; none where the entry is not known.
    pub reference: Option<Ref>,
    /// The number of the entry in its submission, from 1; 0 for a whole submission, and where the
    /// entry is not known.
    pub idx: u64,
}
