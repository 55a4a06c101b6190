//! The options of a submission, next to its entries.

/// A company and its key, and what all entries of its submission share.
#[derive(Clone, Copy, Debug, PartialEq, Eq)]
pub struct SubmitOptions<'a> {
    /// The company's identification: 1 to 10 of `A` to `Z` and `0` to `9`.
    pub company: &'a str,
    /// The company's key: 8 to 64 characters, none of them a blank.
    pub key: &'a str,
    /// The company's own reference for the submission.
    pub reference: &'a str,
    /// The standard entry class: `PPD` or `CCD`.
    pub sec: &'a str,
    /// `credit` or `debit`.
    pub direction: &'a str,
    /// The description of the entries for their receivers.
    pub description: &'a str,
    /// The day on which the entries are to settle, as `2025-01-10`.
    pub day: &'a str,
}
