//! A submission is held until a cut decides it.
use crate::Row;
use desk_rules::{Company, RuleDay};

/// A `HeldSubmission` is a submission that no cut has decided.
#[derive(Drop)]
pub struct HeldSubmission {
    pub company: Company,
    pub row: Row,
    /// The day on which its original settled, for a retry.
    pub original_settled: Option<RuleDay>,
}
