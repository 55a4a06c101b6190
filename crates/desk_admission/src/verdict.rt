//! A request has a verdict: its answer, and the row that it adds.
use desk_history::Answer;
use desk_rules::{Retry, SizedSubmission};

/// A `NewRow` is a row that is to be added.
#[derive(Drop)]
pub struct NewRow {
    /// Its number among the company's accepted submissions and retries, from 1.
    pub order: u64,
    pub content: SizedSubmission,
    pub retry: Option<Retry>,
}

/// A `Verdict` is the answer to a request, and what it adds.
#[derive(Drop)]
pub struct Verdict {
    pub answer: Answer,
    pub added: Option<NewRow>,
}
