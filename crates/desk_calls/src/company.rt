//! A company's calls: its submissions and its reads.
pub(crate) mod reads;
pub(crate) mod report;
pub(crate) mod statement;
pub(crate) mod submission;
