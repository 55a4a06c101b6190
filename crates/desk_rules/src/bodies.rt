//! The bodies of requests: drafts as they were read, and the checks that turn them into
//! submissions, retries, days, companies and limits.
pub(crate) mod company;
pub(crate) mod draft;
pub(crate) mod entry_cents;
pub(crate) mod fields;
pub(crate) mod operator_fields;
pub(crate) mod retry_fields;
pub(crate) mod same_content;
pub(crate) mod sized_submission;
pub(crate) mod submission;
pub(crate) mod submission_fields;
