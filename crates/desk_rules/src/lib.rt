//! The rules of the desk, each a plain function over facts: which bodies are submissions, retries,
//! days, companies and limits, and why one is refused; a company's exposures, the cents that its
//! entries may still cost the bank; until when a return is in time (Nacha's return deadlines);
//! which returned debits may be retried (Nacha's reinitiation); and the share of returned debits
//! (Nacha's return rates).
//!
//! `check_fields` takes memory, and the calls that make or copy a text of a draft, a list of entries or
//! a submission; no rule does. Rules accept days up to 2100-01-31, so that every day they count to
//! exists.
#![tactic(auto)]

mod bodies;
mod laws;
mod refusals;
mod rules;

pub use bodies::company::{Company, Limits};
pub use bodies::draft::{
    CompanyDraft, Draft, DraftText, EntryDraft, EntryDrafts, LimitDrafts, LimitsDraft, Optional,
    RetryDraft,
};
pub use bodies::entry_cents::EntryCents;
pub use bodies::fields::is_key;
pub use bodies::operator_fields::{check_company_fields, check_day_field, check_limits_fields};
pub use bodies::retry_fields::check_retry_fields;
pub use bodies::sized_submission::SizedSubmission;
pub use bodies::submission::{AccountKind, Direction, Entries, Entry, Retry, SecCode, Submission};
pub use bodies::submission_fields::check_fields;
pub use laws::{counted_deadlines, first_refusals, rated_facts_suffice, same_contents};
pub use refusals::names::RefusalName;
pub use refusals::refusal::{Field, Refusal, RuleFault};
pub use rules::attempt::Attempt;
pub use rules::deadlines::{deadline, is_late};
pub use rules::entry_fact::{EntryFact, EntryState};
pub use rules::exposure::{credit_exposure, debit_exposure, is_open_credit, is_open_debit};
pub use rules::limit_checks::{check_limits, check_submission};
pub use rules::rate::{Level, Rate, Rates};
pub use rules::retry_rule::{is_too_late, may_retry};
pub use rules::return_code::ReturnCode;
pub use rules::return_rates::{exceeds, rates};
pub use rules::rule_day::RuleDay;
pub use rules::size::{MOST_ENTRIES, check_size, total};
pub use rules::time_class::TimeClass;
