//! The meaning of the desk: the answer to each call as a function of its history, which is all that
//! happened before the call.
//!
//! `Call` and `Answer` are the calls of the desk and their answers. The definitions of this crate
//! give the answer to each call after a history; for a company, from its own part of the history
//! alone. The laws are proved for all histories.
#![tactic(auto)]

mod accepted_laws;
mod account_laws;
mod alone_laws;
mod answer;
mod call;
mod companies;
mod cut_laws;
mod identity;
mod laws;
mod list_of;
mod operations;
mod party_name;
mod posting_laws;
mod reports;
mod sent_entry;
mod sent_laws;
mod status;

pub use accepted_laws::{accepted_in_order, authorizations_left_out};
pub use account_laws::accounts_cancel;
pub use alone_laws::served_alone;
pub use answer::{Answer, CallRefusal, Outcome};
pub use call::Call;
pub use companies::{CompanyRisk, DeskCompanies};
pub use cut_laws::{accepted_cuts, due_of_status, files_of_status, traces_name, traces_of_cuts};
pub use identity::Identity;
pub use laws::{
    companies_rows, company_of_part, digest_of_part, first_answer_stands, one_message, two_worlds,
};
pub use list_of::ListOf;
pub use operations::{
    CutSummary, DaySum, Intake, Settlement, SuspenseReason, SuspenseRow, TakenFile,
};
pub use party_name::PartyName;
pub use posting_laws::company_lines;
pub use reports::{
    ChangeRow, DayRates, Exposure, Receipt, ReportedEntry, RetriedEntry, ReturnRow, Statement,
    StatementLine, SubmissionReport,
};
pub use sent_entry::{FilePlace, SentEntry};
pub use sent_laws::{possible_parts, sent_are_accepted};
pub use status::{CompanyStatus, DeskStatus, DueDay, Tallies, Tally};
