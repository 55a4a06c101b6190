//! The names to build a desk on: its calls and their answers, over any store, and the two stores in
//! memory, one of which refuses a call, for tests.
//!
//! The meaning of the desk is defined in `desk_history`, its store in `desk_store`, its book in
//! `desk_book`, and its answers in `desk_calls`. No crate of the desk uses this one, so that none
//! waits for what it does not use.
#![tactic(auto)]

pub use desk_book::{
    Caller, ChangedRow, FileRow, HeldSize, HeldSubmission, LapsedRow, NamedEntry, ReturnedRow,
    ReturnsAndChanges, Row, SentRow, book_tells, entries_of_cuts, entries_of_intakes, reads_leave,
    row_steps, rows_of_part, steps_of_messages, steps_of_operator, tells_companies, tells_cut,
    tells_intake, tells_operator, tells_replies, tells_status, twice_acts_once, verdicts_on_rows,
};
pub use desk_calls::{Desk, crashes_leave, desk_alone, two_desks};
pub use desk_cut::{
    CompanyWaiting, CutFault, CutPlan, DeskWaiting, NumberedCut, company_waiting, desk_waiting,
    number_cut, plan_cut,
};
pub use desk_history::{
    Answer, Call, CallRefusal, ChangeRow, CompanyRisk, CompanyStatus, CutSummary, DayRates, DaySum,
    DeskCompanies, DeskStatus, DueDay, Exposure, FilePlace, Identity, Intake, ListOf, Outcome,
    PartyName, Receipt, ReportedEntry, RetriedEntry, ReturnRow, SentEntry, Settlement, Statement,
    StatementLine, SubmissionReport, SuspenseReason, SuspenseRow, TakenFile, Tallies, Tally,
    accepted_cuts, accepted_in_order, accounts_cancel, companies_rows, company_lines,
    company_of_part, digest_of_part, first_answer_stands, one_message, possible_parts,
    sent_are_accepted, served_alone, traces_name, traces_of_cuts, two_worlds,
};
pub use desk_intake::{FoundItem, IntakePlan, plan_intake};
pub use desk_plan::{NumberFault, plan_numbers};
pub use desk_store::{CutRows, IntakeRows, LastNumber, Store, StoreFault};
pub use faulty_store::FaultyStore;
pub use memory_store::ListStore;
