//! Plans a cut: which held submissions are sent and which lapse, the batches and files with their
//! sequences and texts, and all rows to write.
//!
//! `company_waiting` returns what a company has waiting, and what a cut would send of it;
//! `desk_waiting` sums that of all companies, and divides it into files as a cut does.
//!
//! Nothing here reads or writes a store. `number_cut` gives the batches their sequences, so that
//! the caller can look up their last use, and `plan_cut` plans the cut or refuses it.
#![tactic(auto)]

mod batches;
mod due;
mod fault;
mod files;
mod loads;
mod numbers;
mod plan;
mod postings;
mod printing;
mod sizes;
mod status;
mod waiting;

pub use fault::CutFault;
pub use numbers::{NumberedCut, number_cut};
pub use plan::{CutPlan, plan_cut};
pub use waiting::{CompanyWaiting, DeskWaiting, company_waiting, desk_waiting};
