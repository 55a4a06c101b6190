//! What the writes of a desk make of its tables is what their steps make of its book.
//!
//! Each law stands in the contract of a function: after the write's edit the tables are those of the
//! book after its step.
#![tactic(auto)]

mod cut;
mod intake;
mod operator;
mod submission;

pub use cut::cut_follows;
pub use intake::intake_follows;
pub use operator::{company_follows, day_follows, holidays_follow, limits_follow};
pub use submission::submission_follows;
