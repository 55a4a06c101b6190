//! Plans a cut: the division of its batches into files, the sequences of their entries, and the
//! modifiers of the files.
//!
//! A file holds at most twelve digits of cents each way, 1,000 batches and 100,000 records 6 and 7;
//! `divide` begins a new one only if the next batch does not fit. Sequences have seven digits and
//! are used again: `plan_numbers` gives each batch its range, and `is_past` says when a used
//! sequence is free. A day has 36 modifiers over all its cuts; `modifier` gives them in order, and
//! `made_before` checks whether enough are left. The caller decides from these whether a cut is
//! refused.
#![tactic(auto)]

mod batch;
mod day_modifiers;
mod files;
mod laws;
mod load;
mod numbers;
mod reuse;

pub use batch::Batch;
pub use day_modifiers::{MOST_FILES, made_before, modifier};
pub use files::divide;
pub use laws::{
    accepted_alone, by_ranges, fewer_files, latest_in_rows, modifiers_of_a_day, never_twice,
    one_division, sent_by_cut, youngest_after,
};
pub use numbers::{NumberFault, plan_numbers};
pub use reuse::is_past;
