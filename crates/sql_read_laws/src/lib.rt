//! What reads find in a desk's stored tables is what the desk's book says.
#![tactic(auto)]

mod numbers;
mod registry;
mod rows;

pub use numbers::numbers_of_tables;
pub use registry::{files_of_tables, registry_of_tables};
pub use rows::rows_of_tables;
