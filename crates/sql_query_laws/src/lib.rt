//! What is asked of a desk's tables, and what a query of them shows of the rows that it finds.
//!
//! Queries and writes both stand on this, and not on each other. It stands in `specs/` and `proofs/`, and the
//! crate has nothing else.
#![tactic(auto)]
