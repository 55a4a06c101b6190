//! This crate has the steps of a read that takes several queries: what they tell of the tables of a desk, one
//! after another, and for each item of a list.
//!
//! Whatever goes wrong, the store could not act: `StoreFault::Unavailable`.
#![tactic(auto)]

mod each;
mod fault;

pub use each::{ItemRead, joined, read_each};
pub use fault::or_unavailable;
