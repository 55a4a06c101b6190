//! The history of a desk over bytes: which bytes answer each message, and what a company's bytes
//! are made of.
//!
//! A message comes to a fault or to a call (`specs/Verdict.antt`). The messages with their answers are
//! the history, and its calls are a history of `desk_history`. The laws say that the bytes which a
//! company gets are a function of its own part of the history.
#![tactic(auto)]

mod laws;

pub use laws::{
    calls_alone, calls_are_history, companies_rows, first_calls, none_unavailable, one_meaning,
    own_text, same_part, served_alone, two_worlds,
};
