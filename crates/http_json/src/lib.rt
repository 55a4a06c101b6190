//! This crate reads the JSON bodies of messages and writes those of answers.
//!
//! A body that is read becomes a draft, whose fields `desk_rules` checks. A body that is written is
//! compact, with its keys in byte order. Nothing here knows how a body came or where it goes.
//!
//! Members of objects are written after a text, each as `serde_json` writes it. The caller has taken
//! room for what is written, so no such call takes memory and none can fail: an answer can be written so
//! after the desk has committed to it.
#![tactic(auto)]

mod acceptance;
mod drafts;
mod field_keys;
mod judged;
mod members;
mod number;
mod quoted;
mod read;
mod refusals;
mod room;
mod values;

pub use acceptance::put_acceptance;
pub use drafts::{company_draft, day_draft, limits_draft, retry_draft, submission_draft, text_of};
pub use judged::judged_draft;
pub use members::{put_decimal, put_flag, put_key, put_number, put_signed, put_text, put_whole};
pub use quoted::put_quoted;
pub use read::read_object;
pub use refusals::{fault_text, refusal_text};
pub use room::{put, put_comma};
