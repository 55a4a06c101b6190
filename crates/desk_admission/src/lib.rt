//! Decides whether a caller is let in, and what becomes of a submission or a retry: its verdict,
//! and the one write of that.
//!
//! Its definitions also have the words for the promises of a call over any store: its answer, the
//! store's book after it, and what a crash may leave. The calls themselves are in `desk_calls`.
#![tactic(auto)]

mod guards;
mod keys;
mod limits;
mod receipt;
mod refusal;
mod requests;
mod verdict;

pub use guards::{company_limits, desk_day, rule_day};
pub use keys::allow;
pub use limits::within_limits;
pub use refusal::refuse;
pub use requests::{
    add, fresh_verdict, known_verdict, limits_and_day, next_order, refused_verdict,
};
pub use verdict::{NewRow, Verdict};
