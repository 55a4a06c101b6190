//! The worked cases of `desk_history`: whole histories for which the checker computes the answers
//! by the definitions.
//!
//! They have a crate of their own so that the crates above `desk_history` need not wait for them.
//! They are in `proofs/`, and the crate has nothing else.
#![tactic(auto)]
