//! The tests of the calls of a desk: days of calls with the answers that they must have, over each store (`calls`).
#![tactic(auto)]

#[cfg(test)]
mod calls;
