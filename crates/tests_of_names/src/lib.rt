//! The test of the public names of the desk.
//!
//! It is a crate of its own, since it uses all the others and names methods at concrete types.
#![tactic(auto)]

#[cfg(test)]
mod names;
