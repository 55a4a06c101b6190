//! A store in memory that refuses one call, to test how a desk reacts. No program uses it.
#![tactic(auto)]

mod store;

pub use store::FaultyStore;
