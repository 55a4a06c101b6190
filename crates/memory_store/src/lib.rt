//! This crate has the store that keeps a desk's book in memory, in lists.
#![tactic(auto)]

mod balances;
mod calls;
mod changes;
mod cut;
mod entries;
mod intake;
mod items;
mod list_store;
mod place_index;
mod reads;
mod row_key;
mod row_places;
mod sent;
mod settlement_index;
mod trace_index;
mod traced;
mod waiting;
mod writes;

pub use list_store::ListStore;
