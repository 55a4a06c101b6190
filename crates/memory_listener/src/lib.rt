//! A listener in memory. Its clients are known bytes: what they send, and what they are answered.
//!
//! It shows that what `serve` says of a listener is not empty: of this one it says which bytes each client
//! gets.
#![tactic(auto)]

mod client;
mod clients;
mod serving;
#[cfg(test)]
mod tests;

pub use client::Client;
pub use clients::Clients;
pub use serving::serve_clients;
