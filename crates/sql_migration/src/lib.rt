//! This crate makes a desk's tables of version 1 those of version 2, in one transaction, on a connection
//! that sees them.
//!
//! Version 1 used no sequence again and authorized no retry again, so it has no table of numbers and
//! none of authorizations. `specs/FirstVersion.antt` says which book its tables hold.
#![tactic(auto)]

mod body;
mod check;
mod entries;
mod first;

pub use body::migrate;
