//! Lists that are used up from the front and let their memory go.
#![tactic(auto)]

mod emptying;

pub use emptying::EmptyingList;
