//! Messages as they stand in a stream of bytes, and their reading.
//!
//! What a stream spells is a list of messages, however its bytes are cut into reads. A head is what the
//! grammar of `httparse` finds at the start, a body the bytes that its length counts.
#![tactic(auto)]

mod fields;
mod framing;
mod head;
mod laws;
mod message;
mod reading;
mod request;
mod unread;

pub use fields::{Fields, value_of};
pub use framing::{Framing, MAX_BODY};
pub use head::{MAX_FIELDS, request_at};
pub use laws::{cut_is_no_message, more_bytes, one_message, one_spelling, spelled_in_pieces};
pub use message::{MAX_MESSAGES, Message, Version, closes};
pub use reading::{Arrival, read_message};
pub use request::Request;
pub use unread::{MAX_HEAD, Unread};
