//! The bytes of responses: a status line, three headers, an empty line and a body.
#![tactic(auto)]

mod laws;
mod printing;
mod response;
mod wrapping;

pub use laws::unavailable_is_response;
pub use printing::{HEAD_ROOM, ROOM, print_response, put_response, take_room};
pub use response::{Content, Response, UNAVAILABLE};
pub use wrapping::wrap_response;
