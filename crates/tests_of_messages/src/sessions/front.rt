//! An answerer that reports how a message was read.
ghost use Rattle.std.specs.Prelude.{⊤};

use http::StatusCode;
use http_message::{Framing, Message, Request, closes};
use http_response::{Content, Response, print_response};
use http_routes::{RouteFault, Routes};
use http_session::{Answers, Unavailable};
use std::alloc::Global;

/// Answers the faults of messages, and every other message of a route with the message's own body.
#[derive(Drop)]
pub struct Front {
    pub routes: Routes,
    /// How many messages it answers before it cannot.
    pub left: usize,
}

/// The status of a message, and the body of its answer.
fn answer_to<'a>(routes: &Routes, message: &'a Message<'_>) -> (StatusCode, &'a [u8]) {
    match message {
        Message::BadHead => (StatusCode::BAD_REQUEST, b"{\"error\":\"BadHead\"}"),
        Message::Asked(request) => answer_to_request(routes, request),
    }
}

fn answer_to_request<'a>(routes: &Routes, request: &'a Request<'_>) -> (StatusCode, &'a [u8]) {
    match request.framing {
        Framing::LengthRequired => {
            return (
                StatusCode::LENGTH_REQUIRED,
                b"{\"error\":\"LengthRequired\"}",
            );
        }
        Framing::TooLarge => {
            return (StatusCode::PAYLOAD_TOO_LARGE, b"{\"error\":\"TooLarge\"}");
        }
        _ => {}
    }
    match routes.find(request.method, request.path) {
        Ok(_) => (StatusCode::OK, &request.body),
        Err(RouteFault::NotFound) => (StatusCode::NOT_FOUND, b"{\"error\":\"NotFound\"}"),
        Err(RouteFault::BadMethod) => (
            StatusCode::METHOD_NOT_ALLOWED,
            b"{\"error\":\"BadMethod\"}",
        ),
    }
}

impl Answers for Front {
    ghost use Rattle.std.specs.Prelude.{⊤};

    ghost Behind = { ⊤ };

    ghost is_clean = { λ _. ⊤ };

    ghost stands_for = { λ _ _. ⊤ };

    ghost step = { λ _ _ _ _. ⊤ };

    fn answer(&mut self, alloc: Global, message: Message<'_>) -> Result<Vec<u8>, Unavailable> {
        if self.left == 0 {
            return Err(Unavailable);
        }
        self.left -= 1;
        let (status, body) = answer_to(&self.routes, &message);
        let response = Response {
            status,
            content: Content::Json,
            closes: closes(&message),
            body,
        };
        match print_response(alloc, &response) {
            Ok(bytes) => Ok(bytes),
            Err(_) => Err(Unavailable),
        }
    }
}
