//! Laws of responses.
ghost use Rattle.std.specs.Prelude.{◌≡◌};
ghost use Rattle.http_response.specs.Laws.{UnavailableIsResponse};
ghost use Rattle.http_response.specs.Response.{unavailable_text};

use crate::response::UNAVAILABLE;

/// The constant text is the response with status 503 that closes the connection.
pub fn unavailable_is_response()
    ensures constant { UNAVAILABLE.now ≡ unavailable_text }
    ensures response { UnavailableIsResponse }
{}
