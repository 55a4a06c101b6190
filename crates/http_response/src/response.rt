//! A response.
use http::StatusCode;

/// The kind of a body.
#[derive(Clone, Copy, PartialEq, Eq, Debug)]
pub enum Content {
    Json,
    PlainText,
}

/// A response.
#[derive(Clone, Copy)]
pub struct Response<'a> {
    pub status: StatusCode,
    pub content: Content,
    /// Whether the connection ends after it.
    pub closes: bool,
    pub body: &'a [u8],
}

/// The response where memory was refused or the store could not act: a text that takes no memory.
pub const UNAVAILABLE: &[u8] =
    b"HTTP/1.1 503 Service Unavailable\r\nContent-Type: application/json\r\nContent-Length: 23\r\nConnection: close\r\n\r\n{\"error\":\"Unavailable\"}";
