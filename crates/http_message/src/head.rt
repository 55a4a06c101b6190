//! The head at the start of the bytes that came.
ghost use Rattle.std.specs.Prelude.{◌≡◌, codes, length};
ghost use Rattle.httparse.specs.Spans.{IsRequestWithin};
ghost use Rattle.http_message.specs.Fields.{first_value};
ghost use Rattle.http_message.specs.Framing.{closes_by, says_close};
ghost use Rattle.http_message.specs.Start.{IsStart, OnHeadAt, fields_at, framing_at};
ghost use Rattle.http_message.specs.Heads.{HasHead, head_framing, version_of};

use crate::fields::{Fields, value_of};
use crate::framing::{Framing, framing_of};
use crate::message::{Version, path_of};
use crate::request::Request;
use crate::unread::MAX_HEAD;
use httparse::Status;
use httparse::spans::{HeaderSpan, RequestSpans, parse_request};

/// The most fields of a head.
pub const MAX_FIELDS: usize = 32;

/// What stands at the start of the bytes that came.
#[derive(Clone, Copy, Debug)]
pub(crate) enum Start {
    /// No whole head, and there is room for more of it.
    Unfinished,
    /// No head that is small enough, whatever follows.
    Bad,
    /// A head, whose parts lie where the spans say.
    Head(RequestSpans),
}

/// What stands at the start of the bytes, with where the fields of a head lie.
pub(crate) fn start_of(bytes: &[u8], fields: &mut [HeaderSpan]) -> Start
    requires { length fields.old ≡ MAX_FIELDS }
    ensures { IsStart bytes.now fields.new result }
{
    match parse_request(bytes, fields) {
        Ok(Status::Complete(head)) => {
            if head.len > MAX_HEAD {
                return Start::Bad;
            }
            Start::Head(head)
        }
        Ok(Status::Partial) => {
            if bytes.len() < MAX_HEAD {
                Start::Unfinished
            } else {
                Start::Bad
            }
        }
        Err(_) => Start::Bad,
    }
}

/// The fields of the head at the start of the bytes, whose parts lie where the spans say.
fn fields_at<'a>(bytes: &'a [u8], spans: &'a [HeaderSpan], head: &RequestSpans) -> Fields<'a>
    requires { IsRequestWithin bytes.now spans.now head.now }
    ensures { result ≡ fields_at bytes.now spans.now head.now }
{
    Fields::new(bytes, &spans[..head.headers])
}

/// What the head says of its body.
pub(crate) fn framing_at(bytes: &[u8], spans: &[HeaderSpan], head: &RequestSpans) -> Framing
    requires { IsRequestWithin bytes.now spans.now head.now }
    ensures at { result ≡ framing_at bytes.now spans.now head.now }
    ensures head { OnHeadAt bytes.now spans.now head.now (λ h. result ≡ head_framing h) }
{
    framing_of(head.method.of(bytes), &fields_at(bytes, spans, head))
}

fn version_of(minor: u8) -> Version
    ensures { result ≡ version_of minor }
{
    if minor == 0 {
        Version::Http10
    } else {
        Version::Http11
    }
}

/// Whether the first `Connection` says that the connection is to close.
fn says_close(fields: &Fields<'_>) -> bool
    ensures { result ≡ says_close (first_value (codes "Connection") fields.now) }
{
    match value_of(fields, b"Connection") {
        Some(value) => value.eq_ignore_ascii_case(b"close"),
        None => false,
    }
}

/// Whether the connection ends after the answer to a head that says this.
fn closes_by(is_last: bool, version: Version, fields: &Fields<'_>, framing: Framing) -> bool
    ensures { result ≡ closes_by is_last version fields.now framing }
{
    is_last
        || version == Version::Http10
        || says_close(fields)
        || !matches!(framing, Framing::Body(_))
}

/// The request at the start of the bytes, whose parts lie where the spans say, with this body.
pub fn request_at<'a>(
    bytes: &'a [u8],
    spans: &'a [HeaderSpan],
    head: &RequestSpans,
    framing: Framing,
    body: Vec<u8>,
    is_last: bool,
) -> Request<'a>
    requires within { IsRequestWithin bytes.now spans.now head.now }
    requires framed { framing ≡ framing_at bytes.now spans.now head.now }
    ensures { OnHeadAt bytes.now spans.now head.now (λ h. HasHead result h body.items is_last) }
{
    let target = head.path.of(bytes);
    let fields = fields_at(bytes, spans, head);
    let version = version_of(head.version);
    let closes = closes_by(is_last, version, &fields, framing);
    Request {
        method: head.method.of(bytes),
        target,
        path: path_of(target),
        version,
        fields,
        framing,
        body,
        is_last,
        closes,
    }
}
