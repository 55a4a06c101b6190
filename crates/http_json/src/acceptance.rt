//! The body of an accepted submission or retry. It is written without growth, so that an answer is
//! complete before the desk commits to it.
ghost use Rattle.std.specs.Prelude.{◌≤◌, ◌+◌, vec_len, vec_capacity};
ghost use Rattle.http_json.specs.Acceptance.{acceptance_body};
ghost use Rattle.http_json.specs.Gains.{GainsValue};

use crate::members::{put_number, put_text};
use crate::room::put;
use ach_fields::Ref;

/// Appends the body of an accepted submission or retry: its total in `cents`, how many `entries` it
/// has, its `order` number and its `ref`. The caller has taken room for 320 more bytes.
pub fn put_acceptance(text: &mut Vec<u8>, reference: &Ref, cents: u64, entries: u64, order: u64)
    requires { vec_len text.old + 320 ≤ vec_capacity text.old }
    ensures items { GainsValue text.old text.new
        (acceptance_body reference.now cents entries order) }
    ensures len { vec_len text.new ≤ vec_len text.old + 320 }
    ensures capacity { vec_capacity text.old ≤ vec_capacity text.new }
{
    put(text, b"{");
    put_number(text, false, b"cents", cents);
    put_number(text, true, b"entries", entries);
    put_number(text, true, b"order", order);
    put_text(text, true, b"ref", reference.bytes());
    put(text, b"}");
}
