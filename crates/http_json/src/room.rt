//! Bytes that are written into room.
ghost use Rattle.std.specs.Prelude.{◌≡◌, ◌≤◌, ◌+◌, length, vec_len, vec_capacity};
ghost use Rattle.serde_json.specs.Written.{comma_if};
ghost use Rattle.http_json.specs.Gains.{Gains};

/// Appends bytes for which there is room.
pub fn put(text: &mut Vec<u8>, bytes: &[u8])
    requires { vec_len text.old + length bytes.now ≤ vec_capacity text.old }
    ensures items { Gains text.old text.new bytes.now }
    ensures len { vec_len text.new ≡ vec_len text.old + length bytes.now }
    ensures capacity { vec_capacity text.old ≤ vec_capacity text.new }
{
    text.extend_from_slice(bytes).unwrap();
}

/// Appends a comma if something comes before.
pub fn put_comma(text: &mut Vec<u8>, later: bool)
    requires { vec_len text.old + 1 ≤ vec_capacity text.old }
    ensures items { Gains text.old text.new (comma_if later) }
    ensures len { vec_len text.new ≤ vec_len text.old + 1 }
    ensures capacity { vec_capacity text.old ≤ vec_capacity text.new }
{
    if later {
        put(text, b",");
    }
}
