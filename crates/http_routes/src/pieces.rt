//! The pieces of a path.
ghost use Rattle.std.specs.Prelude.{◌≡◌, ◌==◌};
ghost use Rattle.std.specs.List.{after_first, before_first};
ghost use Rattle.http_routes.specs.Finding.{piece_of};

/// Returns the piece of a path after this many slashes, up to the next; empty if there are fewer.
pub fn piece_of(path: &[u8], slashes: usize) -> &[u8]
    ensures { result.now ≡ piece_of slashes path.now }
{
    let mut rest = path;
    let mut left = slashes;
    while left > 0 {
        rest = after_slash(rest);
        left -= 1;
    }
    before_slash(rest)
}

/// The bytes before the first slash, or all of them.
fn before_slash(bytes: &[u8]) -> &[u8]
    ensures { result.now ≡ before_first (λ b. b == 47) bytes.now }
{
    let mut at = 0;
    while at < bytes.len() && bytes[at] != b'/' {
        at += 1;
    }
    &bytes[..at]
}

/// The bytes after the first slash, or none.
fn after_slash(bytes: &[u8]) -> &[u8]
    ensures { result.now ≡ after_first (λ b. b == 47) bytes.now }
{
    let before = before_slash(bytes).len();
    if before < bytes.len() {
        &bytes[before + 1..]
    } else {
        b""
    }
}
