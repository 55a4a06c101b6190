ghost use Rattle.std.specs.Prelude.{◌≡◌, ◌≤◌, length, true};
ghost use Rattle.std.specs.List.{list_all, prefix_len};
ghost use Rattle.ach_fields.specs.Padding.{is_used, with_zeros};

use std::marker::Model;

/// A `Packed` holds at most `N` bytes, none of them zero, in the value itself, so that it is `Copy`.
#[derive(Clone, Copy, Debug, PartialEq, Eq)]
pub struct Packed<const N: usize> {
    // The bytes after the text are zeros: a separate length would take more room than it saves
    // time.
    bytes: [u8; N],
}

// Clauses see the bytes in use.
impl<const N: usize> Model for Packed<N> {
    ghost use Rattle.std.specs.Prelude.{◌≡◌, List, ℕ};
    ghost use Rattle.ach_fields.specs.Padding.{used, with_zeros, zeros_again};

    ghost Value = { List ℕ };

    ghost view = { λ t. used t.bytes };

    ghost invariant = { λ t. t.bytes ≡ with_zeros N (used t.bytes) };

    ghost inverse = { λ s. record { bytes = with_zeros N s } };

    ghost inverse_ok = { λ t h i. record { bytes = zeros_again N t.bytes h i } };
}

impl<const N: usize> Packed<N> {
    /// Packs these bytes.
    #[tactic(auto, using(crate::proofs::Packing::used_with_zeros))]
    pub fn new(bytes: &[u8]) -> Packed<N>
        requires short { length bytes.now ≤ N }
        requires used { list_all is_used bytes.now ≡ true }
        ensures { result ≡ bytes.now }
    {
        Packed {
            bytes: with_zeros(bytes),
        }
    }

    /// Gives the bytes in use.
    pub fn bytes(&self) -> &[u8]
        ensures { result.now ≡ self.now }
    {
        let bytes = &self.bytes;
        &bytes[..used_length(bytes)]
    }
}

fn with_zeros<const N: usize>(bytes: &[u8]) -> [u8; N]
    requires { length bytes.now ≤ N }
    ensures { result ≡ with_zeros N bytes.now }
{
    let mut cells = [0; N];
    cells[..bytes.len()].copy_from_slice(bytes);
    cells
}

// Counts the bytes before the first zero.
fn used_length(bytes: &[u8]) -> usize
    ensures value { result ≡ prefix_len is_used bytes.now }
    ensures within { result ≤ length bytes.now }
{
    let mut len = 0;
    while len < bytes.len() && bytes[len] != 0 {
        len += 1;
    }
    len
}
