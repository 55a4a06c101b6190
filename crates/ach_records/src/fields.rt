//! A field is found by its place.
ghost use Rattle.std.specs.Prelude.{◌≡◌, ◌+◌, ◌≤◌, ◌<◌, ◌^◌, length};
ghost use Rattle.ach_fields.specs.Digits.{number, AreDigits};
ghost use Rattle.ach_records.specs.Layout.{part};

use ach_fields::take_number;

/// Returns this many bytes from an offset.
#[tactic(auto, unfolding(crate::specs::Layout::part))]
pub(crate) fn bytes_at<const N: usize>(text: &[u8; 94], from: usize) -> [u8; N]
    requires { from + N ≤ 94 }
    ensures { result ≡ part from N text.now }
{
    let mut out = [0u8; N];
    out.copy_from_slice(&text[from..from + N]);
    out
}

/// Returns the field at an offset, with its blanks.
#[tactic(auto, unfolding(crate::specs::Layout::part))]
pub(crate) fn text_at(text: &[u8; 94], from: usize, width: usize) -> &[u8]
    requires { from + width ≤ 94 }
    ensures value { result.now ≡ part from width text.now }
    ensures len { length result.now ≡ width }
{
    &text[from..from + width]
}

/// Gives the number that the digits of a field spell.
#[tactic(auto, unfolding(crate::specs::Layout::part))]
pub(crate) fn number_at(text: &[u8; 94], from: usize, width: usize) -> u64
    requires filled { 1 ≤ width }
    requires short { width ≤ 18 }
    requires within { from + width ≤ 94 }
    requires digits { AreDigits (part from width text.now) }
    ensures value { result ≡ number (part from width text.now) }
    ensures bound { result < 10 ^ width }
{
    take_number(&text[from..from + width]).unwrap()
}
