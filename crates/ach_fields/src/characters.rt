//! Tests of the characters that fields may have.
ghost use Rattle.std.specs.Prelude.{◌≡◌};
ghost use Rattle.std.specs.List.{list_all};
ghost use Rattle.ach_fields.specs.Characters.{is_printable, is_reference_character, is_id_character, is_digit};

/// Is it one of `0` to `9`?
pub fn is_digit(byte: u8) -> bool
    ensures { result ≡ is_digit byte }
{
    byte >= b'0' && byte <= b'9'
}

/// Is it one of the characters that records may have, a blank to `~`?
pub fn is_printable(byte: u8) -> bool
    ensures { result ≡ is_printable byte }
{
    byte >= b' ' && byte <= b'~'
}

pub(crate) fn is_id_character(byte: u8) -> bool
    ensures { result ≡ is_id_character byte }
{
    is_digit(byte) || (byte >= b'A' && byte <= b'Z')
}

pub(crate) fn is_reference_character(byte: u8) -> bool
    ensures { result ≡ is_reference_character byte }
{
    is_id_character(byte)
        || (byte >= b'a' && byte <= b'z')
        || byte == b'-'
        || byte == b'_'
        || byte == b'.'
}

/// Are all of them digits?
pub fn are_digits(bytes: &[u8]) -> bool
    ensures { result ≡ list_all is_digit bytes.now }
{
    bytes.iter().all(|byte| is_digit(*byte))
}

/// Are all of them characters that records may have?
pub fn are_printable(bytes: &[u8]) -> bool
    ensures { result ≡ list_all is_printable bytes.now }
{
    bytes.iter().all(|byte| is_printable(*byte))
}

pub(crate) fn are_id_characters(bytes: &[u8]) -> bool
    ensures { result ≡ list_all is_id_character bytes.now }
{
    bytes.iter().all(|byte| is_id_character(*byte))
}

pub(crate) fn are_reference_characters(bytes: &[u8]) -> bool
    ensures { result ≡ list_all is_reference_character bytes.now }
{
    bytes.iter().all(|byte| is_reference_character(*byte))
}
