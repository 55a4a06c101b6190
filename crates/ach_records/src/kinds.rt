//! The first characters say the kind of a record, and the kind its digit fields.
ghost use Rattle.std.specs.Prelude.{◌≡◌, ◌==◌};
ghost use Rattle.std.specs.List.{list_all};
ghost use Rattle.ach_records.specs.Record.{kind_of, has_digits};

use crate::Kind;
use ach_fields::are_digits;

fn is_filler(text: &[u8; 94]) -> bool
    ensures { result ≡ list_all (λ b. b == 57) text.now }
{
    text.iter().all(|b| *b == b'9')
}

/// Gives the kind of a text of 94 bytes.
#[tactic(auto, unfolding(crate::specs::Record::kind_of, crate::specs::Record::kind_by_first, crate::specs::Record::addenda_kind))]
pub fn kind_of(text: &[u8; 94]) -> Kind
    ensures { result ≡ kind_of text.now }
{
    if is_filler(text) {
        return Kind::Filler;
    }
    match text[0] {
        b'1' => Kind::FileHeader,
        b'5' => Kind::BatchHeader,
        b'6' => Kind::Entry,
        b'7' => match (text[1], text[2]) {
            (b'0', b'5') => Kind::Addenda05,
            (b'9', b'8') => Kind::Change98,
            (b'9', b'9') => Kind::Return99,
            _ => Kind::OtherAddenda,
        },
        b'8' => Kind::BatchControl,
        b'9' => Kind::FileControl,
        _ => Kind::Other,
    }
}

/// Does each digit field of this kind consist of digits?
#[tactic(auto, unfolding(crate::specs::Record::has_digits, crate::specs::Layout::part))]
pub fn has_digits(kind: Kind, text: &[u8; 94]) -> bool
    ensures { result ≡ has_digits kind text.now }
{
    match kind {
        Kind::Entry => {
            are_digits(&text[1..3]) && are_digits(&text[3..11]) && are_digits(&text[29..39])
        }
        Kind::Addenda05 => are_digits(&text[83..87]) && are_digits(&text[87..94]),
        Kind::BatchControl => {
            are_digits(&text[4..10])
                && are_digits(&text[10..20])
                && are_digits(&text[20..32])
                && are_digits(&text[32..44])
        }
        Kind::FileControl => {
            are_digits(&text[1..7])
                && are_digits(&text[7..13])
                && are_digits(&text[13..21])
                && are_digits(&text[21..31])
                && are_digits(&text[31..43])
                && are_digits(&text[43..55])
        }
        _ => true,
    }
}
