//! Here 94 bytes are viewed as a record.
ghost use Rattle.std.specs.Prelude.{◌≡◌, ◌+◌, ◌≤◌, not, IfSome, IsOk, length, ◌<◌};
ghost use Rattle.std.specs.List.{position};
ghost use Rattle.ach_fields.specs.Characters.{is_digit, is_printable};
ghost use Rattle.ach_records.specs.Record.{IsRecord};
ghost use Rattle.ach_records.specs.Layout.{digit_fields};
ghost use Rattle.ach_records.specs.View.{bad_byte, bad_digit, digit_fault, kind_fault, view_fault};
ghost use Rattle.ach_records.specs.Views.{Views, GivesView};
ghost use Rattle.ach_records.specs.declared.Kind.{Kind};

use crate::fields::text_at;
use crate::kinds::kind_of;
use crate::views::{
    Addenda05, BatchControl, BatchHeader, Change98, Entry, FileControl, FileHeader, Filler, Record,
    Return99,
};
use crate::{Kind, RecordFault};
use ach_fields::{is_digit, is_printable};

fn other_than_printable(text: &[u8; 94]) -> Option<usize>
    ensures { result ≡ position (λ b. not (is_printable b)) text.now }
{
    text.iter().position(|b| !is_printable(*b))
}

// The first position that holds no blank to `~`.
fn bad_byte(text: &[u8; 94]) -> Option<u8>
    ensures { result ≡ bad_byte text.now }
{
    match other_than_printable(text) {
        Some(i) => Some(i as u8 + 1),
        None => None,
    }
}

fn other_than_digit(bytes: &[u8]) -> Option<usize>
    ensures value { result ≡ position (λ b. not (is_digit b)) bytes.now }
    ensures bound { IfSome result (λ i. i < length bytes.now) }
{
    bytes.iter().position(|b| !is_digit(*b))
}

// The first position of a field that holds something else than a digit.
fn bad_digit(text: &[u8; 94], from: u8, width: u8) -> Option<u8>
    requires { from + width ≤ 94 }
    ensures { result ≡ bad_digit from width text.now }
{
    match other_than_digit(text_at(text, from as usize, width as usize)) {
        Some(i) => Some(from + i as u8 + 1),
        None => None,
    }
}

// The first position of a digit field that holds something else.
#[tactic(auto, unfolding(crate::specs::View::digit_fault))]
fn digit_fault(kind: Kind, text: &[u8; 94]) -> Option<u8>
    ensures { result ≡ digit_fault (digit_fields kind) text.now }
{
    match kind {
        Kind::Entry => bad_digit(text, 1, 2)
            .or(bad_digit(text, 3, 8))
            .or(bad_digit(text, 29, 10)),
        Kind::Addenda05 => bad_digit(text, 83, 4).or(bad_digit(text, 87, 7)),
        Kind::BatchControl => bad_digit(text, 4, 6)
            .or(bad_digit(text, 10, 10))
            .or(bad_digit(text, 20, 12))
            .or(bad_digit(text, 32, 12)),
        Kind::FileControl => bad_digit(text, 1, 6)
            .or(bad_digit(text, 7, 6))
            .or(bad_digit(text, 13, 8))
            .or(bad_digit(text, 21, 10))
            .or(bad_digit(text, 31, 12))
            .or(bad_digit(text, 43, 12)),
        _ => None,
    }
}

fn kind_fault(kind: Kind, text: &[u8; 94]) -> Option<RecordFault>
    ensures { result ≡ kind_fault kind text.now }
{
    match kind {
        Kind::Other => Some(RecordFault::BadType),
        Kind::OtherAddenda => Some(RecordFault::BadAddendaType),
        _ => match digit_fault(kind, text) {
            Some(position) => Some(RecordFault::BadNumber(position)),
            None => None,
        },
    }
}

#[tactic(auto, unfolding(crate::specs::View::view_fault))]
fn view_fault(text: &[u8; 94]) -> Option<RecordFault>
    ensures { result ≡ view_fault text.now }
{
    match bad_byte(text) {
        Some(position) => Some(RecordFault::BadByte(position)),
        None => kind_fault(kind_of(text), text),
    }
}

// The view of a text that is a record of this kind.
fn record_of(kind: Kind, text: &[u8; 94]) -> Record<'_>
    requires { IsRecord kind text.now }
    ensures { Views result kind text.now }
{
    match kind {
        Kind::FileHeader => Record::FileHeader(FileHeader::of(text)),
        Kind::BatchHeader => Record::BatchHeader(BatchHeader::of(text)),
        Kind::Entry => Record::Entry(Entry::of(text)),
        Kind::Addenda05 => Record::Addenda05(Addenda05::of(text)),
        Kind::Change98 => Record::Change98(Change98::of(text)),
        Kind::Return99 => Record::Return99(Return99::of(text)),
        Kind::BatchControl => Record::BatchControl(BatchControl::of(text)),
        Kind::FileControl => Record::FileControl(FileControl::of(text)),
        Kind::Filler => Record::Filler(Filler::of(text)),
        Kind::OtherAddenda | Kind::Other => unreachable!(),
    }
}

/// Views 94 bytes as a record, or returns their first fault.
///
/// A byte outside blank to `~` is `BadByte`. Then the first character decides, `BadType`, and for a
/// 7 the two after it, `BadAddendaType`; 94 nines are a filler. Then another character than a digit
/// in a digit field is `BadNumber`. No other field is checked.
#[tactic(auto, using(crate::proofs::Records::is_record, crate::proofs::Records::no_fault))]
pub fn view(text: &[u8; 94]) -> Result<Record<'_>, RecordFault>
    ensures exact { GivesView text.now result }
    ensures only { (kind : Kind) → IsRecord kind text.now → IsOk result }
{
    match view_fault(text) {
        Some(fault) => Err(fault),
        None => Ok(record_of(kind_of(text), text)),
    }
}
