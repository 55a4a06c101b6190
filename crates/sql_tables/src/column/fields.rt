//! Fields of entries and files stand in columns as their texts.
ghost use Rattle.std.specs.Prelude.{◌≡◌, ◌≢◌, ◌↔◌, IsTrue, IfSome, IfNone, length};
ghost use Rattle.sqlite.specs.Values.{bound_value, or_null};
ghost use Rattle.sqlite_value.specs.Order.{column};
ghost use Rattle.sqlite_value.specs.Value.{owned};
ghost use Rattle.sqlite_value.specs.declared.value.Value.TheVariants.{Text, Blob};
ghost use Rattle.ach_fields.specs.Names.{is_id, is_reference};
ghost use Rattle.ach_fields.specs.Routing.{is_routing};
ghost use Rattle.ach_fields.specs.Text.{is_short_text};
ghost use Rattle.desk_rules.specs.ReturnCodes.{code_text, IsCode};
ghost use Rattle.sql_tables.specs.Columns.{letter, line_reference};
ghost use Rattle.sql_tables.specs.Ranges.{FitsIfAny, IsModifier, IsText, IsRecordText};
ghost use Rattle.sql_tables.specs.Reading.{Reads};

use super::{FromColumn, characters, text_in, value_at};
use ach_fields::{Id, Ref, Routing, ShortText, are_printable};
use desk_history::PartyName;
use desk_rules::ReturnCode;
use sqlite::Row;
use sqlite::types::ValueRef;

impl FromColumn for Id {
    ghost stored = { Text };

    ghost fits = { λ s. IsTrue (is_id s) };

    fn from_column(value: ValueRef<'_>) -> Option<Id> {
        Id::new(text_in(value)?).ok()
    }
}

impl FromColumn for Ref {
    ghost stored = { Text };

    ghost fits = { λ s. IsTrue (is_reference s) };

    fn from_column(value: ValueRef<'_>) -> Option<Ref> {
        Ref::new(text_in(value)?).ok()
    }
}

/// Reads the reference of a line, which may have none, from the column that has this index.
pub(crate) fn read_line_reference(row: &Row, at: usize) -> Option<Option<Ref>>
    ensures { Reads line_reference (FitsIfAny (λ s. IsTrue (is_reference s)))
        (column row.now at) result }
{
    let text = text_in(value_at(row, at))?;
    if text.is_empty() {
        return Some(None);
    }
    Some(Some(Ref::new(text).ok()?))
}

/// Gives the reference of a line, as a column has it: the empty text where it has none.
pub fn line_reference<'a>(reference: &'a Option<Ref>) -> ValueRef<'a>
    ensures { bound_value (owned result) ≡ line_reference reference.now }
{
    match reference {
        None => characters(b""),
        Some(reference) => characters(reference.bytes()),
    }
}

impl FromColumn for Routing {
    ghost stored = { Text };

    ghost fits = { λ s. IsTrue (is_routing s) };

    fn from_column(value: ValueRef<'_>) -> Option<Routing> {
        Routing::parse(text_in(value)?).ok()
    }
}

impl<const N: usize> FromColumn for ShortText<N> {
    ghost stored = { Text };

    ghost fits = { IsText N };

    fn from_column(value: ValueRef<'_>) -> Option<ShortText<N>> {
        let text = text_in(value)?;
        if text.is_empty() {
            return None;
        }
        ShortText::new(text).ok()
    }
}

/// Gives a text, as a column without NOT NULL has it.
pub fn optional_text<'a, const N: usize>(text: &'a Option<ShortText<N>>) -> ValueRef<'a>
    ensures { bound_value (owned result) ≡ or_null Text text.now }
{
    match text {
        None => ValueRef::Null,
        Some(text) => characters(text.bytes()),
    }
}

impl FromColumn for PartyName {
    ghost stored = { Text };

    ghost fits = { IsText 23 };

    fn from_column(value: ValueRef<'_>) -> Option<PartyName> {
        PartyName::new(text_in(value)?).ok()
    }
}

/// Reads a text that may be empty, from the column that has this index.
pub fn read_text_or_empty<const N: usize>(row: &Row, at: usize) -> Option<ShortText<N>>
    ensures { Reads Text (λ s. IsTrue (is_short_text N s)) (column row.now at) result }
{
    ShortText::new(text_in(value_at(row, at))?).ok()
}

// Characters as a record of a file has them, with their blanks.
impl<const N: usize> FromColumn for [u8; N] {
    ghost stored = { Text };

    ghost fits = { IsRecordText N };

    fn from_column(value: ValueRef<'_>) -> Option<[u8; N]> {
        let text = text_in(value)?;
        if !are_printable(text) {
            return None;
        }
        array_of(text)
    }
}

// The modifier of a file is the one byte that a column has by itself.
impl FromColumn for u8 {
    ghost stored = { letter };

    ghost fits = { IsModifier };

    fn from_column(value: ValueRef<'_>) -> Option<u8> {
        let [letter] = text_in(value)? else {
            return None
        };
        if !is_modifier(*letter) {
            return None;
        }
        Some(*letter)
    }
}

// Is it one of the letters that a day's files get?
#[tactic(auto, unfolding(desk_plan::specs::Modifiers::modifiers))]
fn is_modifier(letter: u8) -> bool
    ensures { IsTrue result ↔ IsModifier letter }
{
    letter.is_ascii_uppercase() || letter.is_ascii_digit()
}

/// Reads the SHA-256 digest in the column that has this index.
pub fn read_digest(row: &Row, at: usize) -> Option<[u8; 32]>
    ensures { Reads Blob (λ bytes. length bytes ≡ 32) (column row.now at) result }
{
    match value_at(row, at) {
        ValueRef::Blob(bytes) => array_of(bytes),
        _ => None,
    }
}

// The bytes, where there are as many.
fn array_of<const N: usize>(bytes: &[u8]) -> Option<[u8; N]>
    ensures some { IfSome result (λ cells. cells ≡ bytes.now) }
    ensures none { IfNone result (length bytes.now ≢ N) }
{
    if bytes.len() != N {
        return None;
    }
    let mut cells = [0; N];
    cells.copy_from_slice(bytes);
    Some(cells)
}

impl FromColumn for ReturnCode {
    ghost stored = { λ c. Text (code_text c) };

    ghost fits = { IsCode };

    fn from_column(value: ValueRef<'_>) -> Option<ReturnCode> {
        let text = text_in(value)?;
        let [r, tens, ones] = text else { return None };
        ReturnCode::parse(&[*r, *tens, *ones])
    }
}
