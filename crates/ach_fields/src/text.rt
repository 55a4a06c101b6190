//! Text fields: the text is at the left, with blanks after it.
ghost use Rattle.std.specs.Prelude.{◌≡◌, length};
ghost use Rattle.ach_fields.specs.Text.{text_in, text_field, without_blanks_after, GivesText};
ghost use Rattle.ach_fields.specs.Puts.{Puts};

use crate::FieldFault;
use crate::characters::are_printable;

/// Returns the text of a field, without the blanks at its end.
///
/// # Errors
///
/// `NotText` for a character outside blank to `~`.
pub fn take_text(field: &[u8]) -> Result<&[u8], FieldFault>
    ensures { GivesText (text_in field.now) result }
{
    if !are_printable(field) {
        return Err(FieldFault::NotText);
    }
    Ok(without_blanks_after(field))
}

/// Gives a text without the blanks at its end, as `take_text` does.
pub fn without_blanks_after(text: &[u8]) -> &[u8]
    ensures { result.now ≡ without_blanks_after text.now }
{
    let mut len = text.len();
    while len > 0 && text[len - 1] == b' ' {
        len -= 1;
    }
    &text[..len]
}

/// Writes a text into a field, with blanks after it.
///
/// Fails with `TooLong` where the field has too few bytes, else with `NotText` where a character is
/// no blank to `~`; the field then stays as it was.
pub fn put_text(text: &[u8], field: &mut [u8]) -> Result<(), FieldFault>
    ensures { Puts (text_field (length field.old) text.now) result field.old field.new }
{
    if text.len() > field.len() {
        return Err(FieldFault::TooLong);
    }
    if !are_printable(text) {
        return Err(FieldFault::NotText);
    }
    field[..text.len()].copy_from_slice(text);
    field[text.len()..].fill(b' ');
    Ok(())
}
