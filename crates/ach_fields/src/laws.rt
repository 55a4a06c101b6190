//! The laws of fields say that text and value name each other.
ghost use Rattle.ach_fields.specs.Laws.{NumbersAndDigits, TextsAndFields};

/// A number that was written with leading zeros is read again, and digits that were read are written
/// again.
pub fn numbers_and_digits()
    ensures { NumbersAndDigits }
{}

/// A text that was written with blanks after it is read again without the blanks at its end, and a
/// field that was read is written again.
pub fn texts_and_fields()
    ensures { TextsAndFields }
{}
