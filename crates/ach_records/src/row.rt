//! A row of fields is printed here, each at its width.
ghost use Rattle.std.specs.Prelude.{◌≡◌, length, map, true};
ghost use Rattle.std.specs.List.{list_all, sum_by};
ghost use Rattle.ach_records.specs.Print.{Prints, with_blank};
ghost use Rattle.ach_records.specs.Row.{value_of, field_width, is_narrow, PutsValue};

use ach_fields::{FieldFault, Routing, Trace, Ymd, put_number, put_text};

/// A `Field` is to be printed.
#[derive(Clone, Copy)]
pub enum Field<'a> {
    /// A text, written without change.
    Constant(&'a [u8]),
    /// A number in a fixed number of digits, with zeros before it.
    Number(usize, u64),
    /// Such a number, or blanks.
    Optional(usize, Option<u16>),
    /// A text in a fixed number of bytes, with blanks after it.
    Words(usize, &'a [u8]),
    /// A routing number, with a blank before it.
    Routing(Routing),
    /// A date.
    Date(Ymd),
    /// A trace.
    Trace(Trace),
}

fn width(field: &Field) -> usize
    ensures { result ≡ field_width field.now }
{
    match *field {
        Field::Constant(text) => text.len(),
        Field::Number(width, _) | Field::Optional(width, _) | Field::Words(width, _) => width,
        Field::Routing(_) => 10,
        Field::Date(_) => 6,
        Field::Trace(_) => 15,
    }
}

fn with_blank(routing: &Routing) -> [u8; 10]
    ensures { result ≡ with_blank routing.now }
{
    let [a, b, c, d, e, f, g, h, i] = routing.text();
    [b' ', a, b, c, d, e, f, g, h, i]
}

fn put(field: &Field, out: &mut [u8]) -> Result<(), FieldFault>
    requires narrow { is_narrow field.now ≡ true }
    requires room { length out.old ≡ field_width field.now }
    ensures { PutsValue result out.new (value_of field.now) }
{
    match *field {
        Field::Constant(text) => {
            out.copy_from_slice(text);
            Ok(())
        }
        Field::Number(_, number) => put_number(number, out),
        Field::Optional(_, Some(number)) => put_number(u64::from(number), out),
        Field::Optional(_, None) => put_text(b"", out),
        Field::Words(_, text) => put_text(text, out),
        Field::Routing(routing) => put_text(&with_blank(&routing), out),
        Field::Date(date) => put_text(&date.print(), out),
        Field::Trace(trace) => put_text(&trace.text(), out),
    }
}

/// Prints the fields, or answers the fault of the first that has no text and leaves the record as
/// it is.
pub fn print_fields(fields: &[Field], out: &mut [u8; 94]) -> Result<(), FieldFault>
    requires widths { sum_by field_width fields.now ≡ 94 }
    requires narrow { list_all is_narrow fields.now ≡ true }
    ensures { Prints result out.old out.new (map value_of fields.now) }
{
    let mut line = [0; 94];
    let mut at = 0;
    for field in fields {
        let width = width(field);
        put(field, &mut line[at..at + width])?;
        at += width;
    }
    *out = line;
    Ok(())
}
