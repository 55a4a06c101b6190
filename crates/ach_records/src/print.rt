//! Records as they are printed.
ghost use Rattle.std.specs.Prelude.{◌≡◌, if◌then◌else◌};
ghost use Rattle.ach_records.specs.Print.{Prints, row_text, file_header_row, batch_header_row, entry_row, addenda05_row, change98_row, return99_row, batch_control_row, file_control_row, filler_row};

use crate::row::{Field, print_fields};
use ach_fields::{Cents, FieldFault, Routing, Trace, Ymd};

/// A `FileHeaderText` is what a file header says.
#[derive(Clone, Copy)]
pub struct FileHeaderText<'a> {
    /// The immediate destination.
    pub destination: Routing,
    /// The immediate origin.
    pub origin: Routing,
    /// The day of creation.
    pub date: Ymd,
    /// The time of creation as a number HHMM, or blank.
    pub time: Option<u16>,
    /// One character that distinguishes the files of a day.
    pub modifier: &'a [u8],
    /// The name of the immediate destination, at most 23 characters.
    pub destination_name: &'a [u8],
    /// The name of the immediate origin, at most 23 characters.
    pub origin_name: &'a [u8],
}

/// A `BatchHeaderText` is what a batch header says.
#[derive(Clone, Copy)]
pub struct BatchHeaderText<'a> {
    /// 200 for credits and debits, 220 for credits, 225 for debits.
    pub service_class: u16,
    /// The name of the company, at most 16 characters.
    pub company_name: &'a [u8],
    /// The company identification, at most 10 characters.
    pub company: &'a [u8],
    /// The standard entry class code, at most 3 characters.
    pub sec: &'a [u8],
    /// The entry description, at most 10 characters.
    pub description: &'a [u8],
    /// The effective entry date.
    pub effective: Ymd,
    /// The settlement date as a day of the year, or blank.
    pub settlement: Option<u16>,
    /// The originating DFI, of eight digits.
    pub odfi: u32,
    /// The batch number, of at most seven digits.
    pub number: u32,
}

/// An `EntryText` is what an entry says.
#[derive(Clone, Copy)]
pub struct EntryText<'a> {
    /// The transaction code, of two digits.
    pub transaction: u8,
    /// The receiving DFI, of eight digits.
    pub dfi: u32,
    /// The ninth digit of the receiver's routing number.
    pub check_digit: u8,
    /// The account number, at most 17 characters.
    pub account: &'a [u8],
    /// The amount in cents, of at most ten digits.
    pub cents: Cents,
    /// The receiver's identification, at most 15 characters.
    pub identification: &'a [u8],
    /// The receiver's name, at most 22 characters.
    pub name: &'a [u8],
    /// Does a record 7 follow?
    pub has_addenda: bool,
    /// The trace of the entry.
    pub trace: Trace,
}

/// An `Addenda05Text` is what an addenda 05 says.
#[derive(Clone, Copy)]
pub struct Addenda05Text<'a> {
    /// The payment information, at most 80 characters.
    pub information: &'a [u8],
    /// The trace of the entry, whose sequence is printed.
    pub trace: Trace,
}

/// A `Change98Text` is what a notification of change says.
#[derive(Clone, Copy)]
pub struct Change98Text<'a> {
    /// The change code, at most 3 characters.
    pub code: &'a [u8],
    /// The trace of the original entry, at most 15 characters.
    pub original_trace: &'a [u8],
    /// The receiving DFI of the original entry, at most 8 characters.
    pub original_dfi: &'a [u8],
    /// The corrected data, at most 29 characters.
    pub corrected: &'a [u8],
    /// The trace of the notification.
    pub trace: Trace,
}

/// A `Return99Text` is what a return says.
#[derive(Clone, Copy)]
pub struct Return99Text<'a> {
    /// The return code, at most 3 characters.
    pub code: &'a [u8],
    /// The trace of the original entry, at most 15 characters.
    pub original_trace: &'a [u8],
    /// The date of death, at most 6 characters.
    pub date_of_death: &'a [u8],
    /// The receiving DFI of the original entry, at most 8 characters.
    pub original_dfi: &'a [u8],
    /// The addenda information, at most 44 characters.
    pub information: &'a [u8],
    /// The trace of the return.
    pub trace: Trace,
}

/// A `BatchControlText` is what a batch control says.
#[derive(Clone, Copy)]
pub struct BatchControlText<'a> {
    /// The service class code of the batch's header.
    pub service_class: u16,
    /// The number of records 6 and 7 in the batch, of at most six digits.
    pub count: u64,
    /// The low ten digits of the sum of the receiving DFIs.
    pub hash: u64,
    /// The sum of the debits, in cents.
    pub debits: Cents,
    /// The sum of the credits, in cents.
    pub credits: Cents,
    /// The company identification of the batch's header.
    pub company: &'a [u8],
    /// The originating DFI of the batch's header.
    pub odfi: u32,
    /// The batch number of the batch's header.
    pub number: u32,
}

/// A `FileControlText` is what a file control says.
#[derive(Clone, Copy)]
pub struct FileControlText {
    /// The number of batches in the file, of at most six digits.
    pub batches: u64,
    /// The number of blocks of ten records, of at most six digits.
    pub blocks: u64,
    /// The number of records 6 and 7, of at most eight digits.
    pub count: u64,
    /// The low ten digits of the sum of the hashes of the batches.
    pub hash: u64,
    /// The sum of the debits, in cents.
    pub debits: Cents,
    /// The sum of the credits, in cents.
    pub credits: Cents,
}

fn indicator(has_addenda: bool) -> u64
    ensures { result ≡ (if has_addenda then 1 else 0) }
{
    if has_addenda { 1 } else { 0 }
}

/// Prints a file header.
///
/// A field that has no text is `TooLong` or `NotText`, and the record then stays as it was.
pub fn print_file_header(header: &FileHeaderText, out: &mut [u8; 94]) -> Result<(), FieldFault>
    ensures { Prints result out.old out.new (file_header_row header.now) }
{
    print_fields(
        &[
            Field::Constant(b"1"),
            Field::Constant(b"01"),
            Field::Routing(header.destination),
            Field::Routing(header.origin),
            Field::Date(header.date),
            Field::Optional(4, header.time),
            Field::Words(1, header.modifier),
            Field::Constant(b"094"),
            Field::Constant(b"10"),
            Field::Constant(b"1"),
            Field::Words(23, header.destination_name),
            Field::Words(23, header.origin_name),
            Field::Words(8, b""),
        ],
        out,
    )
}

/// Prints a batch header.
///
/// A field that has no text is `TooLong` or `NotText`, and the record then stays as it was.
pub fn print_batch_header(header: &BatchHeaderText, out: &mut [u8; 94]) -> Result<(), FieldFault>
    ensures { Prints result out.old out.new (batch_header_row header.now) }
{
    print_fields(
        &[
            Field::Constant(b"5"),
            Field::Number(3, header.service_class as u64),
            Field::Words(16, header.company_name),
            Field::Words(20, b""),
            Field::Words(10, header.company),
            Field::Words(3, header.sec),
            Field::Words(10, header.description),
            Field::Words(6, b""),
            Field::Date(header.effective),
            Field::Optional(3, header.settlement),
            Field::Constant(b"1"),
            Field::Number(8, header.odfi as u64),
            Field::Number(7, header.number as u64),
        ],
        out,
    )
}

/// Prints an entry.
///
/// A field that has no text is `TooLong` or `NotText`, and the record then stays as it was.
pub fn print_entry(entry: &EntryText, out: &mut [u8; 94]) -> Result<(), FieldFault>
    ensures { Prints result out.old out.new (entry_row entry.now) }
{
    print_fields(
        &[
            Field::Constant(b"6"),
            Field::Number(2, entry.transaction as u64),
            Field::Number(8, entry.dfi as u64),
            Field::Number(1, entry.check_digit as u64),
            Field::Words(17, entry.account),
            Field::Number(10, entry.cents.get()),
            Field::Words(15, entry.identification),
            Field::Words(22, entry.name),
            Field::Words(2, b""),
            Field::Number(1, indicator(entry.has_addenda)),
            Field::Trace(entry.trace),
        ],
        out,
    )
}

/// Prints an addenda 05, the first of its entry.
///
/// A field that has no text is `TooLong` or `NotText`, and the record then stays as it was.
pub fn print_addenda05(addenda: &Addenda05Text, out: &mut [u8; 94]) -> Result<(), FieldFault>
    ensures { Prints result out.old out.new (addenda05_row addenda.now) }
{
    print_fields(
        &[
            Field::Constant(b"705"),
            Field::Words(80, addenda.information),
            Field::Number(4, 1),
            Field::Number(7, addenda.trace.sequence() as u64),
        ],
        out,
    )
}

/// Prints a notification of change.
///
/// A field that has no text is `TooLong` or `NotText`, and the record then stays as it was.
pub fn print_change98(addenda: &Change98Text, out: &mut [u8; 94]) -> Result<(), FieldFault>
    ensures { Prints result out.old out.new (change98_row addenda.now) }
{
    print_fields(
        &[
            Field::Constant(b"798"),
            Field::Words(3, addenda.code),
            Field::Words(15, addenda.original_trace),
            Field::Words(6, b""),
            Field::Words(8, addenda.original_dfi),
            Field::Words(29, addenda.corrected),
            Field::Words(15, b""),
            Field::Trace(addenda.trace),
        ],
        out,
    )
}

/// Prints a return.
///
/// A field that has no text is `TooLong` or `NotText`, and the record then stays as it was.
pub fn print_return99(addenda: &Return99Text, out: &mut [u8; 94]) -> Result<(), FieldFault>
    ensures { Prints result out.old out.new (return99_row addenda.now) }
{
    print_fields(
        &[
            Field::Constant(b"799"),
            Field::Words(3, addenda.code),
            Field::Words(15, addenda.original_trace),
            Field::Words(6, addenda.date_of_death),
            Field::Words(8, addenda.original_dfi),
            Field::Words(44, addenda.information),
            Field::Trace(addenda.trace),
        ],
        out,
    )
}

/// Prints a batch control.
///
/// A field that has no text is `TooLong` or `NotText`, and the record then stays as it was.
pub fn print_batch_control(control: &BatchControlText, out: &mut [u8; 94]) -> Result<(), FieldFault>
    ensures { Prints result out.old out.new (batch_control_row control.now) }
{
    print_fields(
        &[
            Field::Constant(b"8"),
            Field::Number(3, control.service_class as u64),
            Field::Number(6, control.count),
            Field::Number(10, control.hash),
            Field::Number(12, control.debits.get()),
            Field::Number(12, control.credits.get()),
            Field::Words(10, control.company),
            Field::Words(19, b""),
            Field::Words(6, b""),
            Field::Number(8, control.odfi as u64),
            Field::Number(7, control.number as u64),
        ],
        out,
    )
}

/// Prints a file control.
///
/// A number that has too many digits is `TooLong`, and the record then stays as it was.
pub fn print_file_control(control: &FileControlText, out: &mut [u8; 94]) -> Result<(), FieldFault>
    ensures { Prints result out.old out.new (file_control_row control.now) }
{
    print_fields(
        &[
            Field::Constant(b"9"),
            Field::Number(6, control.batches),
            Field::Number(6, control.blocks),
            Field::Number(8, control.count),
            Field::Number(10, control.hash),
            Field::Number(12, control.debits.get()),
            Field::Number(12, control.credits.get()),
            Field::Words(39, b""),
        ],
        out,
    )
}

/// Prints a filler, 94 nines.
#[tactic(auto, unfolding(crate::specs::Print::row_text))]
pub fn print_filler(out: &mut [u8; 94])
    ensures { out.new ≡ row_text filler_row }
{
    *out = [b'9'; 94];
}
