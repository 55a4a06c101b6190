ghost use Rattle.std.specs.Prelude.{◌≡◌};
ghost use Rattle.ach_records.specs.Layout.{field};
ghost use Rattle.ach_records.specs.Record.{IsRecord};
ghost use Rattle.ach_records.specs.declared.Kind.TheVariants as kinds;

use crate::fields::text_at;

/// A view of a record 1: where a file comes from, where it goes and when it was made.
#[derive(Clone, Copy)]
pub struct FileHeader<'a> {
    /// These are its 94 bytes.
    pub text: &'a [u8; 94],
    ghost is_record: { IsRecord kinds.FileHeader text.now },
}

impl<'a> FileHeader<'a> {
    // The view of a text that was found to be this record.
    pub(crate) fn of(text: &'a [u8; 94]) -> FileHeader<'a>
        requires { IsRecord kinds.FileHeader text.now }
        ensures { result.text.now ≡ text.now }
    {
        FileHeader { text }
    }

    /// Gives position 1: the record type.
    pub fn record_type(&self) -> &'a [u8]
        ensures { result.now ≡ field kinds.FileHeader "record type" self.now.text.now }
    {
        text_at(self.text, 0, 1)
    }

    /// Gives positions 2 to 3: the priority code, printed `01`.
    pub fn priority_code(&self) -> &'a [u8]
        ensures { result.now ≡ field kinds.FileHeader "priority code" self.now.text.now }
    {
        text_at(self.text, 1, 2)
    }

    /// Gives positions 4 to 13: who the file is for, printed as a blank and a routing number.
    pub fn immediate_destination(&self) -> &'a [u8]
        ensures { result.now ≡ field kinds.FileHeader "immediate destination" self.now.text.now }
    {
        text_at(self.text, 3, 10)
    }

    /// Gives positions 14 to 23: who sent the file, printed as a blank and a routing number.
    pub fn immediate_origin(&self) -> &'a [u8]
        ensures { result.now ≡ field kinds.FileHeader "immediate origin" self.now.text.now }
    {
        text_at(self.text, 13, 10)
    }

    /// Gives positions 24 to 29: the day of creation, YYMMDD.
    pub fn creation_date(&self) -> &'a [u8]
        ensures { result.now ≡ field kinds.FileHeader "creation date" self.now.text.now }
    {
        text_at(self.text, 23, 6)
    }

    /// Gives positions 30 to 33: the time of creation, HHMM or blank.
    pub fn creation_time(&self) -> &'a [u8]
        ensures { result.now ≡ field kinds.FileHeader "creation time" self.now.text.now }
    {
        text_at(self.text, 29, 4)
    }

    /// Returns position 34, which distinguishes the files of a day.
    pub fn modifier(&self) -> &'a [u8]
        ensures { result.now ≡ field kinds.FileHeader "modifier" self.now.text.now }
    {
        text_at(self.text, 33, 1)
    }

    /// Gives positions 35 to 37: the record size, printed `094`.
    pub fn record_size(&self) -> &'a [u8]
        ensures { result.now ≡ field kinds.FileHeader "record size" self.now.text.now }
    {
        text_at(self.text, 34, 3)
    }

    /// Gives positions 38 to 39: the blocking factor, printed `10`.
    pub fn blocking_factor(&self) -> &'a [u8]
        ensures { result.now ≡ field kinds.FileHeader "blocking factor" self.now.text.now }
    {
        text_at(self.text, 37, 2)
    }

    /// Gives position 40: the format code, printed `1`.
    pub fn format_code(&self) -> &'a [u8]
        ensures { result.now ≡ field kinds.FileHeader "format code" self.now.text.now }
    {
        text_at(self.text, 39, 1)
    }

    /// Gives positions 41 to 63: the name of the destination.
    pub fn destination_name(&self) -> &'a [u8]
        ensures { result.now ≡ field kinds.FileHeader "destination name" self.now.text.now }
    {
        text_at(self.text, 40, 23)
    }

    /// Gives positions 64 to 86: the name of the origin.
    pub fn origin_name(&self) -> &'a [u8]
        ensures { result.now ≡ field kinds.FileHeader "origin name" self.now.text.now }
    {
        text_at(self.text, 63, 23)
    }

    /// Gives positions 87 to 94: the reference code, printed blank.
    pub fn reference_code(&self) -> &'a [u8]
        ensures { result.now ≡ field kinds.FileHeader "reference code" self.now.text.now }
    {
        text_at(self.text, 86, 8)
    }
}
