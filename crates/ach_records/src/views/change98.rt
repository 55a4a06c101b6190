ghost use Rattle.std.specs.Prelude.{◌≡◌};
ghost use Rattle.ach_records.specs.Layout.{field};
ghost use Rattle.ach_records.specs.Record.{IsRecord};
ghost use Rattle.ach_records.specs.declared.Kind.TheVariants as kinds;

use crate::fields::text_at;

/// A `Change98` views a record 798: a notification of change.
#[derive(Clone, Copy)]
pub struct Change98<'a> {
    /// These are its 94 bytes.
    pub text: &'a [u8; 94],
    ghost is_record: { IsRecord kinds.Change98 text.now },
}

impl<'a> Change98<'a> {
    // The view of a text that was found to be this record.
    pub(crate) fn of(text: &'a [u8; 94]) -> Change98<'a>
        requires { IsRecord kinds.Change98 text.now }
        ensures { result.text.now ≡ text.now }
    {
        Change98 { text }
    }

    /// Gives positions 1 to 3: the record type and the addenda type.
    pub fn record_type(&self) -> &'a [u8]
        ensures { result.now ≡ field kinds.Change98 "record type" self.now.text.now }
    {
        text_at(self.text, 0, 3)
    }

    /// Gives positions 4 to 6: the change code.
    pub fn change_code(&self) -> &'a [u8]
        ensures { result.now ≡ field kinds.Change98 "change code" self.now.text.now }
    {
        text_at(self.text, 3, 3)
    }

    /// Gives positions 7 to 21: the trace of the original entry.
    pub fn original_trace(&self) -> &'a [u8]
        ensures { result.now ≡ field kinds.Change98 "original trace" self.now.text.now }
    {
        text_at(self.text, 6, 15)
    }

    /// Gives positions 22 to 27: what is reserved, printed blank.
    pub fn reserved(&self) -> &'a [u8]
        ensures { result.now ≡ field kinds.Change98 "reserved" self.now.text.now }
    {
        text_at(self.text, 21, 6)
    }

    /// Gives positions 28 to 35: the receiving DFI of the original entry.
    pub fn original_receiving_dfi(&self) -> &'a [u8]
        ensures { result.now ≡ field kinds.Change98 "original receiving DFI" self.now.text.now }
    {
        text_at(self.text, 27, 8)
    }

    /// Gives positions 36 to 64: the corrected data.
    pub fn corrected_data(&self) -> &'a [u8]
        ensures { result.now ≡ field kinds.Change98 "corrected data" self.now.text.now }
    {
        text_at(self.text, 35, 29)
    }

    /// Gives positions 65 to 79: what is reserved, printed blank.
    pub fn second_reserved(&self) -> &'a [u8]
        ensures { result.now ≡ field kinds.Change98 "second reserved" self.now.text.now }
    {
        text_at(self.text, 64, 15)
    }

    /// Gives positions 80 to 94: the trace of the notification.
    pub fn trace(&self) -> &'a [u8]
        ensures { result.now ≡ field kinds.Change98 "trace" self.now.text.now }
    {
        text_at(self.text, 79, 15)
    }
}
