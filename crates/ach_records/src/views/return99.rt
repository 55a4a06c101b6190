ghost use Rattle.std.specs.Prelude.{◌≡◌};
ghost use Rattle.ach_records.specs.Layout.{field};
ghost use Rattle.ach_records.specs.Record.{IsRecord};
ghost use Rattle.ach_records.specs.declared.Kind.TheVariants as kinds;

use crate::fields::text_at;

/// A `Return99` views a record 799: a returned entry.
#[derive(Clone, Copy)]
pub struct Return99<'a> {
    /// These are its 94 bytes.
    pub text: &'a [u8; 94],
    ghost is_record: { IsRecord kinds.Return99 text.now },
}

impl<'a> Return99<'a> {
    // The view of a text that was found to be this record.
    pub(crate) fn of(text: &'a [u8; 94]) -> Return99<'a>
        requires { IsRecord kinds.Return99 text.now }
        ensures { result.text.now ≡ text.now }
    {
        Return99 { text }
    }

    /// Gives positions 1 to 3: the record type and the addenda type.
    pub fn record_type(&self) -> &'a [u8]
        ensures { result.now ≡ field kinds.Return99 "record type" self.now.text.now }
    {
        text_at(self.text, 0, 3)
    }

    /// Gives positions 4 to 6: the return code.
    pub fn return_code(&self) -> &'a [u8]
        ensures { result.now ≡ field kinds.Return99 "return code" self.now.text.now }
    {
        text_at(self.text, 3, 3)
    }

    /// Gives positions 7 to 21: the trace of the original entry.
    pub fn original_trace(&self) -> &'a [u8]
        ensures { result.now ≡ field kinds.Return99 "original trace" self.now.text.now }
    {
        text_at(self.text, 6, 15)
    }

    /// Gives positions 22 to 27: the date of death, or blank.
    pub fn date_of_death(&self) -> &'a [u8]
        ensures { result.now ≡ field kinds.Return99 "date of death" self.now.text.now }
    {
        text_at(self.text, 21, 6)
    }

    /// Gives positions 28 to 35: the receiving DFI of the original entry.
    pub fn original_receiving_dfi(&self) -> &'a [u8]
        ensures { result.now ≡ field kinds.Return99 "original receiving DFI" self.now.text.now }
    {
        text_at(self.text, 27, 8)
    }

    /// Gives positions 36 to 79: the addenda information.
    pub fn information(&self) -> &'a [u8]
        ensures { result.now ≡ field kinds.Return99 "information" self.now.text.now }
    {
        text_at(self.text, 35, 44)
    }

    /// Gives positions 80 to 94: the trace of the return.
    pub fn trace(&self) -> &'a [u8]
        ensures { result.now ≡ field kinds.Return99 "trace" self.now.text.now }
    {
        text_at(self.text, 79, 15)
    }
}
