ghost use Rattle.std.specs.Prelude.{◌≡◌};
ghost use Rattle.ach_fields.specs.Digits.{number};
ghost use Rattle.ach_records.specs.Layout.{field};
ghost use Rattle.ach_records.specs.Record.{IsRecord};
ghost use Rattle.ach_records.specs.declared.Kind.TheVariants as kinds;

use crate::fields::{number_at, text_at};

/// An `Addenda05` views a record 705: information about a payment.
#[derive(Clone, Copy)]
pub struct Addenda05<'a> {
    /// These are its 94 bytes.
    pub text: &'a [u8; 94],
    ghost is_record: { IsRecord kinds.Addenda05 text.now },
}

impl<'a> Addenda05<'a> {
    // The view of a text that was found to be this record.
    pub(crate) fn of(text: &'a [u8; 94]) -> Addenda05<'a>
        requires { IsRecord kinds.Addenda05 text.now }
        ensures { result.text.now ≡ text.now }
    {
        Addenda05 { text }
    }

    /// Gives positions 1 to 3: the record type and the addenda type.
    pub fn record_type(&self) -> &'a [u8]
        ensures { result.now ≡ field kinds.Addenda05 "record type" self.now.text.now }
    {
        text_at(self.text, 0, 3)
    }

    /// Gives positions 4 to 83: the payment information.
    pub fn payment_information(&self) -> &'a [u8]
        ensures { result.now ≡ field kinds.Addenda05 "payment information" self.now.text.now }
    {
        text_at(self.text, 3, 80)
    }

    /// Gives positions 84 to 87: which addenda of its entry it is, printed `0001`.
    #[tactic(auto, using(crate::proofs::Digits::sequence_digits))]
    pub fn sequence(&self) -> u16
        ensures { result ≡ number (field kinds.Addenda05 "sequence" self.now.text.now) }
    {
        number_at(self.text, 83, 4) as u16
    }

    /// Gives positions 88 to 94: the last seven digits of the entry's trace.
    #[tactic(auto, using(crate::proofs::Digits::entry_sequence_digits))]
    pub fn entry_sequence(&self) -> u32
        ensures { result ≡ number (field kinds.Addenda05 "entry sequence" self.now.text.now) }
    {
        number_at(self.text, 87, 7) as u32
    }
}
