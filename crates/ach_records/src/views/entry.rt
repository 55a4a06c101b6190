ghost use Rattle.std.specs.Prelude.{◌≡◌};
ghost use Rattle.ach_fields.specs.Digits.{number};
ghost use Rattle.ach_records.specs.Layout.{field};
ghost use Rattle.ach_records.specs.Record.{IsRecord};
ghost use Rattle.ach_records.specs.declared.Kind.TheVariants as kinds;

use crate::fields::text_at;
use crate::readers::{entry_cents, entry_dfi, entry_transaction_code};
use ach_fields::Cents;

/// An `Entry` views a record 6: one payment.
#[derive(Clone, Copy)]
pub struct Entry<'a> {
    /// These are its 94 bytes.
    pub text: &'a [u8; 94],
    ghost is_record: { IsRecord kinds.Entry text.now },
}

impl<'a> Entry<'a> {
    // The view of a text that was found to be this record.
    pub(crate) fn of(text: &'a [u8; 94]) -> Entry<'a>
        requires { IsRecord kinds.Entry text.now }
        ensures { result.text.now ≡ text.now }
    {
        Entry { text }
    }

    /// Gives position 1: the record type.
    pub fn record_type(&self) -> &'a [u8]
        ensures { result.now ≡ field kinds.Entry "record type" self.now.text.now }
    {
        text_at(self.text, 0, 1)
    }

    /// Gives positions 2 to 3: the transaction code.
    #[tactic(auto, unfolding(crate::specs::Record::entry_transaction_code))]
    pub fn transaction_code(&self) -> u8
        ensures { result ≡ number (field kinds.Entry "transaction code" self.now.text.now) }
    {
        entry_transaction_code(self.text)
    }

    /// Gives positions 4 to 11: the first eight digits of the routing number of the RDFI.
    #[tactic(auto, unfolding(crate::specs::Record::entry_dfi))]
    pub fn receiving_dfi(&self) -> u32
        ensures { result ≡ number (field kinds.Entry "receiving DFI" self.now.text.now) }
    {
        entry_dfi(self.text)
    }

    /// Gives position 12: the ninth digit of that routing number.
    pub fn check_digit(&self) -> &'a [u8]
        ensures { result.now ≡ field kinds.Entry "check digit" self.now.text.now }
    {
        text_at(self.text, 11, 1)
    }

    /// Gives positions 13 to 29: the account number.
    pub fn account(&self) -> &'a [u8]
        ensures { result.now ≡ field kinds.Entry "account" self.now.text.now }
    {
        text_at(self.text, 12, 17)
    }

    /// Gives positions 30 to 39: the amount, in cents.
    #[tactic(auto, unfolding(crate::specs::Record::entry_cents))]
    pub fn cents(&self) -> Cents
        ensures { result ≡ number (field kinds.Entry "cents" self.now.text.now) }
    {
        entry_cents(self.text)
    }

    /// Gives positions 40 to 54: the identification of the receiver.
    pub fn identification(&self) -> &'a [u8]
        ensures { result.now ≡ field kinds.Entry "identification" self.now.text.now }
    {
        text_at(self.text, 39, 15)
    }

    /// Gives positions 55 to 76: the name of the receiver.
    pub fn name(&self) -> &'a [u8]
        ensures { result.now ≡ field kinds.Entry "name" self.now.text.now }
    {
        text_at(self.text, 54, 22)
    }

    /// Gives positions 77 to 78: discretionary data, printed blank.
    pub fn discretionary_data(&self) -> &'a [u8]
        ensures { result.now ≡ field kinds.Entry "discretionary data" self.now.text.now }
    {
        text_at(self.text, 76, 2)
    }

    /// Gives position 79: 1 where a record 7 follows, else 0.
    pub fn addenda_indicator(&self) -> &'a [u8]
        ensures { result.now ≡ field kinds.Entry "addenda indicator" self.now.text.now }
    {
        text_at(self.text, 78, 1)
    }

    /// Gives positions 80 to 94: the trace of the entry.
    pub fn trace(&self) -> &'a [u8]
        ensures { result.now ≡ field kinds.Entry "trace" self.now.text.now }
    {
        text_at(self.text, 79, 15)
    }
}
