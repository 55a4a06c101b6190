ghost use Rattle.std.specs.Prelude.{◌≡◌};
ghost use Rattle.ach_fields.specs.Digits.{number};
ghost use Rattle.ach_records.specs.Layout.{field};
ghost use Rattle.ach_records.specs.Record.{IsRecord};
ghost use Rattle.ach_records.specs.declared.Kind.TheVariants as kinds;

use crate::fields::text_at;
use crate::readers::{
    batch_control_count, batch_control_credits, batch_control_debits, batch_control_hash,
};
use ach_fields::Cents;

/// A `BatchControl` views a record 8: count, hash and totals of a batch.
#[derive(Clone, Copy)]
pub struct BatchControl<'a> {
    /// These are its 94 bytes.
    pub text: &'a [u8; 94],
    ghost is_record: { IsRecord kinds.BatchControl text.now },
}

impl<'a> BatchControl<'a> {
    // The view of a text that was found to be this record.
    pub(crate) fn of(text: &'a [u8; 94]) -> BatchControl<'a>
        requires { IsRecord kinds.BatchControl text.now }
        ensures { result.text.now ≡ text.now }
    {
        BatchControl { text }
    }

    /// Gives position 1: the record type.
    pub fn record_type(&self) -> &'a [u8]
        ensures { result.now ≡ field kinds.BatchControl "record type" self.now.text.now }
    {
        text_at(self.text, 0, 1)
    }

    /// Gives positions 2 to 4: the service class, as in the header.
    pub fn service_class(&self) -> &'a [u8]
        ensures { result.now ≡ field kinds.BatchControl "service class" self.now.text.now }
    {
        text_at(self.text, 1, 3)
    }

    /// Gives positions 5 to 10: how many records 6 and 7 the batch has.
    pub fn count(&self) -> u32
        ensures { result ≡ number (field kinds.BatchControl "count" self.now.text.now) }
    {
        batch_control_count(self.text) as u32
    }

    /// Gives positions 11 to 20: the low ten digits of the sum of the receiving DFIs.
    pub fn entry_hash(&self) -> u64
        ensures { result ≡ number (field kinds.BatchControl "entry hash" self.now.text.now) }
    {
        batch_control_hash(self.text)
    }

    /// Gives positions 21 to 32: the sum of the debits, in cents.
    pub fn total_debits(&self) -> Cents
        ensures { result ≡ number (field kinds.BatchControl "total debits" self.now.text.now) }
    {
        batch_control_debits(self.text)
    }

    /// Gives positions 33 to 44: the sum of the credits, in cents.
    pub fn total_credits(&self) -> Cents
        ensures { result ≡ number (field kinds.BatchControl "total credits" self.now.text.now) }
    {
        batch_control_credits(self.text)
    }

    /// Gives positions 45 to 54: the identification of the company, as in the header.
    pub fn company_identification(&self) -> &'a [u8]
        ensures { result.now ≡ field kinds.BatchControl "company identification" self.now.text.now }
    {
        text_at(self.text, 44, 10)
    }

    /// Gives positions 55 to 73: the message authentication code, printed blank.
    pub fn authentication_code(&self) -> &'a [u8]
        ensures { result.now ≡ field kinds.BatchControl "authentication code" self.now.text.now }
    {
        text_at(self.text, 54, 19)
    }

    /// Gives positions 74 to 79: what is reserved, printed blank.
    pub fn reserved(&self) -> &'a [u8]
        ensures { result.now ≡ field kinds.BatchControl "reserved" self.now.text.now }
    {
        text_at(self.text, 73, 6)
    }

    /// Gives positions 80 to 87: the ODFI, as in the header.
    pub fn originating_dfi(&self) -> &'a [u8]
        ensures { result.now ≡ field kinds.BatchControl "originating DFI" self.now.text.now }
    {
        text_at(self.text, 79, 8)
    }

    /// Gives positions 88 to 94: the batch number, as in the header.
    pub fn batch_number(&self) -> &'a [u8]
        ensures { result.now ≡ field kinds.BatchControl "batch number" self.now.text.now }
    {
        text_at(self.text, 87, 7)
    }
}
