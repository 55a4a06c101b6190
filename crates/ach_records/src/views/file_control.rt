ghost use Rattle.std.specs.Prelude.{◌≡◌};
ghost use Rattle.ach_fields.specs.Digits.{number};
ghost use Rattle.ach_records.specs.Layout.{field};
ghost use Rattle.ach_records.specs.Record.{IsRecord};
ghost use Rattle.ach_records.specs.declared.Kind.TheVariants as kinds;

use crate::fields::text_at;
use crate::readers::{
    file_control_batches, file_control_blocks, file_control_count, file_control_credits,
    file_control_debits, file_control_hash,
};
use ach_fields::Cents;

/// A `FileControl` views a record 9: counts, hash and totals of a file.
#[derive(Clone, Copy)]
pub struct FileControl<'a> {
    /// These are its 94 bytes.
    pub text: &'a [u8; 94],
    ghost is_record: { IsRecord kinds.FileControl text.now },
}

impl<'a> FileControl<'a> {
    // The view of a text that was found to be this record.
    pub(crate) fn of(text: &'a [u8; 94]) -> FileControl<'a>
        requires { IsRecord kinds.FileControl text.now }
        ensures { result.text.now ≡ text.now }
    {
        FileControl { text }
    }

    /// Gives position 1: the record type.
    pub fn record_type(&self) -> &'a [u8]
        ensures { result.now ≡ field kinds.FileControl "record type" self.now.text.now }
    {
        text_at(self.text, 0, 1)
    }

    /// Gives positions 2 to 7: how many batches the file has.
    pub fn batch_count(&self) -> u32
        ensures { result ≡ number (field kinds.FileControl "batch count" self.now.text.now) }
    {
        file_control_batches(self.text) as u32
    }

    /// Gives positions 8 to 13: how many blocks of ten records, the fillers counted.
    pub fn block_count(&self) -> u32
        ensures { result ≡ number (field kinds.FileControl "block count" self.now.text.now) }
    {
        file_control_blocks(self.text) as u32
    }

    /// Gives positions 14 to 21: how many records 6 and 7 the file has.
    pub fn count(&self) -> u32
        ensures { result ≡ number (field kinds.FileControl "count" self.now.text.now) }
    {
        file_control_count(self.text) as u32
    }

    /// Gives positions 22 to 31: the low ten digits of the sum of the hashes of the batches.
    pub fn entry_hash(&self) -> u64
        ensures { result ≡ number (field kinds.FileControl "entry hash" self.now.text.now) }
    {
        file_control_hash(self.text)
    }

    /// Gives positions 32 to 43: the sum of the debits, in cents.
    pub fn total_debits(&self) -> Cents
        ensures { result ≡ number (field kinds.FileControl "total debits" self.now.text.now) }
    {
        file_control_debits(self.text)
    }

    /// Gives positions 44 to 55: the sum of the credits, in cents.
    pub fn total_credits(&self) -> Cents
        ensures { result ≡ number (field kinds.FileControl "total credits" self.now.text.now) }
    {
        file_control_credits(self.text)
    }

    /// Gives positions 56 to 94: what is reserved, printed blank.
    pub fn reserved(&self) -> &'a [u8]
        ensures { result.now ≡ field kinds.FileControl "reserved" self.now.text.now }
    {
        text_at(self.text, 55, 39)
    }
}
