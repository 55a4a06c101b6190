ghost use Rattle.std.specs.Prelude.{◌≡◌};
ghost use Rattle.ach_records.specs.Layout.{field};
ghost use Rattle.ach_records.specs.Record.{IsRecord};
ghost use Rattle.ach_records.specs.declared.Kind.TheVariants as kinds;

use crate::fields::text_at;

/// A `BatchHeader` views a record 5: the company of a batch and what its entries are.
#[derive(Clone, Copy)]
pub struct BatchHeader<'a> {
    /// These are its 94 bytes.
    pub text: &'a [u8; 94],
    ghost is_record: { IsRecord kinds.BatchHeader text.now },
}

impl<'a> BatchHeader<'a> {
    // The view of a text that was found to be this record.
    pub(crate) fn of(text: &'a [u8; 94]) -> BatchHeader<'a>
        requires { IsRecord kinds.BatchHeader text.now }
        ensures { result.text.now ≡ text.now }
    {
        BatchHeader { text }
    }

    /// Gives position 1: the record type.
    pub fn record_type(&self) -> &'a [u8]
        ensures { result.now ≡ field kinds.BatchHeader "record type" self.now.text.now }
    {
        text_at(self.text, 0, 1)
    }

    /// Gives positions 2 to 4: the service class: 200 for credits and debits, 220 for credits, 225 for debits.
    pub fn service_class(&self) -> &'a [u8]
        ensures { result.now ≡ field kinds.BatchHeader "service class" self.now.text.now }
    {
        text_at(self.text, 1, 3)
    }

    /// Gives positions 5 to 20: the name of the company.
    pub fn company_name(&self) -> &'a [u8]
        ensures { result.now ≡ field kinds.BatchHeader "company name" self.now.text.now }
    {
        text_at(self.text, 4, 16)
    }

    /// Gives positions 21 to 40: discretionary data, printed blank.
    pub fn discretionary_data(&self) -> &'a [u8]
        ensures { result.now ≡ field kinds.BatchHeader "discretionary data" self.now.text.now }
    {
        text_at(self.text, 20, 20)
    }

    /// Gives positions 41 to 50: the identification of the company.
    pub fn company_identification(&self) -> &'a [u8]
        ensures { result.now ≡ field kinds.BatchHeader "company identification" self.now.text.now }
    {
        text_at(self.text, 40, 10)
    }

    /// Gives positions 51 to 53: the standard entry class code.
    pub fn sec_code(&self) -> &'a [u8]
        ensures { result.now ≡ field kinds.BatchHeader "SEC code" self.now.text.now }
    {
        text_at(self.text, 50, 3)
    }

    /// Gives positions 54 to 63: what the entries are for.
    pub fn entry_description(&self) -> &'a [u8]
        ensures { result.now ≡ field kinds.BatchHeader "entry description" self.now.text.now }
    {
        text_at(self.text, 53, 10)
    }

    /// Gives positions 64 to 69: the descriptive date, printed blank.
    pub fn descriptive_date(&self) -> &'a [u8]
        ensures { result.now ≡ field kinds.BatchHeader "descriptive date" self.now.text.now }
    {
        text_at(self.text, 63, 6)
    }

    /// Gives positions 70 to 75: the effective entry date, YYMMDD.
    pub fn effective_entry_date(&self) -> &'a [u8]
        ensures { result.now ≡ field kinds.BatchHeader "effective entry date" self.now.text.now }
    {
        text_at(self.text, 69, 6)
    }

    /// Gives positions 76 to 78: the settlement date as a day of the year, or blank.
    pub fn settlement_date(&self) -> &'a [u8]
        ensures { result.now ≡ field kinds.BatchHeader "settlement date" self.now.text.now }
    {
        text_at(self.text, 75, 3)
    }

    /// Gives position 79: the originator status code, printed `1`.
    pub fn originator_status(&self) -> &'a [u8]
        ensures { result.now ≡ field kinds.BatchHeader "originator status" self.now.text.now }
    {
        text_at(self.text, 78, 1)
    }

    /// Gives positions 80 to 87: the first eight digits of the routing number of the ODFI.
    pub fn originating_dfi(&self) -> &'a [u8]
        ensures { result.now ≡ field kinds.BatchHeader "originating DFI" self.now.text.now }
    {
        text_at(self.text, 79, 8)
    }

    /// Gives positions 88 to 94: the batch number.
    pub fn batch_number(&self) -> &'a [u8]
        ensures { result.now ≡ field kinds.BatchHeader "batch number" self.now.text.now }
    {
        text_at(self.text, 87, 7)
    }
}
