//! `ItemFacts` are what is taken from an item.
use ach_fields::Cents;

/// The addenda of an item: a return with its information, or a notification of change with the
/// corrected data. The texts are those of the record, with the blanks at their end.
#[derive(Clone, Copy, Debug, PartialEq, Eq)]
pub enum ReturnOrChange {
    /// An addenda 99, with its information.
    Return([u8; 44]),
    /// An addenda 98, with the corrected data.
    Change([u8; 29]),
}

/// `ItemFacts` are what an item of a file says: a returned or changed entry with its addenda.
#[derive(Clone, Copy, Debug, PartialEq, Eq)]
pub struct ItemFacts {
    /// The SEC code of its batch.
    pub sec_code: [u8; 3],
    /// The transaction code, of two digits.
    pub transaction_code: u8,
    /// The amount in cents, zero for a change.
    pub cents: Cents,
    /// The return code or change code.
    pub code: [u8; 3],
    /// The trace number of the entry that is returned or changed.
    pub original_trace: [u8; 15],
    /// The receiving DFI of that entry.
    pub original_dfi: [u8; 8],
    /// The addenda itself.
    pub return_or_change: ReturnOrChange,
}
