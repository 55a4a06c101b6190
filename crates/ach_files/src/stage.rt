//! A `Stage` is what the records so far amount to.
use crate::sums::Sums;
use ach_fields::Cents;

/// `BatchesSoFar` are the file header and the batches that are whole.
#[derive(Clone, Copy)]
pub struct BatchesSoFar {
    /// These are origin, date, time and modifier.
    pub key: [u8; 21],
    /// The number of whole batches after the header.
    pub batches: u64,
    pub sums: Sums,
}

/// An `OpenBatch` is the batch that is not whole yet.
#[derive(Clone, Copy)]
pub struct OpenBatch {
    pub sec: [u8; 3],
    pub sums: Sums,
}

/// A `PendingEntry` is the entry whose addenda is awaited.
#[derive(Clone, Copy)]
pub struct PendingEntry {
    pub transaction_code: u8,
    pub dfi: u64,
    /// The amount in cents.
    pub cents: Cents,
    pub is_debit: bool,
}

/// The stage of a file after a record.
#[derive(Clone, Copy)]
pub enum Stage {
    BeforeHeader,
    BetweenBatches(BatchesSoFar),
    InBatch(BatchesSoFar, OpenBatch),
    AwaitingAddenda(BatchesSoFar, OpenBatch, PendingEntry),
    /// The file control came; this is the file's key.
    Closed([u8; 21]),
}
