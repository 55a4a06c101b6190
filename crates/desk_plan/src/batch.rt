use ach_fields::{Cents, Id};
use bank_days::Day;

/// A batch that a cut is to send: what a submission takes of a file and of the sequences.
///
/// It knows neither its file nor its sequences, so that the batches of a desk that serves one
/// company alone are those of the company among the batches of all.
#[derive(Clone, Copy, Debug, PartialEq, Eq)]
pub struct Batch {
    /// The company whose submission it is.
    pub company: Id,
    /// The submission's order number in its company.
    pub order: u64,
    /// The day on which its entries settle.
    pub settled: Day,
    /// The sum of its debits, in cents.
    pub debits: Cents,
    /// The sum of its credits, in cents.
    pub credits: Cents,
    /// The number of its entries, 1 to 1,000.
    pub entries: u32,
    /// The number of its records 6 and 7: one for each entry and one for each addenda, at most
    /// 2,000.
    pub records: u32,
}
