use ach_fields::{Id, ShortText};

/// The most that a company may submit in one entry and have outstanding in credits and in debits,
/// in cents. These limits are the desk's own rule.
#[derive(Clone, Copy, Debug, PartialEq, Eq, Drop)]
pub struct Limits {
    /// The most cents of one entry.
    pub entry: u64,
    /// The most cents of credit exposure.
    pub credit: u64,
    /// The most cents of debit exposure.
    pub debit: u64,
}

/// A `Company` is a registered company: its fields are right.
#[derive(Clone, Copy, Debug, PartialEq, Eq, Drop)]
pub struct Company {
    pub id: Id,
    pub name: ShortText<16>,
    /// The SHA-256 digest of its key.
    pub digest: [u8; 32],
    pub limits: Limits,
}
