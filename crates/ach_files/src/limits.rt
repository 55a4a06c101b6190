//! A file and the fields of its controls hold at most so much.

/// A file has at most 4 MiB.
pub const MOST_BYTES: u32 = 4_194_304;

/// A control counts the records of a batch, the batches and the blocks in six digits.
pub const SIX_DIGITS: u64 = 999_999;

/// A file control counts the records 6 and 7 of a file in eight digits.
pub const EIGHT_DIGITS: u64 = 99_999_999;
