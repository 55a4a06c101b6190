//! A reader of files takes these fields by their names. The offsets are those of the layouts.
//!
//! A number is read where the digit fields of the record were found to be digits.
ghost use Rattle.std.specs.Prelude.{◌≡◌, ◌<◌, ◌^◌, true};
ghost use Rattle.ach_fields.specs.Digits.{number};
ghost use Rattle.ach_records.specs.Layout.{field};
ghost use Rattle.ach_records.specs.Record.{has_digits, entry_transaction_code, entry_direction, entry_dfi, entry_cents, batch_sec, header_key};
ghost use Rattle.ach_records.specs.declared.Kind.TheVariants as kinds;

use crate::fields::{bytes_at, number_at};
use ach_fields::Cents;

/// Gives the origin, creation date, creation time and modifier of a file header, which lie side by side.
#[tactic(auto, unfolding(crate::specs::Record::header_key))]
pub fn header_key(text: &[u8; 94]) -> [u8; 21]
    ensures { result ≡ header_key text.now }
{
    bytes_at(text, 13)
}

/// Gives the SEC code of a batch header.
#[tactic(auto, unfolding(crate::specs::Record::batch_sec))]
pub fn batch_sec(text: &[u8; 94]) -> [u8; 3]
    ensures { result ≡ batch_sec text.now }
{
    bytes_at(text, 50)
}

/// Gives the transaction code of an entry.
#[tactic(auto, using(crate::proofs::Digits::transaction_code_digits), unfolding(crate::specs::Record::entry_transaction_code))]
pub fn entry_transaction_code(text: &[u8; 94]) -> u8
    requires { has_digits kinds.Entry text.now ≡ true }
    ensures { result ≡ entry_transaction_code text.now }
{
    number_at(text, 1, 2) as u8
}

/// Gives the second digit of an entry's transaction code, as a character.
pub fn entry_direction(text: &[u8; 94]) -> u8
    ensures { result ≡ entry_direction text.now }
{
    text[2]
}

/// Gives the receiving DFI of an entry.
#[tactic(auto, using(crate::proofs::Digits::receiving_dfi_digits), unfolding(crate::specs::Record::entry_dfi))]
pub fn entry_dfi(text: &[u8; 94]) -> u32
    requires { has_digits kinds.Entry text.now ≡ true }
    ensures value { result ≡ entry_dfi text.now }
    ensures within { result < 10 ^ 8 }
{
    number_at(text, 3, 8) as u32
}

/// Gives the amount of an entry, in cents.
#[tactic(auto, using(crate::proofs::Digits::cents_digits), unfolding(crate::specs::Record::entry_cents))]
pub fn entry_cents(text: &[u8; 94]) -> Cents
    requires { has_digits kinds.Entry text.now ≡ true }
    ensures value { result ≡ entry_cents text.now }
    ensures within { result < 10 ^ 10 }
{
    Cents::new(number_at(text, 29, 10)).unwrap()
}

/// Gives the code of a return or of a notification of change.
pub fn addenda_code(text: &[u8; 94]) -> [u8; 3]
    ensures in_return { result ≡ field kinds.Return99 "return code" text.now }
    ensures in_change { result ≡ field kinds.Change98 "change code" text.now }
{
    bytes_at(text, 3)
}

/// Gives the trace of the entry that a return or a notification of change answers.
pub fn addenda_original_trace(text: &[u8; 94]) -> [u8; 15]
    ensures in_return { result ≡ field kinds.Return99 "original trace" text.now }
    ensures in_change { result ≡ field kinds.Change98 "original trace" text.now }
{
    bytes_at(text, 6)
}

/// Gives the receiving DFI of the entry that a return or a notification of change answers.
pub fn addenda_original_dfi(text: &[u8; 94]) -> [u8; 8]
    ensures in_return { result ≡ field kinds.Return99 "original receiving DFI" text.now }
    ensures in_change { result ≡ field kinds.Change98 "original receiving DFI" text.now }
{
    bytes_at(text, 27)
}

/// Gives the information of a return.
pub fn return_information(text: &[u8; 94]) -> [u8; 44]
    ensures { result ≡ field kinds.Return99 "information" text.now }
{
    bytes_at(text, 35)
}

/// Gives the corrected data of a notification of change.
pub fn change_data(text: &[u8; 94]) -> [u8; 29]
    ensures { result ≡ field kinds.Change98 "corrected data" text.now }
{
    bytes_at(text, 35)
}

/// Says how many records 6 and 7 a batch control counts.
#[tactic(auto, using(crate::proofs::Digits::batch_count_digits))]
pub fn batch_control_count(text: &[u8; 94]) -> u64
    requires { has_digits kinds.BatchControl text.now ≡ true }
    ensures value { result ≡ number (field kinds.BatchControl "count" text.now) }
    ensures within { result < 10 ^ 6 }
{
    number_at(text, 4, 6)
}

/// Gives the entry hash of a batch control.
#[tactic(auto, using(crate::proofs::Digits::batch_hash_digits))]
pub fn batch_control_hash(text: &[u8; 94]) -> u64
    requires { has_digits kinds.BatchControl text.now ≡ true }
    ensures { result ≡ number (field kinds.BatchControl "entry hash" text.now) }
{
    number_at(text, 10, 10)
}

/// Gives the total debits of a batch control, in cents.
#[tactic(auto, using(crate::proofs::Digits::batch_debits_digits))]
pub fn batch_control_debits(text: &[u8; 94]) -> Cents
    requires { has_digits kinds.BatchControl text.now ≡ true }
    ensures { result ≡ number (field kinds.BatchControl "total debits" text.now) }
{
    Cents::new(number_at(text, 20, 12)).unwrap()
}

/// Gives the total credits of a batch control, in cents.
#[tactic(auto, using(crate::proofs::Digits::batch_credits_digits))]
pub fn batch_control_credits(text: &[u8; 94]) -> Cents
    requires { has_digits kinds.BatchControl text.now ≡ true }
    ensures { result ≡ number (field kinds.BatchControl "total credits" text.now) }
{
    Cents::new(number_at(text, 32, 12)).unwrap()
}

/// Says how many batches a file control counts.
#[tactic(auto, using(crate::proofs::Digits::file_batches_digits))]
pub fn file_control_batches(text: &[u8; 94]) -> u64
    requires { has_digits kinds.FileControl text.now ≡ true }
    ensures value { result ≡ number (field kinds.FileControl "batch count" text.now) }
    ensures within { result < 10 ^ 6 }
{
    number_at(text, 1, 6)
}

/// Says how many blocks of ten records a file control counts.
#[tactic(auto, using(crate::proofs::Digits::file_blocks_digits))]
pub fn file_control_blocks(text: &[u8; 94]) -> u64
    requires { has_digits kinds.FileControl text.now ≡ true }
    ensures value { result ≡ number (field kinds.FileControl "block count" text.now) }
    ensures within { result < 10 ^ 6 }
{
    number_at(text, 7, 6)
}

/// Says how many records 6 and 7 a file control counts.
#[tactic(auto, using(crate::proofs::Digits::file_count_digits))]
pub fn file_control_count(text: &[u8; 94]) -> u64
    requires { has_digits kinds.FileControl text.now ≡ true }
    ensures value { result ≡ number (field kinds.FileControl "count" text.now) }
    ensures within { result < 10 ^ 8 }
{
    number_at(text, 13, 8)
}

/// Gives the entry hash of a file control.
#[tactic(auto, using(crate::proofs::Digits::file_hash_digits))]
pub fn file_control_hash(text: &[u8; 94]) -> u64
    requires { has_digits kinds.FileControl text.now ≡ true }
    ensures { result ≡ number (field kinds.FileControl "entry hash" text.now) }
{
    number_at(text, 21, 10)
}

/// Gives the total debits of a file control, in cents.
#[tactic(auto, using(crate::proofs::Digits::file_debits_digits))]
pub fn file_control_debits(text: &[u8; 94]) -> Cents
    requires { has_digits kinds.FileControl text.now ≡ true }
    ensures { result ≡ number (field kinds.FileControl "total debits" text.now) }
{
    Cents::new(number_at(text, 31, 12)).unwrap()
}

/// Gives the total credits of a file control, in cents.
#[tactic(auto, using(crate::proofs::Digits::file_credits_digits))]
pub fn file_control_credits(text: &[u8; 94]) -> Cents
    requires { has_digits kinds.FileControl text.now ≡ true }
    ensures { result ≡ number (field kinds.FileControl "total credits" text.now) }
{
    Cents::new(number_at(text, 43, 12)).unwrap()
}
