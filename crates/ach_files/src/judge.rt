//! A record is judged by its own fields and by the records before it.

ghost use Rattle.std.specs.Prelude.{◌≡◌, ◌+◌, ◌≤◌, true, false, Some, None, IsNone};
ghost use Rattle.ach_records.specs.Record.{has_digits};
ghost use Rattle.ach_records.specs.declared.Kind.TheVariants as kinds;
ghost use Rattle.ach_files.specs.Totals.{batch_control_sums, file_control_sums};
ghost use Rattle.ach_files.specs.Limits.{most_bytes};
ghost use Rattle.ach_files.specs.RecordFault.{may_follow, is_misplaced, has_amount, is_forward, sums_differ, control_fault, file_control_fault, fault_after_stage};

use crate::fault::FileFault;
use crate::stage::{BatchesSoFar, Stage};
use crate::sums::{Sums, low_digits};
use ach_records::{
    Kind, batch_control_count, batch_control_credits, batch_control_debits, batch_control_hash,
    entry_direction, file_control_batches, file_control_blocks, file_control_count,
    file_control_credits, file_control_debits, file_control_hash, has_digits,
};

fn may_follow(stage: &Stage, kind: Kind) -> bool
    ensures { result ≡ may_follow stage.now kind }
{
    match (stage, kind) {
        (Stage::BeforeHeader, Kind::FileHeader) => true,
        (Stage::BetweenBatches(_), Kind::BatchHeader | Kind::FileControl) => true,
        (Stage::InBatch(_, _), Kind::Entry | Kind::BatchControl) => true,
        (Stage::AwaitingAddenda(_, _, _), Kind::Change98 | Kind::Return99) => true,
        (Stage::Closed(_), Kind::Filler) => true,
        _ => false,
    }
}

fn is_misplaced(stage: &Stage, kind: Kind) -> bool
    ensures { result ≡ is_misplaced stage.now kind }
{
    match (stage, kind) {
        (_, Kind::Addenda05 | Kind::OtherAddenda) => true,
        (Stage::AwaitingAddenda(_, _, _), Kind::Entry | Kind::BatchControl) => true,
        (Stage::InBatch(_, open), Kind::Change98 | Kind::Return99) => open.sums.count != 0,
        _ => false,
    }
}

fn has_amount(stage: &Stage, kind: Kind) -> bool
    ensures { result ≡ has_amount stage.now kind }
{
    match (stage, kind) {
        (Stage::AwaitingAddenda(_, _, entry), Kind::Change98) => entry.cents.get() != 0,
        _ => false,
    }
}

fn is_forward(kind: Kind, text: &[u8; 94]) -> bool
    ensures { result ≡ is_forward kind text.now }
{
    match kind {
        Kind::Entry => {
            let direction = entry_direction(text);
            direction != b'1' && direction != b'6'
        }
        _ => false,
    }
}

fn sums_differ(told: &Sums, sums: &Sums) -> Option<FileFault>
    ensures { result ≡ sums_differ told.now sums.now }
{
    if told.count != sums.count {
        return Some(FileFault::BadCount);
    }
    if told.hash != low_digits(sums.hash) {
        return Some(FileFault::BadHash);
    }
    if told.debits != sums.debits || told.credits != sums.credits {
        return Some(FileFault::BadTotal);
    }
    None
}

#[tactic(auto, unfolding(crate::specs::Totals::batch_control_sums))]
fn batch_control_sums(text: &[u8; 94]) -> Sums
    requires { has_digits kinds.BatchControl text.now ≡ true }
    ensures { result ≡ batch_control_sums text.now }
{
    Sums {
        count: batch_control_count(text),
        hash: batch_control_hash(text),
        debits: batch_control_debits(text).get(),
        credits: batch_control_credits(text).get(),
    }
}

#[tactic(auto, unfolding(crate::specs::Totals::file_control_sums))]
fn file_control_sums(text: &[u8; 94]) -> Sums
    requires { has_digits kinds.FileControl text.now ≡ true }
    ensures { result ≡ file_control_sums text.now }
{
    Sums {
        count: file_control_count(text),
        hash: file_control_hash(text),
        debits: file_control_debits(text).get(),
        credits: file_control_credits(text).get(),
    }
}

#[tactic(auto, unfolding(crate::specs::RecordFault::control_fault, crate::specs::Totals::control_batches, crate::specs::Totals::control_blocks))]
fn file_control_fault(so_far: &BatchesSoFar, number: u32, text: &[u8; 94]) -> Option<FileFault>
    requires digits { has_digits kinds.FileControl text.now ≡ true }
    requires few { number ≤ most_bytes }
    ensures { result ≡ file_control_fault so_far.now number text.now }
{
    if file_control_batches(text) != so_far.batches {
        return Some(FileFault::BadCount);
    }
    let told = file_control_sums(text);
    if let Some(fault) = sums_differ(&told, &so_far.sums) {
        return Some(fault);
    }
    if file_control_blocks(text) != ((number + 9) / 10) as u64 {
        return Some(FileFault::BadBlock);
    }
    None
}

#[tactic(auto, unfolding(crate::specs::RecordFault::control_fault))]
fn control_fault(stage: &Stage, number: u32, kind: Kind, text: &[u8; 94]) -> Option<FileFault>
    requires digits { has_digits kind text.now ≡ true }
    requires few { number ≤ most_bytes }
    ensures { result ≡ control_fault stage.now number kind text.now }
{
    match (stage, kind) {
        (Stage::InBatch(_, open), Kind::BatchControl) => sums_differ(
            &batch_control_sums(text),
            &open.sums,
        ),
        (Stage::BetweenBatches(so_far), Kind::FileControl) => file_control_fault(
            so_far, number, text,
        ),
        _ => None,
    }
}

/// Returns the fault of the record with that number, if the records before it led to the stage.
#[tactic(auto, unfolding(crate::specs::RecordFault::fault_after_stage))]
pub fn judge(stage: &Stage, number: u32, kind: Kind, text: &[u8; 94]) -> Option<FileFault>
    requires { number ≤ most_bytes }
    ensures value { result ≡ fault_after_stage stage.now number kind text.now }
    ensures follows { IsNone result → may_follow stage.now kind ≡ true }
    ensures digits { IsNone result → has_digits kind text.now ≡ true }
{
    let misplaced = is_misplaced(stage, kind);
    if !(may_follow(stage, kind) || misplaced) {
        return Some(FileFault::BadOrder);
    }
    if !has_digits(kind, text) {
        return Some(FileFault::BadNumber);
    }
    if is_forward(kind, text) {
        return Some(FileFault::ForwardEntry);
    }
    if misplaced || has_amount(stage, kind) {
        return Some(FileFault::BadAddenda);
    }
    control_fault(stage, number, kind, text)
}
