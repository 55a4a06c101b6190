//! A record adds to the records before it.
ghost use Rattle.std.specs.Prelude.{◌≡◌, ◌+◌, ◌≤◌, ◌<◌, ◌^◌, true, Some, None};
ghost use Rattle.ach_records.specs.Record.{has_digits};
ghost use Rattle.ach_records.specs.declared.Kind.TheVariants as kinds;
ghost use Rattle.ach_files.specs.Facts.{return_or_change_of};
ghost use Rattle.ach_files.specs.RecordFault.{pending_entry_of};
ghost use Rattle.ach_files.specs.Limits.{most_bytes};
ghost use Rattle.ach_files.specs.ReaderState.{stage_after, pending_facts, completed_item, weight, most_weight};

use crate::facts::{ItemFacts, ReturnOrChange};
use crate::stage::{BatchesSoFar, OpenBatch, PendingEntry, Stage};
use crate::sums::{NO_SUMS, with_batch, with_item};
use ach_records::{
    Kind, addenda_code, addenda_original_dfi, addenda_original_trace, batch_sec, change_data,
    entry_cents, entry_dfi, entry_direction, entry_transaction_code, header_key,
    return_information,
};

fn pending_entry(text: &[u8; 94]) -> PendingEntry
    requires { has_digits kinds.Entry text.now ≡ true }
    ensures value { result ≡ pending_entry_of text.now }
    ensures dfi { result.dfi < 10 ^ 10 }
    ensures cents { result.cents < 10 ^ 10 }
{
    PendingEntry {
        transaction_code: entry_transaction_code(text),
        dfi: u64::from(entry_dfi(text)),
        cents: entry_cents(text),
        is_debit: b'5' <= entry_direction(text),
    }
}

/// Gives the stage after the record.
pub fn advance(stage: Stage, before: u32, kind: Kind, text: &[u8; 94]) -> Stage
    requires few { before < most_bytes }
    requires digits { has_digits kind text.now ≡ true }
    requires bounded { weight stage ≤ most_weight before }
    ensures value { result ≡ stage_after stage kind text.now }
    ensures bounded { weight result ≤ most_weight (before + 1) }
{
    match (stage, kind) {
        (Stage::BeforeHeader, Kind::FileHeader) => Stage::BetweenBatches(BatchesSoFar {
            key: header_key(text),
            batches: 0,
            sums: NO_SUMS,
        }),
        (Stage::BetweenBatches(so_far), Kind::BatchHeader) => Stage::InBatch(
            so_far,
            OpenBatch {
                sec: batch_sec(text),
                sums: NO_SUMS,
            },
        ),
        (Stage::BetweenBatches(so_far), Kind::FileControl) => Stage::Closed(so_far.key),
        (Stage::InBatch(so_far, open), Kind::Entry) => Stage::AwaitingAddenda(
            so_far,
            open,
            pending_entry(text),
        ),
        (Stage::InBatch(so_far, open), Kind::BatchControl) => Stage::BetweenBatches(BatchesSoFar {
            key: so_far.key,
            batches: so_far.batches + 1,
            sums: with_batch(&so_far.sums, &open.sums),
        }),
        (Stage::AwaitingAddenda(so_far, open, entry), Kind::Return99 | Kind::Change98) =>
            Stage::InBatch(
                so_far,
                OpenBatch {
                    sec: open.sec,
                    sums: with_item(&open.sums, &entry),
                },
            ),
        (stage, _) => stage,
    }
}

fn return_or_change(kind: Kind, text: &[u8; 94]) -> ReturnOrChange
    ensures { result ≡ return_or_change_of kind text.now }
{
    match kind {
        Kind::Change98 => ReturnOrChange::Change(change_data(text)),
        _ => ReturnOrChange::Return(return_information(text)),
    }
}

#[tactic(auto, unfolding(crate::specs::Facts::facts_from))]
fn facts(batch: &OpenBatch, entry: &PendingEntry, kind: Kind, text: &[u8; 94]) -> ItemFacts
    ensures { result ≡ pending_facts batch.now entry.now kind text.now }
{
    ItemFacts {
        sec_code: batch.sec,
        transaction_code: entry.transaction_code,
        cents: entry.cents,
        code: addenda_code(text),
        original_trace: addenda_original_trace(text),
        original_dfi: addenda_original_dfi(text),
        return_or_change: return_or_change(kind, text),
    }
}

/// Gives the item that the record completes, if it completes one.
pub fn completed_item(stage: &Stage, kind: Kind, text: &[u8; 94]) -> Option<ItemFacts>
    ensures { result ≡ completed_item stage.now kind text.now }
{
    match (stage, kind) {
        (Stage::AwaitingAddenda(_, open, entry), Kind::Return99) => Some(facts(
            open, entry, kind, text,
        )),
        (Stage::AwaitingAddenda(_, open, entry), Kind::Change98) => Some(facts(
            open, entry, kind, text,
        )),
        _ => None,
    }
}
