//! Writing a cut into the lists.
ghost use Rattle.std.specs.Prelude.{◌≡◌, ◌+◌, ◌≤◌, ◌++◌, vec_len, vec_capacity, IfOk, OnOk, OnErr};
ghost use Rattle.desk_store.specs.Changes.{send_in, lapse_in};
ghost use Rattle.memory_store.specs.Keyed.{sent_keyed, lapsed_keyed};
ghost use Rattle.memory_store.specs.Kept.{row_in, rows_in};
ghost use Rattle.memory_store.specs.Placed.{numbered};
ghost use Rattle.memory_store.specs.Written.{ChangesFound, WritesCut, decided_in};
ghost use Rattle.memory_store.specs.declared.place_index.KeyKind.TheVariants as kinds;
ghost use Rattle.desk_store.specs.Written.{cut_rows};

use crate::changes::{Change, add_within, change_all, set_states};
use crate::list_store::{KeptSubmission, ListStore};
use crate::place_index::PlaceIndex;
use crate::row_key::RowKey;
use desk_book::{FileRow, LapsedRow, SentRow};
use desk_history::ListOf;
use desk_rules::EntryState;
use desk_store::CutRows;
use std::alloc::{AllocError, Global};

fn settle(kept: &mut KeptSubmission, row: &SentRow)
    ensures { row_in kept.new ≡ send_in row.now (row_in kept.old) }
{
    if kept.company.bytes() == row.company.bytes() {
        if kept.order == row.order {
            kept.settled = Some(row.settled);
            set_states(
                &mut kept.states,
                EntryState::Sent {
                    settled: row.settled,
                },
            );
        }
    }
}

fn let_lapse(kept: &mut KeptSubmission, row: &LapsedRow)
    ensures { row_in kept.new ≡ lapse_in row.now (row_in kept.old) }
{
    if kept.company.bytes() == row.company.bytes() {
        if kept.order == row.order {
            kept.lapsed = true;
            set_states(&mut kept.states, EntryState::Lapsed);
        }
    }
}

impl Change for SentRow {
    ghost makes = { send_in };

    ghost kind = { kinds.Order };

    ghost key = { λ s. numbered s.company s.order };

    ghost keyed = { sent_keyed };

    fn key(&self) -> RowKey {
        RowKey::numbered(self.company, self.order)
    }

    fn change(&self, kept: &mut KeptSubmission) {
        settle(kept, self);
    }
}

impl Change for LapsedRow {
    ghost makes = { lapse_in };

    ghost kind = { kinds.Order };

    ghost key = { λ l. numbered l.company l.order };

    ghost keyed = { lapsed_keyed };

    fn key(&self) -> RowKey {
        RowKey::numbered(self.company, self.order)
    }

    fn change(&self, kept: &mut KeptSubmission) {
        let_lapse(kept, self);
    }
}

fn text_copy(alloc: Global, text: &[u8]) -> Result<ListOf<u8>, AllocError>
    ensures { IfOk result (λ copy. copy ≡ text.now) }
{
    let mut copy = Vec::new(alloc);
    copy.extend_from_slice(text)?;
    Ok(ListOf::new(copy))
}

fn file_copies(alloc: Global, files: &[FileRow]) -> Result<Vec<FileRow>, AllocError>
    ensures { IfOk result (λ copies. copies.items ≡ files.now) }
{
    let mut copies = Vec::new(alloc);
    for file in files {
        let text = text_copy(alloc, file.text.as_slice())?;
        copies.push(FileRow {
            day: file.day,
            modifier: file.modifier,
            text,
        })?;
    }
    Ok(copies)
}

/// Adds files for which there is room.
fn move_within(list: &mut Vec<FileRow>, files: Vec<FileRow>)
    requires { vec_len list.old + vec_len files ≤ vec_capacity list.old }
    ensures { list.new.items ≡ list.old.items ++ files.items }
{
    let mut files = files;
    let _done = list.append(&mut files);
}

/// Changes the submissions that a cut sends or lets lapse, which an index finds.
fn decide(kept: &mut Vec<KeptSubmission>, orders: &PlaceIndex, cut: &CutRows<'_>)
    ensures { ChangesFound kinds.Order orders.now (decided_in (cut_rows cut.now))
        kept.old.items kept.new.items }
{
    change_all(kept, orders, cut.sent);
    change_all(kept, orders, cut.lapsed);
}

/// Writes a cut, given an index of order numbers that covers all submissions.
///
/// # Errors
///
/// Without memory the lists are unchanged.
pub(crate) fn write_cut(
    store: &mut ListStore,
    alloc: Global,
    cut: &CutRows<'_>,
) -> Result<(), AllocError>
    ensures ok { OnOk result (WritesCut (cut_rows cut.now) store.old store.new) }
    ensures err { OnErr result (rows_in store.new ≡ rows_in store.old) }
    ensures traces { store.new.traces ≡ store.old.traces }
    ensures settlements { store.new.settlements ≡ store.old.settlements }
    ensures places { store.new.places ≡ store.old.places }
{
    let files = file_copies(alloc, cut.files)?;
    store.postings.reserve(cut.postings.len())?;
    store.sent.reserve(cut.entries.len())?;
    store.printed.reserve(cut.sent.len())?;
    store.files.reserve(files.len())?;
    // From here on there is room for all.
    add_within(&mut store.postings, cut.postings);
    add_within(&mut store.sent, cut.entries);
    add_within(&mut store.printed, cut.sent);
    move_within(&mut store.files, files);
    decide(&mut store.submissions, &store.places.orders, cut);
    Ok(())
}
