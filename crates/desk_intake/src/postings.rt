//! A file posts its returns.
ghost use Rattle.std.specs.Prelude.{◌≡◌, ◌++◌, [], unwrap_or, IfOk, OnOk};
ghost use Rattle.desk_accounts.specs.Laws.{pairs};
ghost use Rattle.desk_history.specs.Postings.{is_debit_code, item_line, suspense_lines};
ghost use Rattle.desk_intake.specs.Plans.{event_lines, postings_of};
ghost use Rattle.desk_intake.specs.Resolutions.{resolution_of};

use crate::agreement::is_return as is_return_item;
use crate::judged_item::JudgedItem;
use crate::matched_item::{MatchedItem, Reaction};
use ach_files::ItemFacts;
use bank_days::Day;
use desk_accounts::{Posting, post_return, post_suspense};
use std::alloc::{AllocError, Global};

// Returns the postings of a returned entry.
fn returned_pair(met: &MatchedItem, day: Day) -> Option<[Posting; 2]>
    ensures { unwrap_or result [] ≡ event_lines day met.now }
{
    let Reaction::Return { .. } = met.reaction else {
        return None;
    };
    let entry = &met.entry;
    post_return(
        entry.company,
        entry.debit,
        entry.entry.cents.as_cents(),
        day,
        entry.reference,
        entry.index,
    )
}

fn is_debit_code(transaction: u8) -> bool
    ensures { result ≡ is_debit_code transaction }
{
    transaction % 10 >= 5
}

// The money of a return in suspense.
fn suspense_pair(item: &ItemFacts, day: Day) -> Option<[Posting; 2]>
    ensures { unwrap_or result [] ≡ pairs (suspense_lines day item.now) }
{
    if !is_return_item(item) {
        return None;
    }
    post_suspense(is_debit_code(item.transaction_code), item.cents, day)
}

// The two lines of an item, if it moves money.
fn pair_of(judged: &JudgedItem, day: Day) -> Option<[Posting; 2]>
    ensures { unwrap_or result [] ≡ pairs
        (item_line day judged.now.item (resolution_of judged.now)) }
{
    match &judged.outcome {
        Ok(met) => returned_pair(met, day),
        Err(_) => suspense_pair(&judged.item, day),
    }
}

fn push_pair(postings: &mut Vec<Posting>, pair: Option<[Posting; 2]>) -> Result<(), AllocError>
    ensures { OnOk result (postings.new.items ≡ postings.old.items ++ unwrap_or pair []) }
{
    if let Some(pair) = pair {
        postings.extend_from_slice(&pair)?;
    }
    Ok(())
}

/// Gives the lines of companies and of suspense, each with its opposite after it.
pub(crate) fn postings_of(
    alloc: Global,
    judged: &[JudgedItem],
    day: Day,
) -> Result<Vec<Posting>, AllocError>
    ensures { IfOk result (λ postings. postings.items ≡ postings_of day judged.now) }
{
    let mut postings = Vec::new(alloc);
    for one in judged {
        push_pair(&mut postings, pair_of(one, day))?;
    }
    Ok(postings)
}
