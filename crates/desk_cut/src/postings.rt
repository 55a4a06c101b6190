//! A cut posts what it sends.
ghost use Rattle.std.specs.Prelude.{◌≡◌, ◌++◌, IfOk, OnOk};
ghost use Rattle.desk_cut.specs.Numbers.{cut_lines, postings_of};
ghost use Rattle.desk_cut.specs.Sent.{sent_in};

use crate::due::Sending;
use desk_accounts::{Posting, post_cut};
use desk_plan::Batch;
use std::alloc::{AllocError, Global};

// Adds the two lines of a submission with money, by what it takes of a file.
fn push_lines(
    postings: &mut Vec<Posting>,
    sending: &Sending<'_>,
    load: &Batch,
) -> Result<(), AllocError>
    ensures { OnOk result (postings.new.items ≡ postings.old.items ++ cut_lines sending.now load.now) }
{
    let company = sending.waiting.company.id;
    let content = sending.waiting.row.content.submission();
    let debit = content.direction.is_debit();
    let cents = if debit { load.debits } else { load.credits };
    let settled = sending.settled.day();
    if let Some(lines) = post_cut(company, debit, cents, settled, content.reference) {
        postings.extend_from_slice(&lines)?;
    }
    Ok(())
}

/// Gives the lines of what is sent, each with its opposite, by what each submission takes.
pub(crate) fn postings_of(
    alloc: Global,
    sent: &[Sending<'_>],
    loads: &[Batch],
) -> Result<Vec<Posting>, AllocError>
    ensures { IfOk result (λ postings. postings.items ≡ postings_of (sent_in sent.now) loads.now) }
{
    let mut postings = Vec::new(alloc);
    for (sending, load) in sent.iter().zip(loads) {
        push_lines(&mut postings, sending, load)?;
    }
    Ok(postings)
}
