//! The division of the batches of a cut into files.
ghost use Rattle.std.specs.Prelude.{◌≡◌, All, IfOk, length, map, sum};
ghost use Rattle.desk_plan.specs.Files.{AreSizesOf, IsSize, division};

use crate::batch::Batch;
use crate::load::Load;
use std::alloc::{AllocError, Global};

/// Says how many batches go into each file of a cut, in order. The present file takes the next
/// batch where debits and credits stay within 999,999,999,999 cents each, batches within 1,000 and
/// records 6 and 7 within 100,000; else the batch begins a new file.
///
/// By the Nacha format the totals of a file have twelve digits; the other bounds are the desk's
/// own. A batch that is too large for any file makes one all the same; no batch of a submission is.
pub fn divide(alloc: Global, batches: &[Batch]) -> Result<Vec<usize>, AllocError>
    ensures sizes { IfOk result (λ sizes. sizes.items ≡ map length (division batches.now)) }
    ensures only { IfOk result (λ sizes. AreSizesOf batches.now sizes.items) }
    ensures whole { IfOk result (λ sizes. sum sizes.items ≡ length batches.now) }
    ensures within { IfOk result (λ sizes. All IsSize sizes.items) }
{
    let mut sizes = Vec::new(alloc);
    let Some((first, rest)) = batches.split_first() else {
        return Ok(sizes);
    };
    let mut load = Load::of(first);
    for batch in rest {
        match load.with(batch) {
            Some(more) => load = more,
            None => {
                sizes.push(load.batches)?;
                load = Load::of(batch);
            }
        }
    }
    sizes.push(load.batches)?;
    Ok(sizes)
}
