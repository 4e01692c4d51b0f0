//! The grouping of a call that one thread runs.

ghost use Rattle.std.specs.Prelude.{◌≡◌, IfOk};
ghost use Rattle.std.specs.List.{range_with_len};
ghost use Rattle.pts_groupings.specs.Chunks.{single_group};

use pts_boards::Grouping;
use sqlite_items::Items;
use std::alloc::{AllocError, Global};

/// One group of all chunks in order; none where there are no chunks.
#[tactic(auto, using(crate::proofs::Singles::no_chunks, crate::proofs::Singles::some_chunks))]
pub fn single_grouping(alloc: Global, chunks: u32) -> Result<Grouping, AllocError>
    ensures { IfOk result (λ grouping. grouping.groups ≡ single_group chunks) }
{
    let mut groups = Items::new(alloc);
    if chunks > 0 {
        groups.push(chunk_numbers(alloc, chunks)?)?;
    }
    Ok(Grouping { groups })
}

#[tactic(auto, using(crate::proofs::Singles::number_more))]
fn chunk_numbers(alloc: Global, chunks: u32) -> Result<Items<u32>, AllocError>
    ensures { IfOk result (λ numbers. numbers ≡ range_with_len 0 chunks) }
{
    let mut numbers = Items::new(alloc);
    for number in 0..chunks {
        numbers.push(number)?;
    }
    Ok(numbers)
}
