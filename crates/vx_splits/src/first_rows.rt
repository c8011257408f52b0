//! The first selected rows of chunks: a limit cuts the chunks behind the row that meets it.

ghost use Rattle.std.specs.Prelude.{◌≡◌, ◌<◌, take, IfOk};
ghost use Rattle.std.specs.List.{AllByRecursion, flat_map};
ghost use Rattle.vx_base.specs.Masks.{true_count, place_of_rank};
ghost use Rattle.vx_splits.specs.FirstRows.{IsTight, first_part, first_chunks};
ghost use Rattle.vx_splits.specs.Trimmed.{chosen_rows};

use crate::selected_rows::{SelectedRows, WorkScope};
use std::alloc::{AllocError, Global};
use vx_base::Mask;

/// The place of the true row that has so many true rows before it. The mask's length where there is none.
fn place_of(mask: &Mask, rank: u64) -> u64
    ensures { result ≡ place_of_rank mask.now rank }
{
    let mut left = rank;
    for row in 0..mask.len() {
        if mask.value(row) {
            if left == 0 {
                return row;
            }
            left -= 1;
        }
    }
    mask.len()
}

/// The chunk up to the last of so many of its selected rows: the chunk itself where it has no more. `count` is how
/// many it has.
fn part_of(
    alloc: Global,
    chunk: SelectedRows,
    count: u64,
    limit: u64,
) -> Result<SelectedRows, AllocError>
    requires tight { IsTight chunk }
    requires count { count ≡ true_count chunk.mask }
    requires some { 0 < limit }
    ensures { IfOk result (λ part. part ≡ first_part limit chunk) }
{
    if count <= limit {
        return Ok(chunk);
    }
    let rows = place_of(&chunk.mask, limit - 1) + 1;
    let mask = chunk.mask.slice(alloc, 0..rows)?;
    let (file_ordinal, start) = (chunk.scope.file_ordinal, chunk.scope.rows.start);
    let scope = WorkScope {
        file_ordinal,
        rows: start..start + rows,
    };
    Ok(SelectedRows { scope, mask })
}

/// The chunks with the first selected rows, as many as the limit: each is trimmed to its first and last selected row,
/// and none is without one. Each chunk has to begin and end with a selected row, and its mask as many rows as its scope;
/// nothing is asked of their order. The chunks are passed once, and behind the one in which the limit is met no mask is
/// looked at.
#[tactic(auto, using(crate::proofs::FirstChunks::limit_more, crate::proofs::FirstChunks::limit_met, crate::proofs::FirstChunks::limit_end))]
pub fn limit_rows(
    alloc: Global,
    chunks: Vec<SelectedRows>,
    limit: u64,
) -> Result<Vec<SelectedRows>, AllocError>
    requires { AllByRecursion IsTight chunks.items }
    ensures chunks { IfOk result (λ left. left.items ≡ first_chunks limit chunks.items) }
    ensures rows { IfOk result (λ left. flat_map chosen_rows left.items ≡ take limit (flat_map chosen_rows chunks.items)) }
    ensures trimmed { IfOk result (λ left. AllByRecursion IsTight left.items) }
{
    let mut kept = Vec::with_capacity(alloc, chunks.len())?;
    let mut left = limit;
    for chunk in chunks {
        if left == 0 {
            break;
        }
        let count = chunk.mask.true_count();
        kept.push(part_of(alloc, chunk, count, left)?)?;
        left = left.saturating_sub(count);
    }
    Ok(kept)
}
