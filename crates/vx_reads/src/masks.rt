//! The rows of a mask over a node at which an expression is true, from the bytes of the segments that its selected rows need.

ghost use Rattle.std.specs.Prelude.{◌≡◌, ◌+◌, ◌-◌, ◌<◌, ◌≤◌, ◌^◌, ℕ, length, drop, slice_range, IfErr, IfOk, OnOk};
ghost use Rattle.vx_base.specs.ColumnCalls.{IsBool};
ghost use Rattle.vx_expr.specs.Bound.{IsBoundTo};
ghost use Rattle.vx_layout.specs.Kept.{all};
ghost use Rattle.vx_layout.specs.Rows.{derivation, derivation_in};
ghost use Rattle.vx_layout.specs.Trees.{subtree};
ghost use Rattle.vx_reads.specs.Came.{Begin};
ghost use Rattle.vx_reads.specs.Errors.{IsOfBytes};
ghost use Rattle.vx_reads.specs.MaskRows.{AreKeptBy, ChunksFail, FilterFails, RangeFails};
ghost use Rattle.vx_reads.specs.Needed.{needed, needed_in, needed_of_range};
ghost use Rattle.vx_reads.specs.Readable.{tree_head, trees_of, AreReadable, IsChunked};

use crate::errors::ReaderError;
use crate::leaf_columns::take_bytes;
use crate::needs::rows_here;
use crate::node_masks::{dict_mask, leaf_mask, looked_mask};
use crate::parts::{NodeParts, rows_at};
use crate::reads::SegmentRead;
use std::alloc::Global;
use std::ops::Range;
use vx_base::Mask;
use vx_expr::BoundExpression;
use vx_layout::LayoutTree;
use vx_picking::selects_some;

/// The rows of a mask over a node at which the expression is true. All reads that they need came.
pub fn kept_rows(
    alloc: Global,
    tree: &LayoutTree,
    node: u32,
    start: u64,
    mask: &Mask,
    expression: &BoundExpression,
    reads: &[SegmentRead],
) -> Result<Mask, ReaderError>
    requires known { node < length tree.now }
    requires readable { AreReadable tree.now }
    requires inside { start + length mask.now ≤ (tree_head tree.now node).rows }
    requires bound { IsBoundTo expression.now (tree_head tree.now node).dtype }
    requires bool { IsBool expression.now.dtype }
    requires ready { Begin (needed (subtree tree.now node) start mask.now) reads.now }
    ensures rows { IfOk result (λ kept. length kept ≡ length mask.now) }
    ensures kept { IfOk result (AreKeptBy reads.now (derivation (subtree tree.now node) all) (tree_head tree.now node).dtype expression.now.term start mask.now) }
    ensures cause { IfErr result (FilterFails reads.now (subtree tree.now node) (tree_head tree.now node).dtype expression.now.term start start mask.now) }
    ensures own { IfErr result IsOfBytes }
{
    // The contract of `rows_at` says that the rows are so few that their numbers fit.
    let _rows = rows_at(tree, node);
    let mut next = 0;
    mask_of(
        alloc, tree, node, start, start, mask, expression, reads, &mut next,
    )
}

/// The rows at which the expression is true, of the selected rows of a node, which are counted from `first` on. `next` is
/// the place of the first read that is theirs.
#[cycle(masks)]
fn mask_of(
    alloc: Global,
    tree: &LayoutTree,
    node: u32,
    start: u64,
    first: u64,
    mask: &Mask,
    expression: &BoundExpression,
    reads: &[SegmentRead],
    next: &mut usize,
) -> Result<Mask, ReaderError>
    requires known { node < length tree.now }
    requires readable { AreReadable tree.now }
    requires inside { start + length mask.now ≤ (tree_head tree.now node).rows }
    requires few { first + length mask.now < 2 ^ 64 }
    requires bound { IsBoundTo expression.now (tree_head tree.now node).dtype }
    requires bool { IsBool expression.now.dtype }
    requires ready { Begin (needed (subtree tree.now node) start mask.now) (drop next.old reads.now) }
    ensures rows { IfOk result (λ kept. length kept ≡ length mask.now) }
    ensures kept { IfOk result (AreKeptBy reads.now (derivation (subtree tree.now node) all) (tree_head tree.now node).dtype expression.now.term start mask.now) }
    ensures cause { IfErr result (FilterFails reads.now (subtree tree.now node) (tree_head tree.now node).dtype expression.now.term start first mask.now) }
    ensures own { IfErr result IsOfBytes }
    ensures passed { OnOk result (next.new ≡ next.old + length (needed (subtree tree.now node) start mask.now)) }
{
    match NodeParts::of(tree, node) {
        NodeParts::Leaf { segment, coding } => {
            if mask.len() == 0 {
                return Ok(mask.copy(alloc)?);
            }
            let bytes = take_bytes(reads, next);
            leaf_mask(
                alloc, tree, node, segment, coding, start, first, mask, expression, bytes,
            )
        }
        NodeParts::Chunks { chunks } => chunks_mask(
            alloc, tree, node, chunks, start, first, mask, expression, reads, next,
        ),
        NodeParts::Dict { codes, values } => dict_mask(
            alloc, tree, node, codes, values, start, first, mask, expression, reads, next,
        ),
        NodeParts::Zoned { content, .. } => mask_of(
            alloc, tree, content, start, first, mask, expression, reads, next,
        ),
        NodeParts::Struct { .. } => looked_mask(
            alloc, tree, node, start, first, mask, expression, reads, next,
        ),
    }
}

/// Of the selected rows of chunks, those of each behind those of the one before it.
#[cycle(masks)]
fn chunks_mask(
    alloc: Global,
    tree: &LayoutTree,
    node: u32,
    chunks: &[u32],
    start: u64,
    first: u64,
    mask: &Mask,
    expression: &BoundExpression,
    reads: &[SegmentRead],
    next: &mut usize,
) -> Result<Mask, ReaderError>
    requires known { node < length tree.now }
    requires readable { AreReadable tree.now }
    requires chunked { IsChunked tree.now node chunks.now }
    requires inside { start + length mask.now ≤ (tree_head tree.now node).rows }
    requires few { first + length mask.now < 2 ^ 64 }
    requires bound { IsBoundTo expression.now (tree_head tree.now node).dtype }
    requires bool { IsBool expression.now.dtype }
    requires ready { Begin (needed_in (trees_of tree.now chunks.now) start mask.now) (drop next.old reads.now) }
    ensures rows { IfOk result (λ kept. length kept ≡ length mask.now) }
    ensures kept { IfOk result (AreKeptBy reads.now (derivation_in (trees_of tree.now chunks.now) all) (tree_head tree.now node).dtype expression.now.term start mask.now) }
    ensures cause { IfErr result (ChunksFail reads.now (trees_of tree.now chunks.now) (tree_head tree.now node).dtype expression.now.term start first mask.now) }
    ensures own { IfErr result IsOfBytes }
    ensures passed { OnOk result (next.new ≡ next.old + length (needed_in (trees_of tree.now chunks.now) start mask.now)) }
{
    let mut kept = Mask::with_room(alloc, mask.len())?;
    let mut row = start;
    let mut done = 0;
    for chunk in chunks {
        let rows = rows_at(tree, *chunk);
        let here = rows_here(rows, row, done, mask.len());
        let end = here.end;
        match range_mask(
            alloc,
            tree,
            *chunk,
            row,
            first + done,
            mask,
            here,
            expression,
            reads,
            next,
        ) {
            Ok(more) => {
                let longer = kept.append(&more);
                drop(more);
                kept = longer?;
            }
            Err(error) => return Err(error),
        }
        done = end;
        row = row.saturating_sub(rows);
    }
    Ok(kept)
}

/// Of the rows of a node that a range of the mask selects, those at which the expression is true.
#[cycle(masks)]
fn range_mask(
    alloc: Global,
    tree: &LayoutTree,
    node: u32,
    start: u64,
    first: u64,
    mask: &Mask,
    range: Range<u64>,
    expression: &BoundExpression,
    reads: &[SegmentRead],
    next: &mut usize,
) -> Result<Mask, ReaderError>
    requires known { node < length tree.now }
    requires readable { AreReadable tree.now }
    requires forwards { range.start ≤ range.end }
    requires masked { range.end ≤ length mask.now }
    requires inside { range.start < range.end → start + (range.end - range.start) ≤ (tree_head tree.now node).rows }
    requires few { first + (range.end - range.start) < 2 ^ 64 }
    requires bound { IsBoundTo expression.now (tree_head tree.now node).dtype }
    requires bool { IsBool expression.now.dtype }
    requires ready { Begin (needed_of_range (subtree tree.now node) start (slice_range mask.now range.start range.end)) (drop next.old reads.now) }
    ensures rows { IfOk result (λ kept. length kept ≡ range.end - range.start) }
    ensures kept { IfOk result (AreKeptBy reads.now (derivation (subtree tree.now node) all) (tree_head tree.now node).dtype expression.now.term start (slice_range mask.now range.start range.end)) }
    ensures cause { IfErr result (RangeFails reads.now (subtree tree.now node) (tree_head tree.now node).dtype expression.now.term start first (slice_range mask.now range.start range.end)) }
    ensures own { IfErr result IsOfBytes }
    ensures passed { OnOk result (next.new ≡ next.old + length (needed_of_range (subtree tree.now node) start (slice_range mask.now range.start range.end))) }
{
    let some = mask.slice(alloc, range)?;
    if !selects_some(&some) {
        return Ok(some);
    }
    mask_of(
        alloc, tree, node, start, first, &some, expression, reads, next,
    )
}
