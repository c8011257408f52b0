//! The rows of a mask over a node that lie in no pruned zone, from the bytes of the segments that zones need.

ghost use Rattle.std.specs.Prelude.{◌≡◌, ◌+◌, ◌-◌, ◌<◌, ◌≤◌, ◌^◌, ℕ, false, length, drop, replicate, slice_range, true, IfErr, IfOk, OnOk};
ghost use Rattle.vx_expr.specs.Bound.{IsBoundTo};
ghost use Rattle.vx_layout.specs.Trees.{subtree};
ghost use Rattle.vx_picking.specs.Rows.{selects_some};
ghost use Rattle.vx_reads.specs.Came.{Begin};
ghost use Rattle.vx_reads.specs.Errors.{IsNotOfExpression, IsOfBytes};
ghost use Rattle.vx_reads.specs.Needed.{needed};
ghost use Rattle.vx_reads.specs.Readable.{tree_head, trees_of, AreReadable, IsChunked, IsZonedNode};
ghost use Rattle.vx_readers.specs.Unpruned.{AreUnprunedBy, PruningFails};
ghost use Rattle.vx_readers.specs.ZoneTables.{ArePrunedBy, TableFailsBy};
ghost use Rattle.vx_readers.specs.ZonesNeeded.{zones_needed, zones_needed_in, zones_needed_of_range};
ghost use Rattle.vx_readers.specs.ZonesOver.{zone_at, zone_over, zones_over, zones_over_in};
ghost use Rattle.vx_rows.specs.Zones.{zones_of};

use crate::zone_rows::zone_rows;
use std::alloc::Global;
use std::ops::Range;
use vx_base::Mask;
use vx_expr::Statistics;
use vx_layout::LayoutTree;
use vx_picking::selects_some;
use vx_reads::parts::NodeParts;
use vx_reads::{ReaderError, SegmentRead, column_of, dtype_at, rows_at, rows_here};
use vx_zones::{ZoneError, ZoneProof, ZoneTable};

/// The rows of a mask over a node that lie in no zone that the proof's predicate prunes, whatever the bound. All reads that
/// they need came.
pub(crate) fn unpruned_rows(
    alloc: Global,
    tree: &LayoutTree,
    node: u32,
    start: u64,
    mask: &Mask,
    proof: &ZoneProof,
    reads: &[SegmentRead],
) -> Result<Mask, ReaderError>
    requires known { node < length tree.now }
    requires readable { AreReadable tree.now }
    requires inside { start + length mask.now ≤ (tree_head tree.now node).rows }
    requires bound { IsBoundTo proof.now (tree_head tree.now node).dtype }
    requires ready { Begin (zones_needed (subtree tree.now node) start mask.now) reads.now }
    ensures rows { IfOk result (λ kept. length kept ≡ length mask.now) }
    ensures kept { IfOk result (AreUnprunedBy reads.now (zones_over (subtree tree.now node)) proof.now.term start mask.now) }
    ensures cause { IfErr result (PruningFails reads.now (zones_over (subtree tree.now node)) start mask.now) }
    ensures own { IfErr result IsOfBytes }
    ensures no_expression { IfErr result IsNotOfExpression }
{
    let mut next = 0;
    unpruned_of(alloc, tree, node, start, mask, proof, reads, &mut next)
}

/// The zones of a node that the proof's predicate prunes. `next` is the place of the first read of what is told of them.
fn pruned_zones(
    alloc: Global,
    tree: &LayoutTree,
    node: u32,
    content: u32,
    zones: u32,
    zone_len: u64,
    stats: &Statistics,
    proof: &ZoneProof,
    reads: &[SegmentRead],
    next: &mut usize,
) -> Result<Mask, ReaderError>
    requires known { node < length tree.now }
    requires readable { AreReadable tree.now }
    requires zoned { IsZonedNode tree.now node content zones zone_len stats.now }
    requires some { 0 < zone_len }
    requires bound { IsBoundTo proof.now (tree_head tree.now node).dtype }
    requires ready { Begin (needed (subtree tree.now zones) 0 (replicate (tree_head tree.now zones).rows true)) (drop next.old reads.now) }
    ensures rows { IfOk result (λ pruned. length pruned ≡ (tree_head tree.now zones).rows) }
    ensures pruned { IfOk result (ArePrunedBy reads.now proof.now.term (zone_at (tree_head tree.now node) (zones_of false zone_len stats.now) (subtree tree.now zones)) 0 (tree_head tree.now zones).rows) }
    ensures cause { IfErr result (TableFailsBy reads.now (subtree tree.now zones)) }
    ensures own { IfErr result IsOfBytes }
    ensures no_expression { IfErr result IsNotOfExpression }
    ensures passed { OnOk result (next.new ≡ next.old + length (needed (subtree tree.now zones) 0 (replicate (tree_head tree.now zones).rows true))) }
{
    let all = Mask::new_true(alloc, rows_at(tree, zones))?;
    let made = column_of(alloc, tree, zones, 0, &all, reads, next);
    drop(all);
    match made {
        Ok(told) => match ZoneTable::try_new(
            alloc,
            dtype_at(tree, node),
            stats,
            told,
            zone_len,
            rows_at(tree, node),
        ) {
            Ok(table) => {
                let pruned = table.prune(alloc, proof, u64::MAX);
                drop(table);
                Ok(pruned?)
            }
            Err(ZoneError::BadZones) => unreachable!(),
            Err(ZoneError::Memory) => Err(ReaderError::Memory),
        },
        Err(error) => Err(error),
    }
}

/// For each of so many rows of a node, whether its zone is pruned.
fn pruned_rows(
    alloc: Global,
    tree: &LayoutTree,
    node: u32,
    content: u32,
    zones: u32,
    zone_len: u64,
    stats: &Statistics,
    start: u64,
    count: u64,
    proof: &ZoneProof,
    reads: &[SegmentRead],
    next: &mut usize,
) -> Result<Mask, ReaderError>
    requires known { node < length tree.now }
    requires readable { AreReadable tree.now }
    requires zoned { IsZonedNode tree.now node content zones zone_len stats.now }
    requires some { 0 < zone_len }
    requires inside { start + count ≤ (tree_head tree.now node).rows }
    requires bound { IsBoundTo proof.now (tree_head tree.now node).dtype }
    requires ready { Begin (needed (subtree tree.now zones) 0 (replicate (tree_head tree.now zones).rows true)) (drop next.old reads.now) }
    ensures rows { IfOk result (λ rows. length rows ≡ count) }
    ensures pruned { IfOk result (ArePrunedBy reads.now proof.now.term (zone_over (tree_head tree.now node) (zones_of false zone_len stats.now) (subtree tree.now zones)) start count) }
    ensures cause { IfErr result (TableFailsBy reads.now (subtree tree.now zones)) }
    ensures own { IfErr result IsOfBytes }
    ensures no_expression { IfErr result IsNotOfExpression }
    ensures passed { OnOk result (next.new ≡ next.old + length (needed (subtree tree.now zones) 0 (replicate (tree_head tree.now zones).rows true))) }
{
    // The contract of `rows_at` says that the rows are so few that their numbers fit.
    let _rows = rows_at(tree, node);
    match pruned_zones(
        alloc, tree, node, content, zones, zone_len, stats, proof, reads, next,
    ) {
        Ok(pruned) => {
            let rows = zone_rows(alloc, &pruned, zone_len, start, count);
            drop(pruned);
            Ok(rows?)
        }
        Err(error) => Err(error),
    }
}

/// The rows of a mask over a node that lie in no pruned zone. `next` is the place of the first read that is theirs.
#[cycle(zone_masks)]
fn unpruned_of(
    alloc: Global,
    tree: &LayoutTree,
    node: u32,
    start: u64,
    mask: &Mask,
    proof: &ZoneProof,
    reads: &[SegmentRead],
    next: &mut usize,
) -> Result<Mask, ReaderError>
    requires known { node < length tree.now }
    requires readable { AreReadable tree.now }
    requires inside { start + length mask.now ≤ (tree_head tree.now node).rows }
    requires bound { IsBoundTo proof.now (tree_head tree.now node).dtype }
    requires ready { Begin (zones_needed (subtree tree.now node) start mask.now) (drop next.old reads.now) }
    ensures rows { IfOk result (λ kept. length kept ≡ length mask.now) }
    ensures kept { IfOk result (AreUnprunedBy reads.now (zones_over (subtree tree.now node)) proof.now.term start mask.now) }
    ensures cause { IfErr result (PruningFails reads.now (zones_over (subtree tree.now node)) start mask.now) }
    ensures own { IfErr result IsOfBytes }
    ensures no_expression { IfErr result IsNotOfExpression }
    ensures passed { OnOk result (next.new ≡ next.old + length (zones_needed (subtree tree.now node) start mask.now)) }
{
    match NodeParts::of(tree, node) {
        NodeParts::Leaf { .. } => Ok(mask.copy(alloc)?),
        NodeParts::Dict { .. } => Ok(mask.copy(alloc)?),
        NodeParts::Struct { .. } => Ok(mask.copy(alloc)?),
        NodeParts::Chunks { chunks } => {
            unpruned_of_chunks(alloc, tree, node, chunks, start, mask, proof, reads, next)
        }
        NodeParts::Zoned {
            content,
            zones,
            zone_len,
            stats,
        } => unpruned_of_zoned(
            alloc, tree, node, content, zones, zone_len, stats, start, mask, proof, reads, next,
        ),
    }
}

/// The rows of a mask over data that has zones: those that lie in no pruned zone inside the data either.
#[cycle(zone_masks)]
fn unpruned_of_zoned(
    alloc: Global,
    tree: &LayoutTree,
    node: u32,
    content: u32,
    zones: u32,
    zone_len: u64,
    stats: &Statistics,
    start: u64,
    mask: &Mask,
    proof: &ZoneProof,
    reads: &[SegmentRead],
    next: &mut usize,
) -> Result<Mask, ReaderError>
    requires known { node < length tree.now }
    requires readable { AreReadable tree.now }
    requires zoned { IsZonedNode tree.now node content zones zone_len stats.now }
    requires some { 0 < zone_len }
    requires inside { start + length mask.now ≤ (tree_head tree.now node).rows }
    requires bound { IsBoundTo proof.now (tree_head tree.now node).dtype }
    requires ready { Begin (zones_needed (subtree tree.now node) start mask.now) (drop next.old reads.now) }
    ensures rows { IfOk result (λ kept. length kept ≡ length mask.now) }
    ensures kept { IfOk result (AreUnprunedBy reads.now (zones_over (subtree tree.now node)) proof.now.term start mask.now) }
    ensures cause { IfErr result (PruningFails reads.now (zones_over (subtree tree.now node)) start mask.now) }
    ensures own { IfErr result IsOfBytes }
    ensures no_expression { IfErr result IsNotOfExpression }
    ensures passed { OnOk result (next.new ≡ next.old + length (zones_needed (subtree tree.now node) start mask.now)) }
{
    if !selects_some(mask) {
        return Ok(mask.copy(alloc)?);
    }
    match pruned_rows(
        alloc,
        tree,
        node,
        content,
        zones,
        zone_len,
        stats,
        start,
        mask.len(),
        proof,
        reads,
        next,
    ) {
        Ok(pruned) => match unpruned_of(alloc, tree, content, start, mask, proof, reads, next) {
            Ok(inside) => {
                let kept = inside.without(alloc, &pruned);
                drop(inside);
                drop(pruned);
                Ok(kept?)
            }
            Err(error) => {
                drop(pruned);
                Err(error)
            }
        },
        Err(error) => Err(error),
    }
}

/// The rows of a mask over chunks, those of each behind those of the one before it.
#[cycle(zone_masks)]
fn unpruned_of_chunks(
    alloc: Global,
    tree: &LayoutTree,
    node: u32,
    chunks: &[u32],
    start: u64,
    mask: &Mask,
    proof: &ZoneProof,
    reads: &[SegmentRead],
    next: &mut usize,
) -> Result<Mask, ReaderError>
    requires known { node < length tree.now }
    requires readable { AreReadable tree.now }
    requires chunked { IsChunked tree.now node chunks.now }
    requires inside { start + length mask.now ≤ (tree_head tree.now node).rows }
    requires bound { IsBoundTo proof.now (tree_head tree.now node).dtype }
    requires ready { Begin (zones_needed_in (trees_of tree.now chunks.now) start mask.now) (drop next.old reads.now) }
    ensures rows { IfOk result (λ kept. length kept ≡ length mask.now) }
    ensures kept { IfOk result (AreUnprunedBy reads.now (zones_over_in (trees_of tree.now chunks.now)) proof.now.term start mask.now) }
    ensures cause { IfErr result (PruningFails reads.now (zones_over_in (trees_of tree.now chunks.now)) start mask.now) }
    ensures own { IfErr result IsOfBytes }
    ensures no_expression { IfErr result IsNotOfExpression }
    ensures passed { OnOk result (next.new ≡ next.old + length (zones_needed_in (trees_of tree.now chunks.now) start mask.now)) }
{
    let mut kept = Mask::with_room(alloc, mask.len())?;
    let mut row = start;
    let mut done = 0;
    for chunk in chunks {
        let rows = rows_at(tree, *chunk);
        let here = rows_here(rows, row, done, mask.len());
        let end = here.end;
        match unpruned_of_range(alloc, tree, *chunk, row, mask, here, proof, reads, next) {
            Ok(more) => {
                let longer = kept.append(&more);
                drop(more);
                kept = longer?;
            }
            Err(error) => return Err(error),
        }
        done = end;
        row = row.saturating_sub(rows);
    }
    Ok(kept)
}

/// Of the rows of a node that a range of the mask selects, those that lie in no pruned zone.
#[cycle(zone_masks)]
fn unpruned_of_range(
    alloc: Global,
    tree: &LayoutTree,
    node: u32,
    start: u64,
    mask: &Mask,
    range: Range<u64>,
    proof: &ZoneProof,
    reads: &[SegmentRead],
    next: &mut usize,
) -> Result<Mask, ReaderError>
    requires known { node < length tree.now }
    requires readable { AreReadable tree.now }
    requires forwards { range.start ≤ range.end }
    requires masked { range.end ≤ length mask.now }
    requires inside { range.start < range.end → start + (range.end - range.start) ≤ (tree_head tree.now node).rows }
    requires bound { IsBoundTo proof.now (tree_head tree.now node).dtype }
    requires ready { Begin (zones_needed_of_range (subtree tree.now node) start (slice_range mask.now range.start range.end)) (drop next.old reads.now) }
    ensures rows { IfOk result (λ kept. length kept ≡ range.end - range.start) }
    ensures kept { IfOk result (AreUnprunedBy reads.now (zones_over (subtree tree.now node)) proof.now.term start (slice_range mask.now range.start range.end)) }
    ensures cause { IfErr result (PruningFails reads.now (zones_over (subtree tree.now node)) start (slice_range mask.now range.start range.end)) }
    ensures own { IfErr result IsOfBytes }
    ensures no_expression { IfErr result IsNotOfExpression }
    ensures passed { OnOk result (next.new ≡ next.old + length (zones_needed_of_range (subtree tree.now node) start (slice_range mask.now range.start range.end))) }
{
    let some = mask.slice(alloc, range)?;
    if !selects_some(&some) {
        return Ok(some);
    }
    unpruned_of(alloc, tree, node, start, &some, proof, reads, next)
}
