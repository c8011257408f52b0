//! Which segments the zones over the selected rows of a range need.

ghost use Rattle.std.specs.Prelude.{◌≡◌, ◌-◌, ◌<◌, ◌≤◌, ◌++◌, length, slice_range, All, IfOk};
ghost use Rattle.vx_layout.specs.Shape.{IsLater};
ghost use Rattle.vx_layout.specs.Trees.{subtree};
ghost use Rattle.vx_reads.specs.Readable.{trees_of, AreReadable};
ghost use Rattle.vx_readers.specs.ZonesNeeded.{zones_needed, zones_needed_in, zones_needed_of_range};

use std::alloc::{AllocError, Global};
use std::ops::Range;
use vx_base::Mask;
use vx_layout::LayoutTree;
use vx_picking::selects_some;
use vx_reads::parts::NodeParts;
use vx_reads::{add_needs, rows_at, rows_here};

/// Adds the segments that the zones over the selected rows of a node need, from the first row of their range on: those of
/// all rows of what is told of the zones.
#[cycle(zone_needs)]
pub(crate) fn add_zone_needs(
    alloc: Global,
    tree: &LayoutTree,
    node: u32,
    start: u64,
    mask: &Mask,
    needs: &mut Vec<u32>,
) -> Result<(), AllocError>
    requires known { node < length tree.now }
    requires readable { AreReadable tree.now }
    ensures { IfOk result (λ _. needs.new.items ≡ needs.old.items ++ zones_needed (subtree tree.now node) start mask.now) }
{
    match NodeParts::of(tree, node) {
        NodeParts::Leaf { .. } => Ok(()),
        NodeParts::Dict { .. } => Ok(()),
        NodeParts::Struct { .. } => Ok(()),
        NodeParts::Chunks { chunks } => add_chunk_zone_needs(
            alloc, tree, chunks, node, start, mask, needs,
        ),
        NodeParts::Zoned {
            content,
            zones,
            zone_len: _,
            stats: _,
        } => {
            if !selects_some(mask) {
                return Ok(());
            }
            let all = Mask::new_true(alloc, rows_at(tree, zones))?;
            add_needs(alloc, tree, zones, 0, &all, needs)?;
            add_zone_needs(alloc, tree, content, start, mask, needs)
        }
    }
}

/// Adds the segments that the zones over the selected rows of each chunk need.
#[cycle(zone_needs)]
fn add_chunk_zone_needs(
    alloc: Global,
    tree: &LayoutTree,
    chunks: &[u32],
    node: u32,
    start: u64,
    mask: &Mask,
    needs: &mut Vec<u32>,
) -> Result<(), AllocError>
    requires known { node < length tree.now }
    requires readable { AreReadable tree.now }
    requires later { All (IsLater tree.now node) chunks.now }
    ensures { IfOk result (λ _. needs.new.items ≡ needs.old.items ++ zones_needed_in (trees_of tree.now chunks.now) start mask.now) }
{
    let mut row = start;
    let mut done = 0;
    for chunk in chunks {
        let rows = rows_at(tree, *chunk);
        let here = rows_here(rows, row, done, mask.len());
        let end = here.end;
        add_range_zone_needs(alloc, tree, *chunk, row, mask, here, needs)?;
        done = end;
        row = row.saturating_sub(rows);
    }
    Ok(())
}

/// Adds the segments that the zones over the selected rows of a range of the mask need, where there are any.
#[cycle(zone_needs)]
fn add_range_zone_needs(
    alloc: Global,
    tree: &LayoutTree,
    node: u32,
    start: u64,
    mask: &Mask,
    range: Range<u64>,
    needs: &mut Vec<u32>,
) -> Result<(), AllocError>
    requires known { node < length tree.now }
    requires readable { AreReadable tree.now }
    requires forwards { range.start ≤ range.end }
    requires masked { range.end ≤ length mask.now }
    ensures { IfOk result (λ _. needs.new.items ≡ needs.old.items ++ zones_needed_of_range (subtree tree.now node) start (slice_range mask.now range.start range.end)) }
{
    if range.start == range.end {
        return Ok(());
    }
    let some = mask.slice(alloc, range)?;
    if !selects_some(&some) {
        return Ok(());
    }
    add_zone_needs(alloc, tree, node, start, &some, needs)
}
