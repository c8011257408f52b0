//! Which segments the selected rows of a range need.

ghost use Rattle.std.specs.Prelude.{◌≡◌, ◌+◌, ◌-◌, ◌<◌, ◌≤◌, ◌++◌, length, slice_range, All, IfOk, OnOk, OnErr};
ghost use Rattle.vx_layout.specs.Shape.{IsLater};
ghost use Rattle.vx_layout.specs.Trees.{subtree};
ghost use Rattle.vx_reads.specs.Needed.{needed, needed_in, needed_of_each, needed_of_range, BeginsWith};
ghost use Rattle.vx_reads.specs.Readable.{trees_of, AreReadable, IsDict};

use crate::parts::{NodeParts, rows_at};
use std::alloc::{AllocError, Global};
use std::ops::Range;
use vx_base::Mask;
use vx_layout::LayoutTree;
use vx_picking::selects_some;

/// Adds the segments that the selected rows of a node need, from the first row of their range on. Where memory is
/// wanting, none is added.
pub fn add_needs(
    alloc: Global,
    tree: &LayoutTree,
    node: u32,
    start: u64,
    mask: &Mask,
    needs: &mut Vec<u32>,
) -> Result<(), AllocError>
    requires known { node < length tree.now }
    requires readable { AreReadable tree.now }
    ensures added { OnOk result (needs.new.items ≡ needs.old.items ++ needed (subtree tree.now node) start mask.now) }
    ensures unchanged { OnErr result (needs.new.items ≡ needs.old.items) }
{
    let before = needs.len();
    match add_node_needs(alloc, tree, node, start, mask, needs) {
        Ok(()) => Ok(()),
        Err(error) => {
            needs.truncate(before);
            Err(error)
        }
    }
}

/// Adds the segments that the selected rows of a node need. Where memory is wanting, some of them stay added.
#[cycle(needs)]
fn add_node_needs(
    alloc: Global,
    tree: &LayoutTree,
    node: u32,
    start: u64,
    mask: &Mask,
    needs: &mut Vec<u32>,
) -> Result<(), AllocError>
    requires known { node < length tree.now }
    requires readable { AreReadable tree.now }
    ensures added { IfOk result (λ _. needs.new.items ≡ needs.old.items ++ needed (subtree tree.now node) start mask.now) }
    ensures held { OnErr result (BeginsWith needs.old.items needs.new.items) }
{
    match NodeParts::of(tree, node) {
        NodeParts::Leaf { segment, coding: _ } => {
            if mask.len() != 0 {
                needs.push(segment)?;
            }
            Ok(())
        }
        NodeParts::Chunks { chunks } => add_chunk_needs(
            alloc, tree, chunks, node, start, mask, needs,
        ),
        NodeParts::Dict { codes, values } => add_dict_needs(
            alloc, tree, node, codes, values, start, mask, needs,
        ),
        NodeParts::Zoned { content, .. } => add_node_needs(
            alloc, tree, content, start, mask, needs,
        ),
        NodeParts::Struct { fields } => add_field_needs(
            alloc, tree, fields, node, start, mask, needs,
        ),
    }
}

/// Adds the segments that the selected rows of a dictionary need: those of its codes, and of all its values.
#[cycle(needs)]
fn add_dict_needs(
    alloc: Global,
    tree: &LayoutTree,
    node: u32,
    codes: u32,
    values: u32,
    start: u64,
    mask: &Mask,
    needs: &mut Vec<u32>,
) -> Result<(), AllocError>
    requires known { node < length tree.now }
    requires readable { AreReadable tree.now }
    requires dict { IsDict tree.now node codes values }
    ensures added { IfOk result (λ _. needs.new.items ≡ needs.old.items ++ needed (subtree tree.now node) start mask.now) }
    ensures held { OnErr result (BeginsWith needs.old.items needs.new.items) }
{
    if !selects_some(mask) {
        return Ok(());
    }
    add_node_needs(alloc, tree, codes, start, mask, needs)?;
    let all = Mask::new_true(alloc, rows_at(tree, values))?;
    add_node_needs(alloc, tree, values, 0, &all, needs)
}

/// Adds the segments that the selected rows of each field need.
#[cycle(needs)]
fn add_field_needs(
    alloc: Global,
    tree: &LayoutTree,
    fields: &[u32],
    node: u32,
    start: u64,
    mask: &Mask,
    needs: &mut Vec<u32>,
) -> Result<(), AllocError>
    requires known { node < length tree.now }
    requires readable { AreReadable tree.now }
    requires later { All (IsLater tree.now node) fields.now }
    ensures added { IfOk result (λ _. needs.new.items ≡ needs.old.items ++ needed_of_each (trees_of tree.now fields.now) start mask.now) }
    ensures held { OnErr result (BeginsWith needs.old.items needs.new.items) }
{
    for field in fields {
        add_node_needs(alloc, tree, *field, start, mask, needs)?;
    }
    Ok(())
}

/// The rows of a range that a chunk has: those before its end, which lies so many rows behind the first one.
pub fn rows_here(rows: u64, start: u64, done: u64, len: u64) -> Range<u64>
    requires { done ≤ len }
    ensures start { result.start ≡ done }
    ensures forwards { result.start ≤ result.end }
    ensures inside { result.end ≤ len }
    ensures end { result.end ≤ done + (rows - start) }
    ensures whole { result.end < len → result.end ≡ done + (rows - start) }
{
    let here = rows.saturating_sub(start).min(len - done);
    done..done + here
}

/// Adds the segments that the selected rows of each chunk need.
#[cycle(needs)]
fn add_chunk_needs(
    alloc: Global,
    tree: &LayoutTree,
    chunks: &[u32],
    node: u32,
    start: u64,
    mask: &Mask,
    needs: &mut Vec<u32>,
) -> Result<(), AllocError>
    requires known { node < length tree.now }
    requires readable { AreReadable tree.now }
    requires later { All (IsLater tree.now node) chunks.now }
    ensures added { IfOk result (λ _. needs.new.items ≡ needs.old.items ++ needed_in (trees_of tree.now chunks.now) start mask.now) }
    ensures held { OnErr result (BeginsWith needs.old.items needs.new.items) }
{
    let mut row = start;
    let mut done = 0;
    for chunk in chunks {
        let rows = rows_at(tree, *chunk);
        let here = rows_here(rows, row, done, mask.len());
        let end = here.end;
        add_range_needs(alloc, tree, *chunk, row, mask, here, needs)?;
        done = end;
        row = row.saturating_sub(rows);
    }
    Ok(())
}

/// Adds the segments that the selected rows of a range of the mask need, where there are any.
#[cycle(needs)]
fn add_range_needs(
    alloc: Global,
    tree: &LayoutTree,
    node: u32,
    start: u64,
    mask: &Mask,
    range: Range<u64>,
    needs: &mut Vec<u32>,
) -> Result<(), AllocError>
    requires known { node < length tree.now }
    requires readable { AreReadable tree.now }
    requires forwards { range.start ≤ range.end }
    requires masked { range.end ≤ length mask.now }
    ensures added { IfOk result (λ _. needs.new.items ≡ needs.old.items ++ needed_of_range (subtree tree.now node) start (slice_range mask.now range.start range.end)) }
    ensures held { OnErr result (BeginsWith needs.old.items needs.new.items) }
{
    if range.start == range.end {
        return Ok(());
    }
    let some = mask.slice(alloc, range)?;
    if !selects_some(&some) {
        return Ok(());
    }
    add_node_needs(alloc, tree, node, start, &some, needs)
}
