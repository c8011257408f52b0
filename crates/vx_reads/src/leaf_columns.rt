//! The column of the selected rows of a leaf, from the bytes of its segment.

ghost use Rattle.std.specs.Prelude.{◌≡◌, ◌+◌, ◌<◌, ◌≤◌, Some, length, drop, true, All, IfErr, IfOk, IsSome, IsTrue};
ghost use Rattle.vx_base.specs.Masks.{true_count};
ghost use Rattle.vx_reads.specs.Came.{first_bytes};
ghost use Rattle.vx_reads.specs.Computed.{IsLeafBy, IsLeafFault};
ghost use Rattle.vx_reads.specs.Errors.{IsNotOfExpression, IsOfBytes};
ghost use Rattle.vx_reads.specs.Readable.{tree_head, IsLeafNode};

use crate::errors::ReaderError;
use crate::parts::{dtype_at, empty_at, rows_at};
use crate::reads::{ReadState, SegmentRead};
use std::alloc::Global;
use vx_base::{Coding, Column, DecodeError, Mask, decode_as, decode_chosen};
use vx_layout::LayoutTree;
use vx_picking::selects_some;

/// The bytes of the next read, which came.
pub(crate) fn take_bytes<'a>(reads: &'a [SegmentRead], next: &mut usize) -> &'a [u8]
    requires { IsSome (first_bytes (drop next.old reads.now)) }
    ensures bytes { first_bytes (drop next.old reads.now) ≡ Some result.now }
    ensures passed { next.new ≡ next.old + 1 }
{
    let place = *next;
    match &reads[place].state {
        ReadState::Came(bytes) => {
            *next = place + 1;
            bytes.as_slice()
        }
        _ => unreachable!(),
    }
}

/// Whether each row of the node is selected.
fn selects_all(tree: &LayoutTree, node: u32, mask: &Mask) -> bool
    requires { node < length tree.now }
    ensures rows { IsTrue result → length mask.now ≡ (tree_head tree.now node).rows }
    ensures all { IsTrue result → All (λ bit. bit ≡ true) mask.now }
{
    mask.len() == rows_at(tree, node) && mask.all_true()
}

/// All rows of a leaf, whose segment has these bytes: each of them is selected.
fn whole_leaf(
    alloc: Global,
    tree: &LayoutTree,
    node: u32,
    segment: u32,
    coding: Coding,
    start: u64,
    mask: &Mask,
    bytes: &[u8],
) -> Result<Column, ReaderError>
    requires known { node < length tree.now }
    requires leaf { IsLeafNode tree.now node segment coding }
    requires inside { start + length mask.now ≤ (tree_head tree.now node).rows }
    requires some { 0 < length mask.now }
    requires rows { length mask.now ≡ (tree_head tree.now node).rows }
    requires all { All (λ bit. bit ≡ true) mask.now }
    ensures dtype { IfOk result (λ column. column.dtype ≡ (tree_head tree.now node).dtype) }
    ensures rows { IfOk result (λ column. length column.values ≡ true_count mask.now) }
    ensures values { IfOk result (λ column. IsLeafBy (tree_head tree.now node) segment coding bytes.now start mask.now column.values) }
    ensures cause { IfErr result (IsLeafFault (tree_head tree.now node) segment coding bytes.now start (length mask.now)) }
    ensures own { IfErr result IsOfBytes }
    ensures no_expression { IfErr result IsNotOfExpression }
{
    let rows = rows_at(tree, node);
    match decode_as(alloc, dtype_at(tree, node), coding, rows, bytes) {
        Ok(column) => Ok(column),
        Err(DecodeError::BadSegment) => Err(ReaderError::BadSegment(segment)),
        Err(DecodeError::Memory) => Err(ReaderError::Memory),
    }
}

/// The selected rows of a leaf, whose segment has these bytes. The others aren't built.
fn chosen_leaf(
    alloc: Global,
    tree: &LayoutTree,
    node: u32,
    segment: u32,
    coding: Coding,
    start: u64,
    mask: &Mask,
    bytes: &[u8],
) -> Result<Column, ReaderError>
    requires known { node < length tree.now }
    requires leaf { IsLeafNode tree.now node segment coding }
    requires inside { start + length mask.now ≤ (tree_head tree.now node).rows }
    requires some { 0 < length mask.now }
    ensures dtype { IfOk result (λ column. column.dtype ≡ (tree_head tree.now node).dtype) }
    ensures rows { IfOk result (λ column. length column.values ≡ true_count mask.now) }
    ensures values { IfOk result (λ column. IsLeafBy (tree_head tree.now node) segment coding bytes.now start mask.now column.values) }
    ensures cause { IfErr result (IsLeafFault (tree_head tree.now node) segment coding bytes.now start (length mask.now)) }
    ensures own { IfErr result IsOfBytes }
    ensures no_expression { IfErr result IsNotOfExpression }
{
    let rows = rows_at(tree, node);
    let end = start + mask.len();
    let dtype = dtype_at(tree, node);
    match decode_chosen(alloc, dtype, coding, rows, start..end, mask, bytes) {
        Ok(column) => Ok(column),
        Err(DecodeError::BadSegment) => Err(ReaderError::BadSegment(segment)),
        Err(DecodeError::Memory) => Err(ReaderError::Memory),
    }
}

/// The selected rows of a leaf, whose segment has these bytes. Where these are all of its rows none is copied.
pub(crate) fn leaf_column(
    alloc: Global,
    tree: &LayoutTree,
    node: u32,
    segment: u32,
    coding: Coding,
    start: u64,
    mask: &Mask,
    bytes: &[u8],
) -> Result<Column, ReaderError>
    requires known { node < length tree.now }
    requires leaf { IsLeafNode tree.now node segment coding }
    requires inside { start + length mask.now ≤ (tree_head tree.now node).rows }
    requires some { 0 < length mask.now }
    ensures dtype { IfOk result (λ column. column.dtype ≡ (tree_head tree.now node).dtype) }
    ensures rows { IfOk result (λ column. length column.values ≡ true_count mask.now) }
    ensures values { IfOk result (λ column. IsLeafBy (tree_head tree.now node) segment coding bytes.now start mask.now column.values) }
    ensures cause { IfErr result (IsLeafFault (tree_head tree.now node) segment coding bytes.now start (length mask.now)) }
    ensures own { IfErr result IsOfBytes }
    ensures no_expression { IfErr result IsNotOfExpression }
{
    if !selects_some(mask) {
        return Ok(empty_at(alloc, tree, node)?);
    }
    if selects_all(tree, node, mask) {
        whole_leaf(alloc, tree, node, segment, coding, start, mask, bytes)
    } else {
        chosen_leaf(alloc, tree, node, segment, coding, start, mask, bytes)
    }
}
