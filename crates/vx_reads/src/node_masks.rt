//! The rows of a mask over one node at which an expression is true: over a leaf, over a dictionary, and over any node whose
//! column is made first.

ghost use Rattle.std.specs.Prelude.{◌≡◌, ◌+◌, ◌<◌, ◌≤◌, ◌^◌, ℕ, true, length, drop, IfErr, IfOk, OnOk};
ghost use Rattle.vx_base.specs.ColumnCalls.{nullable_where, IsBool};
ghost use Rattle.vx_base.specs.declared.dtypes.Nullability.{Nullability};
ghost use Rattle.vx_base.specs.Views.{data_type};
ghost use Rattle.vx_expr.specs.Bound.{IsBoundTo};
ghost use Rattle.vx_expr.specs.Meaning.{is_strict};
ghost use Rattle.vx_layout.specs.Kept.{all};
ghost use Rattle.vx_layout.specs.Rows.{derivation};
ghost use Rattle.vx_layout.specs.Trees.{subtree};
ghost use Rattle.vx_picking.specs.Rows.{selects_some};
ghost use Rattle.vx_reads.specs.Came.{Begin};
ghost use Rattle.vx_reads.specs.Errors.{IsOfBytes};
ghost use Rattle.vx_reads.specs.MaskRows.{AreKeptBy, FilterFails, IsLeafFilterFault, IsLeafKept, RowsFail};
ghost use Rattle.vx_reads.specs.Needed.{needed};
ghost use Rattle.vx_reads.specs.Readable.{tree_head, AreReadable, IsDict, IsLeafNode};

use crate::columns::{DictParts, column_of, dict_parts};
use crate::errors::ReaderError;
use crate::faults::apply_fault;
use crate::filters::{filter_column, pushed_filter};
use crate::parts::{dtype_at, rows_at};
use crate::reads::SegmentRead;
use std::alloc::{AllocError, Global};
use vx_base::{Coding, Column, ColumnParts, DType, DecodeError, Mask, decode_rows};
use vx_expr::BoundExpression;
use vx_layout::LayoutTree;
use vx_picking::{selects_some, worked_out};

/// The rows at which the expression is true, of the selected rows of a leaf whose segment has these bytes.
pub(crate) fn leaf_mask(
    alloc: Global,
    tree: &LayoutTree,
    node: u32,
    segment: u32,
    coding: Coding,
    start: u64,
    first: u64,
    mask: &Mask,
    expression: &BoundExpression,
    bytes: &[u8],
) -> Result<Mask, ReaderError>
    requires known { node < length tree.now }
    requires leaf { IsLeafNode tree.now node segment coding }
    requires inside { start + length mask.now ≤ (tree_head tree.now node).rows }
    requires few { first + length mask.now < 2 ^ 64 }
    requires some { 0 < length mask.now }
    requires bound { IsBoundTo expression.now (tree_head tree.now node).dtype }
    requires bool { IsBool expression.now.dtype }
    ensures rows { IfOk result (λ kept. length kept ≡ length mask.now) }
    ensures kept { IfOk result (IsLeafKept (tree_head tree.now node) segment coding bytes.now expression.now.term start mask.now) }
    ensures cause { IfErr result (IsLeafFilterFault (tree_head tree.now node) segment coding bytes.now expression.now.term start first mask.now) }
    ensures own { IfErr result IsOfBytes }
{
    if !selects_some(mask) {
        return Ok(mask.copy(alloc)?);
    }
    let rows = rows_at(tree, node);
    let end = start + mask.len();
    let leaf = dtype_at(tree, node);
    match decode_rows(alloc, leaf, coding, rows, start..end, bytes) {
        Ok(column) => {
            let kept = filter_column(alloc, expression, &column, 0, first, mask);
            drop(column);
            kept
        }
        Err(DecodeError::BadSegment) => Err(ReaderError::BadSegment(segment)),
        Err(DecodeError::Memory) => Err(ReaderError::Memory),
    }
}

/// Of the selected rows of a node those at which the expression is true, worked out over their column.
pub(crate) fn looked_mask(
    alloc: Global,
    tree: &LayoutTree,
    node: u32,
    start: u64,
    first: u64,
    mask: &Mask,
    expression: &BoundExpression,
    reads: &[SegmentRead],
    next: &mut usize,
) -> Result<Mask, ReaderError>
    requires known { node < length tree.now }
    requires readable { AreReadable tree.now }
    requires inside { start + length mask.now ≤ (tree_head tree.now node).rows }
    requires few { first + length mask.now < 2 ^ 64 }
    requires bound { IsBoundTo expression.now (tree_head tree.now node).dtype }
    requires bool { IsBool expression.now.dtype }
    requires ready { Begin (needed (subtree tree.now node) start mask.now) (drop next.old reads.now) }
    ensures rows { IfOk result (λ kept. length kept ≡ length mask.now) }
    ensures kept { IfOk result (AreKeptBy reads.now (derivation (subtree tree.now node) all) (tree_head tree.now node).dtype expression.now.term start mask.now) }
    ensures cause { IfErr result (RowsFail reads.now (derivation (subtree tree.now node) all) (tree_head tree.now node).dtype expression.now.term start first mask.now) }
    ensures own { IfErr result IsOfBytes }
    ensures passed { OnOk result (next.new ≡ next.old + length (needed (subtree tree.now node) start mask.now)) }
{
    match column_of(alloc, tree, node, start, mask, reads, next) {
        Ok(root) => {
            let made = worked_out(alloc, expression, &root, first, mask);
            drop(root);
            match made {
                Ok(worth) => {
                    let truths = worth.truth(alloc);
                    drop(worth);
                    let truths = truths?;
                    Ok(mask.intersect_by_rank(alloc, &truths)?)
                }
                Err(error) => Err(apply_fault(error)),
            }
        }
        Err(error) => Err(error),
    }
}

/// The same values in the dtype of their dictionary, which takes nulls also where they don't.
fn in_dtype(alloc: Global, column: Column, dtype: &DType) -> Result<Column, AllocError>
    requires { (n : Nullability) × (data_type dtype.now ≡ nullable_where n column.dtype) }
    ensures dtype { IfOk result (λ made. made.dtype ≡ data_type dtype.now) }
    ensures values { IfOk result (λ made. made.values ≡ column.values) }
{
    if column.dtype().same(dtype) {
        return Ok(column);
    }
    let made = copied_in(alloc, &column, dtype);
    drop(column);
    made
}

/// A copy of the values in such a dtype. Runs are spread.
fn copied_in(alloc: Global, column: &Column, dtype: &DType) -> Result<Column, AllocError>
    requires { (n : Nullability) × (data_type dtype.now ≡ nullable_where n column.now.dtype) }
    ensures dtype { IfOk result (λ made. made.dtype ≡ data_type dtype.now) }
    ensures values { IfOk result (λ made. made.values ≡ column.now.values) }
{
    match column.parts() {
        ColumnParts::Packed(array) => {
            let rows = array.slice(alloc, 0..array.len())?;
            match dtype.copy(alloc) {
                Ok(dtype) => Ok(Column::of_array(dtype, rows)),
                Err(error) => {
                    drop(rows);
                    Err(error)
                }
            }
        }
        ColumnParts::Runs(_, _) => {
            let values = column.to_values(alloc)?;
            match dtype.copy(alloc) {
                Ok(dtype) => Column::of_fitting(alloc, dtype, values),
                Err(error) => {
                    drop(values);
                    Err(error)
                }
            }
        }
    }
}

/// Of the selected rows of a dictionary, of which there is one, those at which a strict expression is true: it is worked
/// out over the values, and its truth looked up.
fn pushed_mask(
    alloc: Global,
    tree: &LayoutTree,
    node: u32,
    codes: u32,
    values: u32,
    start: u64,
    mask: &Mask,
    expression: &BoundExpression,
    reads: &[SegmentRead],
    next: &mut usize,
) -> Result<Mask, ReaderError>
    requires known { node < length tree.now }
    requires readable { AreReadable tree.now }
    requires dict { IsDict tree.now node codes values }
    requires inside { start + length mask.now ≤ (tree_head tree.now node).rows }
    requires some { selects_some mask.now ≡ true }
    requires bound { IsBoundTo expression.now (tree_head tree.now node).dtype }
    requires bool { IsBool expression.now.dtype }
    requires strict { is_strict expression.now.term ≡ true }
    requires ready { Begin (needed (subtree tree.now node) start mask.now) (drop next.old reads.now) }
    ensures rows { IfOk result (λ kept. length kept ≡ length mask.now) }
    ensures kept { IfOk result (AreKeptBy reads.now (derivation (subtree tree.now node) all) (tree_head tree.now node).dtype expression.now.term start mask.now) }
    ensures cause { (first : ℕ) → IfErr result (FilterFails reads.now (subtree tree.now node) (tree_head tree.now node).dtype expression.now.term start first mask.now) }
    ensures own { IfErr result IsOfBytes }
    ensures passed { OnOk result (next.new ≡ next.old + length (needed (subtree tree.now node) start mask.now)) }
{
    // The contract of `rows_at` says that the rows are so few that their numbers fit.
    let _rows = rows_at(tree, node);
    match dict_parts(alloc, tree, node, codes, values, start, mask, reads, next) {
        Ok(parts) => {
            let DictParts { codes, values } = parts;
            match in_dtype(alloc, values, dtype_at(tree, node)) {
                Ok(values) => {
                    let kept = pushed_filter(alloc, expression, node, &codes, &values, start, mask);
                    drop(values);
                    drop(codes);
                    kept
                }
                Err(_) => {
                    drop(codes);
                    Err(ReaderError::Memory)
                }
            }
        }
        Err(error) => Err(error),
    }
}

/// Of the selected rows of a dictionary those at which the expression is true. A strict one is worked out over the values,
/// any other over the values that are looked up.
pub(crate) fn dict_mask(
    alloc: Global,
    tree: &LayoutTree,
    node: u32,
    codes: u32,
    values: u32,
    start: u64,
    first: u64,
    mask: &Mask,
    expression: &BoundExpression,
    reads: &[SegmentRead],
    next: &mut usize,
) -> Result<Mask, ReaderError>
    requires known { node < length tree.now }
    requires readable { AreReadable tree.now }
    requires dict { IsDict tree.now node codes values }
    requires inside { start + length mask.now ≤ (tree_head tree.now node).rows }
    requires few { first + length mask.now < 2 ^ 64 }
    requires bound { IsBoundTo expression.now (tree_head tree.now node).dtype }
    requires bool { IsBool expression.now.dtype }
    requires ready { Begin (needed (subtree tree.now node) start mask.now) (drop next.old reads.now) }
    ensures rows { IfOk result (λ kept. length kept ≡ length mask.now) }
    ensures kept { IfOk result (AreKeptBy reads.now (derivation (subtree tree.now node) all) (tree_head tree.now node).dtype expression.now.term start mask.now) }
    ensures cause { IfErr result (FilterFails reads.now (subtree tree.now node) (tree_head tree.now node).dtype expression.now.term start first mask.now) }
    ensures own { IfErr result IsOfBytes }
    ensures passed { OnOk result (next.new ≡ next.old + length (needed (subtree tree.now node) start mask.now)) }
{
    if !selects_some(mask) {
        return Ok(mask.copy(alloc)?);
    }
    if expression.is_strict() {
        pushed_mask(
            alloc, tree, node, codes, values, start, mask, expression, reads, next,
        )
    } else {
        looked_mask(
            alloc, tree, node, start, first, mask, expression, reads, next,
        )
    }
}
