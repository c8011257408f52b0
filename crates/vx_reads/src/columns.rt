//! The column of the selected rows of a node, from the bytes of the segments that they need.

ghost use Rattle.std.specs.Prelude.{◌≡◌, ◌+◌, ◌-◌, ◌<◌, ◌≤◌, length, drop, replicate, slice_range, true, IfErr, IfOk, OnErr, OnOk};
ghost use Rattle.vx_base.specs.Masks.{true_count};
ghost use Rattle.vx_layout.specs.Kept.{all};
ghost use Rattle.vx_layout.specs.Rows.{derivation, derivation_in};
ghost use Rattle.vx_layout.specs.Trees.{subtree};
ghost use Rattle.vx_reads.specs.Computed.{AddsRows, AreRowsBy, Fails};
ghost use Rattle.vx_reads.specs.Came.{Begin};
ghost use Rattle.vx_reads.specs.Fielded.{AreColumnsBy};
ghost use Rattle.vx_reads.specs.Needed.{needed, needed_in, needed_of_each, needed_of_range};
ghost use Rattle.vx_reads.specs.Readable.{tree_head, trees_of, AreReadable, IsChunked, IsDict, IsStructNode};
ghost use Rattle.vx_reads.specs.Errors.{IsNotOfExpression, IsOfBytes};
ghost use Rattle.vx_picking.specs.Rows.{selects_some};

use crate::errors::ReaderError;
use crate::faults::look_up_fault;
use crate::leaf_columns::{leaf_column, take_bytes};
use crate::needs::rows_here;
use crate::parts::{NodeParts, dtype_at, empty_at, rows_at};
use crate::reads::SegmentRead;
use crate::structs::structs;
use std::alloc::Global;
use std::ops::Range;
use vx_base::{Column, Mask};
use vx_layout::LayoutTree;
use vx_picking::{looked_up, selects_some};

/// The selected rows of a node. `next` is the place of the first read that is theirs, and goes past the last one; after an
/// error it is what it was.
pub fn column_of(
    alloc: Global,
    tree: &LayoutTree,
    node: u32,
    start: u64,
    mask: &Mask,
    reads: &[SegmentRead],
    next: &mut usize,
) -> Result<Column, ReaderError>
    requires known { node < length tree.now }
    requires readable { AreReadable tree.now }
    requires inside { start + length mask.now ≤ (tree_head tree.now node).rows }
    requires ready { Begin (needed (subtree tree.now node) start mask.now) (drop next.old reads.now) }
    ensures dtype { IfOk result (λ column. column.dtype ≡ (tree_head tree.now node).dtype) }
    ensures rows { IfOk result (λ column. length column.values ≡ true_count mask.now) }
    ensures values { IfOk result (λ column. AreRowsBy reads.now (derivation (subtree tree.now node) all) start mask.now column.values) }
    ensures cause { IfErr result (Fails reads.now (derivation (subtree tree.now node) all) start (length mask.now)) }
    ensures own { IfErr result IsOfBytes }
    ensures no_expression { IfErr result IsNotOfExpression }
    ensures passed { OnOk result (next.new ≡ next.old + length (needed (subtree tree.now node) start mask.now)) }
    ensures stays { OnErr result (next.new ≡ next.old) }
{
    let mut place = *next;
    match node_column(alloc, tree, node, start, mask, reads, &mut place) {
        Ok(column) => {
            *next = place;
            Ok(column)
        }
        Err(error) => Err(error),
    }
}

/// The same, where `next` goes past the reads that were looked at.
#[cycle(columns)]
fn node_column(
    alloc: Global,
    tree: &LayoutTree,
    node: u32,
    start: u64,
    mask: &Mask,
    reads: &[SegmentRead],
    next: &mut usize,
) -> Result<Column, ReaderError>
    requires known { node < length tree.now }
    requires readable { AreReadable tree.now }
    requires inside { start + length mask.now ≤ (tree_head tree.now node).rows }
    requires ready { Begin (needed (subtree tree.now node) start mask.now) (drop next.old reads.now) }
    ensures dtype { IfOk result (λ column. column.dtype ≡ (tree_head tree.now node).dtype) }
    ensures rows { IfOk result (λ column. length column.values ≡ true_count mask.now) }
    ensures values { IfOk result (λ column. AreRowsBy reads.now (derivation (subtree tree.now node) all) start mask.now column.values) }
    ensures cause { IfErr result (Fails reads.now (derivation (subtree tree.now node) all) start (length mask.now)) }
    ensures own { IfErr result IsOfBytes }
    ensures no_expression { IfErr result IsNotOfExpression }
    ensures passed { OnOk result (next.new ≡ next.old + length (needed (subtree tree.now node) start mask.now)) }
{
    match NodeParts::of(tree, node) {
        NodeParts::Leaf { segment, coding } => {
            if mask.len() == 0 {
                return Ok(empty_at(alloc, tree, node)?);
            }
            let bytes = take_bytes(reads, next);
            leaf_column(alloc, tree, node, segment, coding, start, mask, bytes)
        }
        NodeParts::Chunks { chunks } => {
            chunks_column(alloc, tree, node, chunks, start, mask, reads, next)
        }
        NodeParts::Dict { codes, values } => {
            dict_column(alloc, tree, node, codes, values, start, mask, reads, next)
        }
        NodeParts::Zoned { content, .. } => {
            node_column(alloc, tree, content, start, mask, reads, next)
        }
        NodeParts::Struct { fields } => {
            struct_column(alloc, tree, node, fields, start, mask, reads, next)
        }
    }
}

/// The selected rows of chunks, those of each behind those of the one before it.
#[cycle(columns)]
fn chunks_column(
    alloc: Global,
    tree: &LayoutTree,
    node: u32,
    chunks: &[u32],
    start: u64,
    mask: &Mask,
    reads: &[SegmentRead],
    next: &mut usize,
) -> Result<Column, ReaderError>
    requires known { node < length tree.now }
    requires readable { AreReadable tree.now }
    requires chunked { IsChunked tree.now node chunks.now }
    requires inside { start + length mask.now ≤ (tree_head tree.now node).rows }
    requires ready { Begin (needed_in (trees_of tree.now chunks.now) start mask.now) (drop next.old reads.now) }
    ensures dtype { IfOk result (λ column. column.dtype ≡ (tree_head tree.now node).dtype) }
    ensures rows { IfOk result (λ column. length column.values ≡ true_count mask.now) }
    ensures values { IfOk result (λ column. AreRowsBy reads.now (derivation_in (trees_of tree.now chunks.now) all) start mask.now column.values) }
    ensures cause { IfErr result (Fails reads.now (derivation_in (trees_of tree.now chunks.now) all) start (length mask.now)) }
    ensures own { IfErr result IsOfBytes }
    ensures no_expression { IfErr result IsNotOfExpression }
    ensures passed { OnOk result (next.new ≡ next.old + length (needed_in (trees_of tree.now chunks.now) start mask.now)) }
{
    let mut parts = Vec::new(alloc);
    match add_chunks(
        alloc, tree, node, chunks, start, mask, reads, next, &mut parts,
    ) {
        Ok(()) => {}
        Err(error) => return Err(error),
    }
    let dtype = dtype_at(tree, node).copy(alloc)?;
    Ok(Column::concat(alloc, dtype, parts)?)
}

/// Adds the columns of the selected rows of chunks, those of each behind those of the one before it.
#[cycle(columns)]
fn add_chunks(
    alloc: Global,
    tree: &LayoutTree,
    node: u32,
    chunks: &[u32],
    start: u64,
    mask: &Mask,
    reads: &[SegmentRead],
    next: &mut usize,
    parts: &mut Vec<Column>,
) -> Result<(), ReaderError>
    requires known { node < length tree.now }
    requires readable { AreReadable tree.now }
    requires chunked { IsChunked tree.now node chunks.now }
    requires inside { start + length mask.now ≤ (tree_head tree.now node).rows }
    requires ready { Begin (needed_in (trees_of tree.now chunks.now) start mask.now) (drop next.old reads.now) }
    ensures added { OnOk result (AddsRows reads.now (tree_head tree.now node).dtype (derivation_in (trees_of tree.now chunks.now) all) start mask.now parts.old.items parts.new.items) }
    ensures cause { IfErr result (Fails reads.now (derivation_in (trees_of tree.now chunks.now) all) start (length mask.now)) }
    ensures own { IfErr result IsOfBytes }
    ensures no_expression { IfErr result IsNotOfExpression }
    ensures passed { OnOk result (next.new ≡ next.old + length (needed_in (trees_of tree.now chunks.now) start mask.now)) }
{
    let mut row = start;
    let mut done = 0;
    for chunk in chunks {
        let rows = rows_at(tree, *chunk);
        let here = rows_here(rows, row, done, mask.len());
        let end = here.end;
        match add_range(alloc, tree, *chunk, row, mask, here, reads, next, parts) {
            Ok(()) => {}
            Err(error) => return Err(error),
        }
        done = end;
        row = row.saturating_sub(rows);
    }
    Ok(())
}

/// Adds the columns of the rows that a range of the mask selects, where there are any.
#[cycle(columns)]
fn add_range(
    alloc: Global,
    tree: &LayoutTree,
    node: u32,
    start: u64,
    mask: &Mask,
    range: Range<u64>,
    reads: &[SegmentRead],
    next: &mut usize,
    parts: &mut Vec<Column>,
) -> Result<(), ReaderError>
    requires known { node < length tree.now }
    requires readable { AreReadable tree.now }
    requires forwards { range.start ≤ range.end }
    requires masked { range.end ≤ length mask.now }
    requires inside { range.start < range.end → start + (range.end - range.start) ≤ (tree_head tree.now node).rows }
    requires ready { Begin (needed_of_range (subtree tree.now node) start (slice_range mask.now range.start range.end)) (drop next.old reads.now) }
    ensures added { OnOk result (AddsRows reads.now (tree_head tree.now node).dtype (derivation (subtree tree.now node) all) start (slice_range mask.now range.start range.end) parts.old.items parts.new.items) }
    ensures cause { IfErr result (Fails reads.now (derivation (subtree tree.now node) all) start (range.end - range.start)) }
    ensures own { IfErr result IsOfBytes }
    ensures no_expression { IfErr result IsNotOfExpression }
    ensures passed { OnOk result (next.new ≡ next.old + length (needed_of_range (subtree tree.now node) start (slice_range mask.now range.start range.end))) }
{
    if range.start == range.end {
        return Ok(());
    }
    let some = mask.slice(alloc, range)?;
    if !selects_some(&some) {
        return Ok(());
    }
    match add_parts(alloc, tree, node, start, &some, reads, next, parts) {
        Ok(()) => Ok(()),
        Err(error) => Err(error),
    }
}

/// Adds the columns of the selected rows of a node: of chunks those of each, and of any other node one.
#[cycle(columns)]
pub(crate) fn add_parts(
    alloc: Global,
    tree: &LayoutTree,
    node: u32,
    start: u64,
    mask: &Mask,
    reads: &[SegmentRead],
    next: &mut usize,
    parts: &mut Vec<Column>,
) -> Result<(), ReaderError>
    requires known { node < length tree.now }
    requires readable { AreReadable tree.now }
    requires inside { start + length mask.now ≤ (tree_head tree.now node).rows }
    requires ready { Begin (needed (subtree tree.now node) start mask.now) (drop next.old reads.now) }
    ensures added { OnOk result (AddsRows reads.now (tree_head tree.now node).dtype (derivation (subtree tree.now node) all) start mask.now parts.old.items parts.new.items) }
    ensures cause { IfErr result (Fails reads.now (derivation (subtree tree.now node) all) start (length mask.now)) }
    ensures own { IfErr result IsOfBytes }
    ensures no_expression { IfErr result IsNotOfExpression }
    ensures passed { OnOk result (next.new ≡ next.old + length (needed (subtree tree.now node) start mask.now)) }
{
    match NodeParts::of(tree, node) {
        NodeParts::Chunks { chunks } => {
            add_chunks(alloc, tree, node, chunks, start, mask, reads, next, parts)
        }
        NodeParts::Zoned { content, .. } => {
            add_parts(alloc, tree, content, start, mask, reads, next, parts)
        }
        _ => match node_column(alloc, tree, node, start, mask, reads, next) {
            Ok(part) => {
                parts.push(part)?;
                Ok(())
            }
            Err(error) => Err(error),
        },
    }
}

/// The codes of the selected rows of a dictionary, and all of its values.
#[derive(Drop)]
pub(crate) struct DictParts {
    pub(crate) codes: Column,
    pub(crate) values: Column,
}

/// The codes of the selected rows of a dictionary, of which there is one, and its values.
#[cycle(columns)]
pub(crate) fn dict_parts(
    alloc: Global,
    tree: &LayoutTree,
    node: u32,
    codes: u32,
    values: u32,
    start: u64,
    mask: &Mask,
    reads: &[SegmentRead],
    next: &mut usize,
) -> Result<DictParts, ReaderError>
    requires known { node < length tree.now }
    requires readable { AreReadable tree.now }
    requires dict { IsDict tree.now node codes values }
    requires inside { start + length mask.now ≤ (tree_head tree.now node).rows }
    requires some { selects_some mask.now ≡ true }
    requires ready { Begin (needed (subtree tree.now node) start mask.now) (drop next.old reads.now) }
    ensures codes_dtype { IfOk result (λ parts. parts.codes.dtype ≡ (tree_head tree.now codes).dtype) }
    ensures codes_count { IfOk result (λ parts. length parts.codes.values ≡ true_count mask.now) }
    ensures values_dtype { IfOk result (λ parts. parts.values.dtype ≡ (tree_head tree.now values).dtype) }
    ensures values_count { IfOk result (λ parts. length parts.values.values ≡ (tree_head tree.now values).rows) }
    ensures codes { IfOk result (λ parts. AreRowsBy reads.now (derivation (subtree tree.now codes) all) start mask.now parts.codes.values) }
    ensures values { IfOk result (λ parts. AreRowsBy reads.now (derivation (subtree tree.now values) all) 0 (replicate (tree_head tree.now values).rows true) parts.values.values) }
    ensures cause { IfErr result (Fails reads.now (derivation (subtree tree.now node) all) start (length mask.now)) }
    ensures own { IfErr result IsOfBytes }
    ensures no_expression { IfErr result IsNotOfExpression }
    ensures passed { OnOk result (next.new ≡ next.old + length (needed (subtree tree.now node) start mask.now)) }
{
    let codes = match node_column(alloc, tree, codes, start, mask, reads, next) {
        Ok(codes) => codes,
        Err(error) => return Err(error),
    };
    let all = Mask::new_true(alloc, rows_at(tree, values))?;
    match node_column(alloc, tree, values, 0, &all, reads, next) {
        Ok(values) => Ok(DictParts { codes, values }),
        Err(error) => {
            drop(codes);
            Err(error)
        }
    }
}

/// The values at the codes of the selected rows of a dictionary.
#[cycle(columns)]
fn dict_column(
    alloc: Global,
    tree: &LayoutTree,
    node: u32,
    codes: u32,
    values: u32,
    start: u64,
    mask: &Mask,
    reads: &[SegmentRead],
    next: &mut usize,
) -> Result<Column, ReaderError>
    requires known { node < length tree.now }
    requires readable { AreReadable tree.now }
    requires dict { IsDict tree.now node codes values }
    requires inside { start + length mask.now ≤ (tree_head tree.now node).rows }
    requires ready { Begin (needed (subtree tree.now node) start mask.now) (drop next.old reads.now) }
    ensures dtype { IfOk result (λ column. column.dtype ≡ (tree_head tree.now node).dtype) }
    ensures rows { IfOk result (λ column. length column.values ≡ true_count mask.now) }
    ensures values { IfOk result (λ column. AreRowsBy reads.now (derivation (subtree tree.now node) all) start mask.now column.values) }
    ensures cause { IfErr result (Fails reads.now (derivation (subtree tree.now node) all) start (length mask.now)) }
    ensures own { IfErr result IsOfBytes }
    ensures no_expression { IfErr result IsNotOfExpression }
    ensures passed { OnOk result (next.new ≡ next.old + length (needed (subtree tree.now node) start mask.now)) }
{
    if !selects_some(mask) {
        return Ok(empty_at(alloc, tree, node)?);
    }
    // The contract of `rows_at` says that the rows are so few that their numbers fit.
    let _rows = rows_at(tree, node);
    match dict_parts(alloc, tree, node, codes, values, start, mask, reads, next) {
        Ok(parts) => {
            let made = looked_up(alloc, &parts.codes, &parts.values, start, mask);
            drop(parts);
            match made {
                Ok(column) => Ok(column),
                Err(error) => Err(look_up_fault(node, error)),
            }
        }
        Err(error) => Err(error),
    }
}

/// A column of the selected rows of each field.
#[cycle(columns)]
fn field_columns(
    alloc: Global,
    tree: &LayoutTree,
    node: u32,
    fields: &[u32],
    start: u64,
    mask: &Mask,
    reads: &[SegmentRead],
    next: &mut usize,
) -> Result<Vec<Column>, ReaderError>
    requires known { node < length tree.now }
    requires readable { AreReadable tree.now }
    requires fields { IsStructNode tree.now node fields.now }
    requires inside { start + length mask.now ≤ (tree_head tree.now node).rows }
    requires ready { Begin (needed_of_each (trees_of tree.now fields.now) start mask.now) (drop next.old reads.now) }
    ensures columns { IfOk result (λ columns. AreColumnsBy reads.now (trees_of tree.now fields.now) start mask.now columns.items) }
    ensures cause { IfErr result (Fails reads.now (derivation (subtree tree.now node) all) start (length mask.now)) }
    ensures own { IfErr result IsOfBytes }
    ensures no_expression { IfErr result IsNotOfExpression }
    ensures passed { OnOk result (next.new ≡ next.old + length (needed_of_each (trees_of tree.now fields.now) start mask.now)) }
{
    let mut columns = Vec::new(alloc);
    for field in fields {
        match node_column(alloc, tree, *field, start, mask, reads, next) {
            Ok(column) => columns.push(column)?,
            Err(error) => return Err(error),
        }
    }
    Ok(columns)
}

/// The structs of the selected rows of the fields.
#[cycle(columns)]
fn struct_column(
    alloc: Global,
    tree: &LayoutTree,
    node: u32,
    fields: &[u32],
    start: u64,
    mask: &Mask,
    reads: &[SegmentRead],
    next: &mut usize,
) -> Result<Column, ReaderError>
    requires known { node < length tree.now }
    requires readable { AreReadable tree.now }
    requires fields { IsStructNode tree.now node fields.now }
    requires inside { start + length mask.now ≤ (tree_head tree.now node).rows }
    requires ready { Begin (needed (subtree tree.now node) start mask.now) (drop next.old reads.now) }
    ensures dtype { IfOk result (λ column. column.dtype ≡ (tree_head tree.now node).dtype) }
    ensures rows { IfOk result (λ column. length column.values ≡ true_count mask.now) }
    ensures values { IfOk result (λ column. AreRowsBy reads.now (derivation (subtree tree.now node) all) start mask.now column.values) }
    ensures cause { IfErr result (Fails reads.now (derivation (subtree tree.now node) all) start (length mask.now)) }
    ensures own { IfErr result IsOfBytes }
    ensures no_expression { IfErr result IsNotOfExpression }
    ensures passed { OnOk result (next.new ≡ next.old + length (needed (subtree tree.now node) start mask.now)) }
{
    match field_columns(alloc, tree, node, fields, start, mask, reads, next) {
        Ok(columns) => {
            let made = structs(alloc, dtype_at(tree, node), columns, mask.true_count())?;
            Ok(made)
        }
        Err(error) => Err(error),
    }
}
