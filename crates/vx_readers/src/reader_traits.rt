//! What each reader of a layout does, whatever the kind of its node.

ghost use Rattle.std.specs.Prelude.{◌≡◌, ◌-◌, ◌≤◌, length, true, false, IfOk};
ghost use Rattle.vx_base.specs.ColumnCalls.{IsBool};
ghost use Rattle.vx_base.specs.Views.{data_type};
ghost use Rattle.vx_expr.specs.Bound.{IsBoundTo};
ghost use Rattle.vx_readers.specs.Begun.{BeginsOver, FiltersOver, PrunesOver};
ghost use Rattle.vx_readers.specs.ChunkEnds.{reader_ends};
ghost use Rattle.vx_readers.specs.Evaluations.{needed_by};
ghost use Rattle.vx_readers.specs.ReaderData.{reader_head, ReaderData};
ghost use Rattle.vx_readers.specs.Readers.{pushes_empty, reader_data};

use crate::layout_readers::{ChunkedReader, DictReader, FlatReader, Reader};
use crate::states::{ColumnState, MaskState};
use std::alloc::{AllocError, Global};
use std::ops::Range;
use vx_base::{DType, Mask};
use vx_expr::BoundExpression;
use vx_split_rules::{FieldMask, RegistersSplits, RowSplits, SplitRange};

/// A reader of a node's rows.
pub trait LayoutReader<'a>: RegistersSplits {
    /// What it borrows: its node, and where segments lie.
    ghost borrowed: { Self → ReaderData };

    /// The dtype of the node.
    fn dtype(&self) -> &DType
        ensures { data_type result.now ≡ (reader_head (borrowed self.now)).dtype };

    /// The mask of a range without the rows of zones that the expression prunes at the greatest bound, `u64::MAX`, and so at
    /// each one: the state in which nothing was asked for. It reads zones alone. Where the expression has no proof, and for a
    /// segment and a dictionary, which have no zones, it is the mask itself and reads nothing.
    fn pruning_evaluation(
        &self,
        alloc: Global,
        rows: Range<u64>,
        expression: &'a BoundExpression,
        mask: Mask,
    ) -> Result<MaskState<'a>, AllocError>
        requires forwards { rows.start ≤ rows.end }
        requires inside { rows.end ≤ Self.all_rows self.now }
        requires masked { length mask ≡ rows.end - rows.start }
        requires bound { IsBoundTo expression.now (reader_head (borrowed self.now)).dtype }
        requires bool { IsBool expression.now.dtype }
        ensures { IfOk result (λ state. PrunesOver (borrowed self.now) rows.start mask expression.now state.masking) };

    /// The mask's rows of a range at which the expression is true: the state in which nothing was asked for. The number of
    /// each row counts as 0.
    fn filter_evaluation(
        &self,
        alloc: Global,
        rows: Range<u64>,
        expression: &'a BoundExpression,
        mask: Mask,
    ) -> Result<MaskState<'a>, AllocError>
        requires forwards { rows.start ≤ rows.end }
        requires inside { rows.end ≤ Self.all_rows self.now }
        requires masked { length mask ≡ rows.end - rows.start }
        requires bound { IsBoundTo expression.now (reader_head (borrowed self.now)).dtype }
        requires bool { IsBool expression.now.dtype }
        ensures { IfOk result (λ state. FiltersOver (borrowed self.now) rows.start mask expression.now state.masking) };

    /// The expression's column over the selected rows of a range: the state in which nothing was asked for. The number of
    /// each row counts as 0.
    fn projection_evaluation(
        &self,
        alloc: Global,
        rows: Range<u64>,
        expression: &'a BoundExpression,
        mask: Mask,
    ) -> Result<ColumnState<'a>, AllocError>
        requires forwards { rows.start ≤ rows.end }
        requires inside { rows.end ≤ Self.all_rows self.now }
        requires masked { length mask ≡ rows.end - rows.start }
        requires bound { IsBoundTo expression.now (reader_head (borrowed self.now)).dtype }
        ensures { IfOk result (λ state. BeginsOver needed_by (borrowed self.now) rows.start mask expression.now state.evaluation) };
}

impl<'a> RegistersSplits for FlatReader<'a> {
    ghost chunk_ends = { λ reader. reader_ends reader.over };

    ghost ends_empty = { λ _. true };

    ghost all_rows = { λ reader. (reader_head reader.over).rows };

    fn row_count(&self) -> u64 {
        self.over.row_count()
    }

    fn register_splits(
        &self,
        field_mask: &[FieldMask],
        range: &SplitRange,
        splits: &mut RowSplits,
    ) -> Result<(), AllocError> {
        self.over.register(range, true, splits)
    }
}

impl<'a> LayoutReader<'a> for FlatReader<'a> {
    ghost borrowed = { λ reader. reader.over };

    fn dtype(&self) -> &DType {
        self.over.dtype()
    }

    fn pruning_evaluation(
        &self,
        alloc: Global,
        rows: Range<u64>,
        expression: &'a BoundExpression,
        mask: Mask,
    ) -> Result<MaskState<'a>, AllocError> {
        self.over.prune(alloc, rows, expression, mask)
    }

    fn filter_evaluation(
        &self,
        alloc: Global,
        rows: Range<u64>,
        expression: &'a BoundExpression,
        mask: Mask,
    ) -> Result<MaskState<'a>, AllocError> {
        self.over.filter(alloc, rows, expression, mask)
    }

    fn projection_evaluation(
        &self,
        alloc: Global,
        rows: Range<u64>,
        expression: &'a BoundExpression,
        mask: Mask,
    ) -> Result<ColumnState<'a>, AllocError> {
        self.over.projection(alloc, rows, expression, mask)
    }
}

impl<'a> RegistersSplits for ChunkedReader<'a> {
    ghost chunk_ends = { λ reader. reader_ends reader.over };

    ghost ends_empty = { λ _. false };

    ghost all_rows = { λ reader. (reader_head reader.over).rows };

    fn row_count(&self) -> u64 {
        self.over.row_count()
    }

    fn register_splits(
        &self,
        field_mask: &[FieldMask],
        range: &SplitRange,
        splits: &mut RowSplits,
    ) -> Result<(), AllocError> {
        self.over.register(range, false, splits)
    }
}

impl<'a> LayoutReader<'a> for ChunkedReader<'a> {
    ghost borrowed = { λ reader. reader.over };

    fn dtype(&self) -> &DType {
        self.over.dtype()
    }

    fn pruning_evaluation(
        &self,
        alloc: Global,
        rows: Range<u64>,
        expression: &'a BoundExpression,
        mask: Mask,
    ) -> Result<MaskState<'a>, AllocError> {
        self.over.prune(alloc, rows, expression, mask)
    }

    fn filter_evaluation(
        &self,
        alloc: Global,
        rows: Range<u64>,
        expression: &'a BoundExpression,
        mask: Mask,
    ) -> Result<MaskState<'a>, AllocError> {
        self.over.filter(alloc, rows, expression, mask)
    }

    fn projection_evaluation(
        &self,
        alloc: Global,
        rows: Range<u64>,
        expression: &'a BoundExpression,
        mask: Mask,
    ) -> Result<ColumnState<'a>, AllocError> {
        self.over.projection(alloc, rows, expression, mask)
    }
}

impl<'a> RegistersSplits for DictReader<'a> {
    ghost chunk_ends = { λ reader. reader_ends reader.over };

    ghost ends_empty = { λ _. true };

    ghost all_rows = { λ reader. (reader_head reader.over).rows };

    fn row_count(&self) -> u64 {
        self.over.row_count()
    }

    fn register_splits(
        &self,
        field_mask: &[FieldMask],
        range: &SplitRange,
        splits: &mut RowSplits,
    ) -> Result<(), AllocError> {
        self.over.register(range, true, splits)
    }
}

impl<'a> LayoutReader<'a> for DictReader<'a> {
    ghost borrowed = { λ reader. reader.over };

    fn dtype(&self) -> &DType {
        self.over.dtype()
    }

    fn pruning_evaluation(
        &self,
        alloc: Global,
        rows: Range<u64>,
        expression: &'a BoundExpression,
        mask: Mask,
    ) -> Result<MaskState<'a>, AllocError> {
        self.over.prune(alloc, rows, expression, mask)
    }

    fn filter_evaluation(
        &self,
        alloc: Global,
        rows: Range<u64>,
        expression: &'a BoundExpression,
        mask: Mask,
    ) -> Result<MaskState<'a>, AllocError> {
        self.over.filter(alloc, rows, expression, mask)
    }

    fn projection_evaluation(
        &self,
        alloc: Global,
        rows: Range<u64>,
        expression: &'a BoundExpression,
        mask: Mask,
    ) -> Result<ColumnState<'a>, AllocError> {
        self.over.projection(alloc, rows, expression, mask)
    }
}

impl<'a> RegistersSplits for Reader<'a> {
    ghost chunk_ends = { λ reader. reader_ends (reader_data reader) };

    ghost ends_empty = { pushes_empty };

    ghost all_rows = { λ reader. (reader_head (reader_data reader)).rows };

    fn row_count(&self) -> u64 {
        match self {
            Reader::Flat(reader) => reader.row_count(),
            Reader::Chunked(reader) => reader.row_count(),
            Reader::Dict(reader) => reader.row_count(),
            Reader::Zoned(reader) => reader.row_count(),
        }
    }

    fn register_splits(
        &self,
        field_mask: &[FieldMask],
        range: &SplitRange,
        splits: &mut RowSplits,
    ) -> Result<(), AllocError> {
        match self {
            Reader::Flat(reader) => reader.register_splits(field_mask, range, splits),
            Reader::Chunked(reader) => reader.register_splits(field_mask, range, splits),
            Reader::Dict(reader) => reader.register_splits(field_mask, range, splits),
            Reader::Zoned(reader) => reader.register_splits(field_mask, range, splits),
        }
    }
}

impl<'a> LayoutReader<'a> for Reader<'a> {
    ghost borrowed = { reader_data };

    fn dtype(&self) -> &DType {
        match self {
            Reader::Flat(reader) => reader.dtype(),
            Reader::Chunked(reader) => reader.dtype(),
            Reader::Dict(reader) => reader.dtype(),
            Reader::Zoned(reader) => reader.dtype(),
        }
    }

    fn pruning_evaluation(
        &self,
        alloc: Global,
        rows: Range<u64>,
        expression: &'a BoundExpression,
        mask: Mask,
    ) -> Result<MaskState<'a>, AllocError> {
        match self {
            Reader::Flat(reader) => reader.pruning_evaluation(alloc, rows, expression, mask),
            Reader::Chunked(reader) => reader.pruning_evaluation(alloc, rows, expression, mask),
            Reader::Dict(reader) => reader.pruning_evaluation(alloc, rows, expression, mask),
            Reader::Zoned(reader) => reader.pruning_evaluation(alloc, rows, expression, mask),
        }
    }

    fn filter_evaluation(
        &self,
        alloc: Global,
        rows: Range<u64>,
        expression: &'a BoundExpression,
        mask: Mask,
    ) -> Result<MaskState<'a>, AllocError> {
        match self {
            Reader::Flat(reader) => reader.filter_evaluation(alloc, rows, expression, mask),
            Reader::Chunked(reader) => reader.filter_evaluation(alloc, rows, expression, mask),
            Reader::Dict(reader) => reader.filter_evaluation(alloc, rows, expression, mask),
            Reader::Zoned(reader) => reader.filter_evaluation(alloc, rows, expression, mask),
        }
    }

    fn projection_evaluation(
        &self,
        alloc: Global,
        rows: Range<u64>,
        expression: &'a BoundExpression,
        mask: Mask,
    ) -> Result<ColumnState<'a>, AllocError> {
        match self {
            Reader::Flat(reader) => reader.projection_evaluation(alloc, rows, expression, mask),
            Reader::Chunked(reader) => reader.projection_evaluation(alloc, rows, expression, mask),
            Reader::Dict(reader) => reader.projection_evaluation(alloc, rows, expression, mask),
            Reader::Zoned(reader) => reader.projection_evaluation(alloc, rows, expression, mask),
        }
    }
}
