//! The reader of data that has zones: its splits, filters and projections are those of the data.

ghost use Rattle.std.specs.Prelude.{true};
ghost use Rattle.vx_readers.specs.ChunkEnds.{reader_ends};
ghost use Rattle.vx_readers.specs.ReaderData.{reader_head};

use crate::layout_readers::ZonedReader;
use crate::reader_traits::LayoutReader;
use crate::states::{ColumnState, MaskState};
use std::alloc::{AllocError, Global};
use std::ops::Range;
use vx_base::{DType, Mask};
use vx_expr::BoundExpression;
use vx_split_rules::{FieldMask, RegistersSplits, RowSplits, SplitRange};

impl<'a> RegistersSplits for ZonedReader<'a> {
    ghost chunk_ends = { λ reader. reader_ends reader.over };

    ghost ends_empty = { λ _. true };

    ghost all_rows = { λ reader. (reader_head reader.over).rows };

    fn row_count(&self) -> u64 {
        self.over.row_count()
    }

    fn register_splits(
        &self,
        field_mask: &[FieldMask],
        range: &SplitRange,
        splits: &mut RowSplits,
    ) -> Result<(), AllocError> {
        self.over.register(range, true, splits)
    }
}

impl<'a> LayoutReader<'a> for ZonedReader<'a> {
    ghost borrowed = { λ reader. reader.over };

    fn dtype(&self) -> &DType {
        self.over.dtype()
    }

    fn pruning_evaluation(
        &self,
        alloc: Global,
        rows: Range<u64>,
        expression: &'a BoundExpression,
        mask: Mask,
    ) -> Result<MaskState<'a>, AllocError> {
        self.over.prune(alloc, rows, expression, mask)
    }

    fn filter_evaluation(
        &self,
        alloc: Global,
        rows: Range<u64>,
        expression: &'a BoundExpression,
        mask: Mask,
    ) -> Result<MaskState<'a>, AllocError> {
        self.over.filter(alloc, rows, expression, mask)
    }

    fn projection_evaluation(
        &self,
        alloc: Global,
        rows: Range<u64>,
        expression: &'a BoundExpression,
        mask: Mask,
    ) -> Result<ColumnState<'a>, AllocError> {
        self.over.projection(alloc, rows, expression, mask)
    }
}
