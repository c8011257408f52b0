//! The rules by which the rows of a read are split.

ghost use Rattle.std.specs.Prelude.{◌≡◌, ◌<◌, ◌≤◌, [], ◌∷◌, IfOk};
ghost use Rattle.vx_split_rules.specs.Limits.{default_span};
ghost use Rattle.vx_split_rules.specs.Rules.{counted, LayoutGives, Spans, SplitsGive};

use crate::errors::SplitError;
use crate::field_masks::FieldMask;
use crate::registering::RegistersSplits;
use crate::row_splits::RowSplits;
use crate::split_ranges::SplitRange;
use std::alloc::{AllocError, Global};
use std::ops::Range;
use vx_splits::{DEFAULT_MAX_SPLIT_ROWS, subdivide_large_spans};

/// Where the rows of a read are split into batches.
#[derive(Clone, Copy, Debug, PartialEq, Eq)]
pub enum SplitBy {
    /// Where the chunks of the layout end.
    Layout,
    /// Where the chunks of the layout end, and after each `max_rows` rows of a longer span.
    LayoutSubSplitting { max_rows: u64 },
    /// After each so many rows.
    RowCount(u64),
}

impl Default for SplitBy {
    /// Where the chunks of the layout end, and after each [`DEFAULT_MAX_SPLIT_ROWS`] rows of a longer span.
    fn default() -> SplitBy
        ensures { result ≡ SplitBy.LayoutSubSplitting default_span }
    {
        SplitBy::LayoutSubSplitting {
            max_rows: DEFAULT_MAX_SPLIT_ROWS,
        }
    }
}

/// The start of a range, and where chunks end in it, in order and each once.
fn layout_splits<R: RegistersSplits>(
    alloc: Global,
    reader: &R,
    rows: &Range<u64>,
    field_mask: &[FieldMask],
) -> Result<Vec<u64>, SplitError>
    ensures { LayoutGives (record { ends = R.chunk_ends reader.now 0; ends_empty = R.ends_empty reader.now; rows = R.all_rows reader.now }) rows.now.start rows.now.end result }
{
    let start = rows.start;
    let end = rows.end;
    if reader.row_count() < end {
        return Err(SplitError::OutOfRange);
    }
    let range = match SplitRange::root(start..end) {
        Ok(range) => range,
        Err(error) => return Err(error),
    };
    let mut splits = RowSplits::new(alloc);
    splits.push(start)?;
    reader.register_splits(field_mask, &range, &mut splits)?;
    Ok(splits.into_sorted_deduped()?)
}

/// The same, with rows between those that lie too far apart.
fn sub_splits<R: RegistersSplits>(
    alloc: Global,
    reader: &R,
    rows: &Range<u64>,
    field_mask: &[FieldMask],
    max_rows: u64,
) -> Result<Vec<u64>, SplitError>
    ensures { SplitsGive (SplitBy.LayoutSubSplitting max_rows) (record { ends = R.chunk_ends reader.now 0; ends_empty = R.ends_empty reader.now; rows = R.all_rows reader.now }) rows.now.start rows.now.end result }
{
    if max_rows == 0 {
        return Err(SplitError::ZeroSize);
    }
    match layout_splits(alloc, reader, rows, field_mask) {
        Ok(boundaries) => match subdivide_large_spans(alloc, boundaries, max_rows) {
            Ok(splits) => Ok(splits),
            Err(_) => Err(SplitError::Memory),
        },
        Err(error) => Err(error),
    }
}

/// The first row of each so many of a range, and where it ends.
fn counted_splits(alloc: Global, rows: &Range<u64>, size: u64) -> Result<Vec<u64>, AllocError>
    requires { 0 < size }
    ensures { IfOk result (λ splits. splits.items ≡ counted size rows.now.start rows.now.end) }
{
    let start = rows.start;
    let end = rows.end;
    let parts = end.saturating_sub(start).div_ceil(size);
    let mut splits = Vec::with_capacity(alloc, parts as usize)?;
    for part in 0..parts {
        splits.push(start + part * size)?;
    }
    splits.push(end)?;
    Ok(splits)
}

impl SplitBy {
    /// Where the rule splits a range of a reader's rows. It gives the start and, in order and each once, where the rows are
    /// split, up to the end; of an empty range one row.
    pub fn splits<R: RegistersSplits>(
        &self,
        alloc: Global,
        reader: &R,
        rows: &Range<u64>,
        field_mask: &[FieldMask],
    ) -> Result<Vec<u64>, SplitError>
        ensures gives { SplitsGive self.now (record { ends = R.chunk_ends reader.now 0; ends_empty = R.ends_empty reader.now; rows = R.all_rows reader.now }) rows.now.start rows.now.end result }
        ensures alone { rows.now.end ≤ rows.now.start → IfOk result (λ splits. splits.items ≡ rows.now.end ∷ []) }
        ensures spans { rows.now.start < rows.now.end → IfOk result (λ splits. Spans rows.now.start rows.now.end splits.items) }
    {
        match self {
            SplitBy::Layout => layout_splits(alloc, reader, rows, field_mask),
            SplitBy::LayoutSubSplitting { max_rows } => {
                sub_splits(alloc, reader, rows, field_mask, *max_rows)
            }
            SplitBy::RowCount(size) => {
                if *size == 0 {
                    return Err(SplitError::ZeroSize);
                }
                Ok(counted_splits(alloc, rows, *size)?)
            }
        }
    }
}
