//! Ranges of rows that included indices are gathered into, so that far-apart indices are read by ranges of
//! their own.

ghost use Rattle.std.specs.Prelude.{◌≡◌, ◌-◌, ◌^◌, ◌<◌, IfOk, IfSome, option_map};
ghost use Rattle.std.specs.List.{All};
ghost use Rattle.vx_splits.specs.SplitRanges.{gathered_ranges, split_ranges_within, split_ranges, AreSplitRanges, rows_to_cover};

use crate::selections::Selection;
use std::alloc::{AllocError, Global};
use std::ops::Range;

/// A range of gathered indices has fewer rows than this.
const RANGE_ROWS_LIMIT: u64 = 4000;
/// An index that lies this far from the open range opens one of its own.
const MIN_GAP_ROWS: u64 = 50_000;

/// Where a scan is split: at the boundaries of its layout, or into ranges of its own.
#[derive(Debug, Drop)]
pub enum Splits {
    /// Boundaries of rows, ascending.
    Natural(Vec<u64>),
    /// Ranges of rows, ascending and disjoint.
    Ranges(Vec<Range<u64>>),
}

/// The ranges that the included indices of the row range are gathered into. Without a row range it is
/// `0..u64::MAX`; an empty one gives no ranges. `None` says that the selection isn't `IncludeByIndex`, or
/// that an index lies too far from the open range to extend it and not far enough to open its own.
pub fn attempt_split_ranges(
    alloc: Global,
    selection: &Selection,
    row_range: Option<&Range<u64>>,
) -> Result<Option<Vec<Range<u64>>>, AllocError>
    ensures ranges { IfOk result (λ ranges. option_map (λ ranges. ranges.items) ranges
        ≡ split_ranges selection.now (option_map (λ range. range.now) row_range.entry)) }
    ensures laws { IfOk result (λ ranges. IfSome ranges (λ ranges.
        AreSplitRanges (rows_to_cover selection.now (option_map (λ range. range.now) row_range.entry)) ranges.items)) }
{
    match row_range {
        None => split_within(alloc, selection, 0, u64::MAX),
        Some(rows) if rows.start < rows.end => {
            split_within(alloc, selection, rows.start, rows.end)
        }
        Some(_) => Ok(Some(Vec::new(alloc))),
    }
}

/// The same for the rows from start on that lie before end.
fn split_within(
    alloc: Global,
    selection: &Selection,
    start: u64,
    end: u64,
) -> Result<Option<Vec<Range<u64>>>, AllocError>
    ensures { IfOk result (λ ranges. option_map (λ ranges. ranges.items) ranges
        ≡ split_ranges_within selection.now start end) }
{
    match selection {
        Selection::All | Selection::ExcludeByIndex(_) => Ok(None),
        Selection::IncludeByIndex(indices) => gather(alloc, indices.within(&(start..end))),
    }
}

/// The ranges that ascending indices are gathered into.
fn gather(alloc: Global, indices: &[u64]) -> Result<Option<Vec<Range<u64>>>, AllocError>
    requires { All (λ index. index < 2 ^ 64 - 1) indices.now }
    ensures { IfOk result (λ ranges. option_map (λ ranges. ranges.items) ranges ≡ gathered_ranges indices.now) }
{
    let mut closed = Vec::new(alloc);
    let Some((first, indices)) = indices.split_first() else {
        return Ok(Some(closed));
    };
    let mut open = *first..*first + 1;
    for index in indices {
        let end = *index + 1;
        if end.saturating_sub(open.start) < RANGE_ROWS_LIMIT {
            open.end = end;
        } else if MIN_GAP_ROWS <= end.saturating_sub(open.end) {
            closed.push(open)?;
            open = *index..end;
        } else {
            return Ok(None);
        }
    }
    closed.push(open)?;
    Ok(Some(closed))
}
