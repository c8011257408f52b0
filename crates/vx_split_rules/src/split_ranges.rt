//! A range of rows that stands behind other rows.

ghost use Rattle.std.specs.Prelude.{◌≡◌, ◌+◌, ◌<◌, ◌≤◌, ◌⊎◌, ◌^◌, MatchResult};
ghost use Rattle.vx_split_rules.specs.declared.errors.SplitError.TheVariants as errors;
ghost use Rattle.vx_split_rules.specs.Splits.{IsSplitRange, SplitRows};

use crate::errors::SplitError;
use std::marker::Model;
use std::ops::Range;

/// A range of the rows of a node, whose first row is a row of the root: it is not reversed, and 64 bits count where it ends.
#[derive(Drop)]
pub struct SplitRange {
    row_offset: u64,
    rows: Range<u64>,
}

impl Model for SplitRange {
    ghost use Rattle.std.specs.Prelude.{◌+◌, ◌≤◌, ◌<◌, ◌^◌};
    ghost use Rattle.vx_split_rules.specs.Splits.{coded_rows, IsSplitRange, SplitRows};

    ghost Value = { SplitRows };

    ghost coded = { coded_rows };

    ghost view = { λ a. record { offset = a.row_offset; start = a.rows.start; end = a.rows.end } };

    ghost invariant = { λ a. IsSplitRange (record { offset = a.row_offset; start = a.rows.start; end = a.rows.end }) };
}

impl SplitRange {
    /// The range of the rows of a node whose first row is that row of the root.
    pub fn try_new(row_offset: u64, rows: Range<u64>) -> Result<SplitRange, SplitError>
        ensures { MatchResult result (λ range. (range ≡ record { offset = row_offset; start = rows.start; end = rows.end }) × IsSplitRange range) (λ error. (error ≡ errors.OutOfRange) × ((rows.end < rows.start) ⊎ (2 ^ 64 ≤ row_offset + rows.end))) }
    {
        if rows.end < rows.start {
            return Err(SplitError::OutOfRange);
        }
        match row_offset.checked_add(rows.end) {
            Some(_) => Ok(SplitRange { row_offset, rows }),
            None => Err(SplitError::OutOfRange),
        }
    }

    /// The range of rows of the root.
    pub fn root(rows: Range<u64>) -> Result<SplitRange, SplitError>
        ensures { MatchResult result (λ range. (range ≡ record { offset = 0; start = rows.start; end = rows.end }) × IsSplitRange range) (λ error. (error ≡ errors.OutOfRange) × (rows.end < rows.start)) }
    {
        SplitRange::try_new(0, rows)
    }

    /// The row of the root that is the first of the node.
    pub fn row_offset(&self) -> u64
        ensures { result ≡ self.now.offset }
    {
        self.row_offset
    }

    /// The range in rows of the node.
    pub fn row_range(&self) -> &Range<u64>
        ensures start { result.now.start ≡ self.now.start }
        ensures end { result.now.end ≡ self.now.end }
    {
        &self.rows
    }

    /// The range in rows of the root.
    pub fn root_row_range(&self) -> Range<u64>
        ensures start { result.start ≡ self.now.offset + self.now.start }
        ensures end { result.end ≡ self.now.offset + self.now.end }
        ensures forwards { result.start ≤ result.end }
    {
        self.row_offset + self.rows.start..self.row_offset + self.rows.end
    }
}
