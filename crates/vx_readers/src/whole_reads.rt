//! Reading all rows of a reader: once, and then cut where the splits begin and end.

ghost use Rattle.std.specs.Prelude.{◌≡◌, ◌<◌, ◌≤◌, get_or, length, IfOk, IsFalse};
ghost use Rattle.vx_expr.specs.Bound.{IsBoundTo};
ghost use Rattle.vx_expr.specs.Mentions.{uses_row_number};
ghost use Rattle.vx_readers.specs.ReaderData.{reader_head};
ghost use Rattle.vx_readers.specs.Readers.{reader_data};
ghost use Rattle.vx_readers.specs.WholeReads.{AreSplitColumns, AreWithin, IsPartOf, ReadsBetween, ReadsRows, ReadsSplit};

use crate::layout_readers::Reader;
use crate::reader_traits::LayoutReader;
use crate::reading::{ReadRowsError, read_pieces};
use crate::uncut_rows::UncutRows;
use std::alloc::{AllocError, Global};
use std::ops::Range;
use vx_base::{Column, Mask, SegmentSource};
use vx_expr::BoundExpression;
use vx_reads::ColumnPieces;
use vx_split_rules::{RegistersSplits, SplitBy, SplitError};

/// The expression's column over all rows of a range, in pieces.
fn read_all<'a, S: SegmentSource>(
    alloc: Global,
    reader: &Reader<'a>,
    rows: Range<u64>,
    projection: &'a BoundExpression,
    source: &mut S,
    idle_limit: u64,
) -> Result<ColumnPieces, ReadRowsError>
    requires forwards { rows.start ≤ rows.end }
    requires inside { rows.end ≤ (reader_head (reader_data reader.now)).rows }
    requires bound { IsBoundTo projection.now (reader_head (reader_data reader.now)).dtype }
    ensures { ReadsSplit idle_limit result (reader_data reader.now) projection.now rows.start rows.end (S.state source.old) (S.state source.new) }
{
    let mask = Mask::new_true(alloc, rows.end - rows.start)?;
    match reader.projection_evaluation(alloc, rows, projection, mask) {
        Ok(state) => read_pieces(state, source, idle_limit),
        Err(_) => Err(ReadRowsError::Memory),
    }
}

/// The rows of the column between each two neighbours of the splits, which begin with its first row. Where these are all
/// rows of one of its pieces, none is copied.
fn cut(alloc: Global, whole: ColumnPieces, splits: &[u64]) -> Result<Vec<Column>, AllocError>
    requires first { get_or splits.now 0 0 ≡ 0 }
    requires within { AreWithin (length whole.values) splits.now }
    ensures { IfOk result (λ columns. AreSplitColumns (IsPartOf whole) splits.now columns.items) }
{
    let mut rest = UncutRows::of(alloc, whole)?;
    let mut columns = Vec::new(alloc);
    for place in 1..splits.len() {
        let part = rest.next_rows(alloc, splits[place] - splits[place - 1])?;
        columns.push(part)?;
    }
    drop(rest);
    Ok(columns)
}

/// The expression's column over so many rows, from the first on, between each two neighbours of the splits. Where there are
/// no two nothing is read.
fn read_between<'a, S: SegmentSource>(
    alloc: Global,
    reader: &Reader<'a>,
    rows: u64,
    splits: &[u64],
    projection: &'a BoundExpression,
    source: &mut S,
    idle_limit: u64,
) -> Result<Vec<Column>, ReadRowsError>
    requires inside { rows ≤ (reader_head (reader_data reader.now)).rows }
    requires bound { IsBoundTo projection.now (reader_head (reader_data reader.now)).dtype }
    requires first { get_or splits.now 0 0 ≡ 0 }
    requires within { AreWithin rows splits.now }
    ensures { ReadsBetween idle_limit result (reader_data reader.now) projection.now splits.now (S.state source.old) (S.state source.new) }
{
    if splits.len() < 2 {
        return Ok(Vec::new(alloc));
    }
    match read_all(alloc, reader, 0..rows, projection, source, idle_limit) {
        Ok(whole) => Ok(cut(alloc, whole, splits)?),
        Err(error) => Err(error),
    }
}

/// The expression's columns over all rows, one for each split: each segment that rows read is asked for once for each leaf,
/// whatever the splits are. Where there is no split nothing is read. Nothing is left in flight at the source that it asked.
pub fn read_rows<'a, S: SegmentSource>(
    alloc: Global,
    reader: &Reader<'a>,
    splits: &SplitBy,
    projection: &'a BoundExpression,
    source: &mut S,
    idle_limit: u64,
) -> Result<Vec<Column>, ReadRowsError>
    requires bound { IsBoundTo projection.now (reader_head (reader_data reader.now)).dtype }
    requires no_numbers { IsFalse (uses_row_number projection.now.term) }
    requires some { 0 < idle_limit }
    ensures { ReadsRows idle_limit splits.now result reader.now projection.now (S.state source.old) (S.state source.new) }
{
    let rows = 0..reader.row_count();
    match splits.splits(alloc, reader, &rows, &[]) {
        Ok(bounds) => read_between(
            alloc, reader, rows.end, &bounds, projection, source, idle_limit,
        ),
        Err(SplitError::ZeroSize) => Err(ReadRowsError::ZeroSize),
        Err(SplitError::Memory) => Err(ReadRowsError::Memory),
        Err(SplitError::OutOfRange) => unreachable!(),
    }
}
