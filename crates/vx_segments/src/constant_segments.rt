//! Decoding of a constant: the plain segment of one row, which fills all rows, or those of a range, and no bytes where
//! there are none.

ghost use Rattle.std.specs.Prelude.{◌≡◌, ◌<◌, ◌≤◌, List, [], ◌∷◌, length, replicate, OnOk, IfOk, IsErrOf};
ghost use Rattle.vx_types.specs.Data.{Datum};
ghost use Rattle.vx_types.specs.Leaf.{IsLeaf};
ghost use Rattle.vx_types.specs.Views.{data_type};
ghost use Rattle.vx_columns.specs.Runs.{spread};
ghost use Rattle.vx_segments.specs.Codings.{SpellsConstant};
ghost use Rattle.vx_segments.specs.declared.codings.Coding.TheVariants.{Constant};
ghost use Rattle.vx_segments.specs.declared.decode_errors.DecodeError.TheVariants as errors;
ghost use Rattle.vx_segments.specs.RowsRead.{SpellsRows};

use crate::decode_errors::DecodeError;
use crate::decoding::decode;
use std::alloc::{AllocError, Global};
use std::ops::Range;
use vx_columns::Column;
use vx_types::DType;

/// The column of no rows, where there are no bytes.
fn no_rows(alloc: Global, dtype: &DType, bytes: &[u8]) -> Result<Column, DecodeError>
    ensures dtype { IfOk result (λ column. column.dtype ≡ data_type dtype.now) }
    ensures values { IfOk result (λ column. column.values ≡ []) }
    ensures none { OnOk result (bytes.now ≡ []) }
    ensures refused { IsErrOf result DecodeError.BadSegment → ¬ (bytes.now ≡ []) }
{
    if !bytes.is_empty() {
        return Err(DecodeError::BadSegment);
    }
    let dtype = dtype.copy(alloc)?;
    let column = Column::empty(alloc, dtype)?;
    Ok(column)
}

/// The column of so many rows that all have the value of the one row.
fn fill_rows(alloc: Global, one: Column, rows: u64) -> Result<Column, AllocError>
    requires one { length one.values ≡ 1 }
    requires some { 0 < rows }
    ensures dtype { IfOk result (λ column. column.dtype ≡ one.dtype) }
    ensures values { IfOk result (λ column. column.values ≡ spread 0 one.values (rows ∷ [])) }
{
    let mut ends = Vec::new(alloc);
    ends.push(rows)?;
    one.fill(alloc, ends)
}

/// The column of so many rows that a constant spells.
pub(crate) fn decode_constant(
    alloc: Global,
    dtype: &DType,
    rows: u64,
    bytes: &[u8],
) -> Result<Column, DecodeError>
    requires leaf { IsLeaf (data_type dtype.now) }
    ensures dtype { IfOk result (λ column. column.dtype ≡ data_type dtype.now) }
    ensures spelled { IfOk result (λ column. SpellsConstant (data_type dtype.now) rows bytes.now column.values) }
    ensures refused { IsErrOf result DecodeError.BadSegment → (values : List Datum) → ¬ (SpellsConstant (data_type dtype.now) rows bytes.now values) }
{
    if rows == 0 {
        return no_rows(alloc, dtype, bytes);
    }
    match decode(alloc, dtype, 1, bytes) {
        Ok(one) => {
            let column = fill_rows(alloc, one, rows)?;
            Ok(column)
        }
        Err(error) => Err(error),
    }
}

/// The column of so many rows, perhaps of none, that all have the value of the one row.
fn fill_some(alloc: Global, one: Column, rows: u64) -> Result<Column, AllocError>
    requires one { length one.values ≡ 1 }
    ensures dtype { IfOk result (λ column. column.dtype ≡ one.dtype) }
    ensures values { IfOk result (λ column. (value : Datum) → one.values ≡ value ∷ [] → column.values ≡ replicate rows value) }
{
    if rows == 0 {
        let none = one.slice(alloc, 0..0)?;
        return Ok(none);
    }
    let column = fill_rows(alloc, one, rows)?;
    Ok(column)
}

/// The column of the rows of a range, of so many rows that a constant spells.
pub(crate) fn decode_constant_rows(
    alloc: Global,
    dtype: &DType,
    rows: u64,
    range: Range<u64>,
    bytes: &[u8],
) -> Result<Column, DecodeError>
    requires leaf { IsLeaf (data_type dtype.now) }
    requires forwards { range.start ≤ range.end }
    requires inside { range.end ≤ rows }
    ensures dtype { IfOk result (λ column. column.dtype ≡ data_type dtype.now) }
    ensures spelled { IfOk result (λ column. SpellsRows Constant (data_type dtype.now) rows bytes.now range.start range.end column.values) }
    ensures refused { IsErrOf result DecodeError.BadSegment → (values : List Datum) → ¬ (SpellsConstant (data_type dtype.now) rows bytes.now values) }
{
    if rows == 0 {
        return match no_rows(alloc, dtype, bytes) {
            Ok(none) => Ok(none),
            Err(error) => Err(error),
        };
    }
    match decode(alloc, dtype, 1, bytes) {
        Ok(one) => {
            let column = fill_some(alloc, one, range.end - range.start)?;
            Ok(column)
        }
        Err(error) => Err(error),
    }
}
