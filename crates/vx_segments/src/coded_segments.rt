//! Decoding in each coding.

ghost use Rattle.std.specs.Prelude.{◌≡◌, Some, None, List, IfOk, IsErrOf};
ghost use Rattle.vx_types.specs.Data.{Datum};
ghost use Rattle.vx_types.specs.Leaf.{IsLeaf};
ghost use Rattle.vx_types.specs.Views.{data_type};
ghost use Rattle.vx_segments.specs.Codings.{SpellsAs};
ghost use Rattle.vx_segments.specs.CodingsRead.{decoded_as};
ghost use Rattle.vx_segments.specs.declared.decode_errors.DecodeError.TheVariants as errors;

use crate::codings::Coding;
use crate::constant_segments::decode_constant;
use crate::decode_errors::DecodeError;
use crate::decoding::decode;
use crate::run_segments::decode_runs;
use std::alloc::Global;
use vx_columns::Column;
use vx_types::DType;

/// The column of so many rows of a leaf dtype that the bytes spell in the coding.
fn read_as(
    alloc: Global,
    dtype: &DType,
    coding: Coding,
    rows: u64,
    bytes: &[u8],
) -> Result<Column, DecodeError>
    requires { IsLeaf (data_type dtype.now) }
    ensures dtype { IfOk result (λ column. column.dtype ≡ data_type dtype.now) }
    ensures spelled { IfOk result (λ column. SpellsAs coding (data_type dtype.now) rows bytes.now column.values) }
    ensures refused { IsErrOf result DecodeError.BadSegment → (values : List Datum) → ¬ (SpellsAs coding (data_type dtype.now) rows bytes.now values) }
{
    match coding {
        Coding::Plain => decode(alloc, dtype, rows, bytes),
        Coding::Constant => decode_constant(alloc, dtype, rows, bytes),
        Coding::Runs => decode_runs(alloc, dtype, rows, bytes),
    }
}

/// The column of so many rows of a leaf dtype that the bytes of a segment spell in its coding: row by row as `decode`
/// has them, or one value for all rows, or values that each fill rows, with where these end. A constant and runs become
/// a column of runs, and none of their rows is spread.
pub fn decode_as(
    alloc: Global,
    dtype: &DType,
    coding: Coding,
    rows: u64,
    bytes: &[u8],
) -> Result<Column, DecodeError>
    requires leaf { IsLeaf (data_type dtype.now) }
    ensures dtype { IfOk result (λ column. column.dtype ≡ data_type dtype.now) }
    ensures spelled { IfOk result (λ column. SpellsAs coding (data_type dtype.now) rows bytes.now column.values) }
    ensures refused { IsErrOf result DecodeError.BadSegment → (values : List Datum) → ¬ (SpellsAs coding (data_type dtype.now) rows bytes.now values) }
    ensures read { IfOk result (λ column. decoded_as coding (data_type dtype.now) rows bytes.now ≡ Some column.values) }
    ensures unread { IsErrOf result DecodeError.BadSegment → decoded_as coding (data_type dtype.now) rows bytes.now ≡ None }
{
    match read_as(alloc, dtype, coding, rows, bytes) {
        Ok(column) => Ok(column),
        Err(error) => Err(error),
    }
}
