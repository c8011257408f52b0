//! Decoding: the column whose values the bytes of a segment spell.

ghost use Rattle.std.specs.Prelude.{◌≡◌, Some, None, List, IfOk, IsErrOf};
ghost use Rattle.vx_types.specs.Data.{Datum, bool_type, int_type, utf8_type};
ghost use Rattle.vx_types.specs.Leaf.{IsLeaf};
ghost use Rattle.vx_types.specs.Views.{data_type};
ghost use Rattle.vx_segments.specs.Segment.{Spells};
ghost use Rattle.vx_segments.specs.Reading.{decoded};
ghost use Rattle.vx_segments.specs.declared.decode_errors.DecodeError.TheVariants as errors;

use crate::decode_errors::DecodeError;
use crate::decoded_numbers::decode_numbers;
use crate::decoded_texts::decode_texts;
use crate::decoded_truths::decode_truths;
use std::alloc::Global;
use vx_arrays::Array;
use vx_columns::Column;
use vx_types::{DType, IntKind, Nullability};

/// The column of so many truth values that the bytes spell.
fn truths(
    alloc: Global,
    nullability: Nullability,
    rows: u64,
    bytes: &[u8],
) -> Result<Column, DecodeError>
    ensures dtype { IfOk result (λ column. column.dtype ≡ bool_type nullability) }
    ensures spelled { IfOk result (λ column. Spells (bool_type nullability) rows bytes.now column.values) }
    ensures refused { IsErrOf result DecodeError.BadSegment → (values : List Datum) → ¬ (Spells (bool_type nullability) rows bytes.now values) }
{
    match decode_truths(alloc, nullability, rows, bytes) {
        Ok((validity, truths)) => {
            let rows = Array::of_truths(validity, truths);
            Ok(Column::of_array(DType::Bool(nullability), rows))
        }
        Err(error) => Err(error),
    }
}

/// The column of so many numbers of a kind that the bytes spell.
fn numbers(
    alloc: Global,
    kind: IntKind,
    nullability: Nullability,
    rows: u64,
    bytes: &[u8],
) -> Result<Column, DecodeError>
    ensures dtype { IfOk result (λ column. column.dtype ≡ int_type kind nullability) }
    ensures spelled { IfOk result (λ column. Spells (int_type kind nullability) rows bytes.now column.values) }
    ensures refused { IsErrOf result DecodeError.BadSegment → (values : List Datum) → ¬ (Spells (int_type kind nullability) rows bytes.now values) }
{
    match decode_numbers(alloc, kind, nullability, rows, bytes) {
        Ok((validity, numbers)) => {
            let _inside = numbers.len();
            let rows = Array::of_numbers(validity, numbers);
            Ok(Column::of_array(DType::Int(kind, nullability), rows))
        }
        Err(error) => Err(error),
    }
}

/// The column of so many texts that the bytes spell.
fn texts(
    alloc: Global,
    nullability: Nullability,
    rows: u64,
    bytes: &[u8],
) -> Result<Column, DecodeError>
    ensures dtype { IfOk result (λ column. column.dtype ≡ utf8_type nullability) }
    ensures spelled { IfOk result (λ column. Spells (utf8_type nullability) rows bytes.now column.values) }
    ensures refused { IsErrOf result DecodeError.BadSegment → (values : List Datum) → ¬ (Spells (utf8_type nullability) rows bytes.now values) }
{
    match decode_texts(alloc, nullability, rows, bytes) {
        Ok((validity, texts)) => {
            let _utf8 = texts.len();
            let rows = Array::of_texts(validity, texts);
            Ok(Column::of_array(DType::Utf8(nullability), rows))
        }
        Err(error) => Err(error),
    }
}

/// The column of so many rows of a leaf dtype that the bytes spell.
fn leaf(alloc: Global, dtype: &DType, rows: u64, bytes: &[u8]) -> Result<Column, DecodeError>
    requires { IsLeaf (data_type dtype.now) }
    ensures dtype { IfOk result (λ column. column.dtype ≡ data_type dtype.now) }
    ensures spelled { IfOk result (λ column. Spells (data_type dtype.now) rows bytes.now column.values) }
    ensures refused { IsErrOf result DecodeError.BadSegment → (values : List Datum) → ¬ (Spells (data_type dtype.now) rows bytes.now values) }
{
    match dtype {
        DType::Bool(nullability) => truths(alloc, *nullability, rows, bytes),
        DType::Int(kind, nullability) => numbers(alloc, *kind, *nullability, rows, bytes),
        DType::Utf8(nullability) => texts(alloc, *nullability, rows, bytes),
        _ => Err(DecodeError::BadSegment),
    }
}

/// The column of so many rows of a leaf dtype that the bytes of a segment spell: the validity of a
/// nullable one, and then truth values, 8 to a byte, numbers, lowest byte first, or the lengths of all
/// texts and the texts.
pub fn decode(alloc: Global, dtype: &DType, rows: u64, bytes: &[u8]) -> Result<Column, DecodeError>
    requires leaf { IsLeaf (data_type dtype.now) }
    ensures dtype { IfOk result (λ column. column.dtype ≡ data_type dtype.now) }
    ensures spelled { IfOk result (λ column. Spells (data_type dtype.now) rows bytes.now column.values) }
    ensures refused { IsErrOf result DecodeError.BadSegment → (values : List Datum) → ¬ (Spells (data_type dtype.now) rows bytes.now values) }
    ensures read { IfOk result (λ column. decoded (data_type dtype.now) rows bytes.now ≡ Some column.values) }
    ensures unread { IsErrOf result DecodeError.BadSegment → decoded (data_type dtype.now) rows bytes.now ≡ None }
{
    match leaf(alloc, dtype, rows, bytes) {
        Ok(column) => Ok(column),
        Err(error) => Err(error),
    }
}
