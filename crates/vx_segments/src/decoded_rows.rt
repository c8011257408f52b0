//! Rows of a segment: the column of those of a range, all of them or those that a mask chooses. Of the other rows only that
//! is looked at which decides whether the bytes spell any values.

ghost use Rattle.std.specs.Prelude.{◌≡◌, ◌-◌, ◌≤◌, Some, None, List, length, slice_range, IfOk, IsErrOf};
ghost use Rattle.vx_masks.specs.Masks.{chosen, NoneTrue};
ghost use Rattle.vx_types.specs.Data.{Datum, int_type, utf8_type};
ghost use Rattle.vx_types.specs.Leaf.{IsLeaf};
ghost use Rattle.vx_types.specs.Views.{data_type};
ghost use Rattle.vx_segments.specs.Codings.{SpellsAs, SpellsRuns};
ghost use Rattle.vx_segments.specs.CodingsRead.{decoded_as};
ghost use Rattle.vx_segments.specs.declared.codings.Coding.TheVariants.{Plain, Runs};
ghost use Rattle.vx_segments.specs.declared.decode_errors.DecodeError.TheVariants as errors;
ghost use Rattle.vx_segments.specs.RowsRead.{chosen_decoded, rows_decoded, SpellsChosen, SpellsRows};
ghost use Rattle.vx_segments.specs.Segment.{Spells};

use crate::codings::Coding;
use crate::constant_segments::decode_constant_rows;
use crate::decode_errors::DecodeError;
use crate::decoding::decode;
use crate::number_rows::decode_number_rows;
use crate::run_segments::decode_runs;
use crate::text_rows::decode_text_rows;
use std::alloc::{AllocError, Global};
use std::ops::Range;
use vx_arrays::Array;
use vx_columns::Column;
use vx_masks::Mask;
use vx_types::{DType, IntKind, Nullability};

/// The rows of a range, of so many numbers of a kind.
fn number_rows(
    alloc: Global,
    kind: IntKind,
    nullability: Nullability,
    rows: u64,
    range: Range<u64>,
    bytes: &[u8],
) -> Result<Column, DecodeError>
    requires forwards { range.start ≤ range.end }
    requires inside { range.end ≤ rows }
    ensures dtype { IfOk result (λ column. column.dtype ≡ int_type kind nullability) }
    ensures spelled { IfOk result (λ column. SpellsRows Plain (int_type kind nullability) rows bytes.now range.start range.end column.values) }
    ensures refused { IsErrOf result DecodeError.BadSegment → (values : List Datum) → ¬ (Spells (int_type kind nullability) rows bytes.now values) }
{
    match decode_number_rows(alloc, kind, nullability, rows, range, bytes) {
        Ok((validity, numbers)) => {
            let _inside = numbers.len();
            let array = Array::of_numbers(validity, numbers);
            Ok(Column::of_array(DType::Int(kind, nullability), array))
        }
        Err(error) => Err(error),
    }
}

/// The rows of a range, of so many texts.
fn text_rows(
    alloc: Global,
    nullability: Nullability,
    rows: u64,
    range: Range<u64>,
    bytes: &[u8],
) -> Result<Column, DecodeError>
    requires forwards { range.start ≤ range.end }
    requires inside { range.end ≤ rows }
    ensures dtype { IfOk result (λ column. column.dtype ≡ utf8_type nullability) }
    ensures spelled { IfOk result (λ column. SpellsRows Plain (utf8_type nullability) rows bytes.now range.start range.end column.values) }
    ensures refused { IsErrOf result DecodeError.BadSegment → (values : List Datum) → ¬ (Spells (utf8_type nullability) rows bytes.now values) }
{
    match decode_text_rows(alloc, nullability, rows, range, bytes) {
        Ok((validity, texts)) => {
            let _utf8 = texts.len();
            let array = Array::of_texts(validity, texts);
            Ok(Column::of_array(DType::Utf8(nullability), array))
        }
        Err(error) => Err(error),
    }
}

/// The rows of a range, of all rows, which are decoded: for truth values, which are masks of a bit a row.
fn rows_of_all(
    alloc: Global,
    dtype: &DType,
    rows: u64,
    range: Range<u64>,
    bytes: &[u8],
) -> Result<Column, DecodeError>
    requires leaf { IsLeaf (data_type dtype.now) }
    requires forwards { range.start ≤ range.end }
    requires inside { range.end ≤ rows }
    ensures dtype { IfOk result (λ column. column.dtype ≡ data_type dtype.now) }
    ensures spelled { IfOk result (λ column. SpellsRows Plain (data_type dtype.now) rows bytes.now range.start range.end column.values) }
    ensures refused { IsErrOf result DecodeError.BadSegment → (values : List Datum) → ¬ (Spells (data_type dtype.now) rows bytes.now values) }
{
    match decode(alloc, dtype, rows, bytes) {
        Ok(all) => {
            let some = all.slice(alloc, range)?;
            Ok(some)
        }
        Err(error) => Err(error),
    }
}

/// The rows of a range, of so many rows of a leaf dtype that are spelled one by one.
fn plain_rows(
    alloc: Global,
    dtype: &DType,
    rows: u64,
    range: Range<u64>,
    bytes: &[u8],
) -> Result<Column, DecodeError>
    requires leaf { IsLeaf (data_type dtype.now) }
    requires forwards { range.start ≤ range.end }
    requires inside { range.end ≤ rows }
    ensures dtype { IfOk result (λ column. column.dtype ≡ data_type dtype.now) }
    ensures spelled { IfOk result (λ column. SpellsRows Plain (data_type dtype.now) rows bytes.now range.start range.end column.values) }
    ensures refused { IsErrOf result DecodeError.BadSegment → (values : List Datum) → ¬ (Spells (data_type dtype.now) rows bytes.now values) }
{
    match dtype {
        DType::Int(kind, nullability) => {
            number_rows(alloc, *kind, *nullability, rows, range, bytes)
        }
        DType::Utf8(nullability) => text_rows(alloc, *nullability, rows, range, bytes),
        _ => rows_of_all(alloc, dtype, rows, range, bytes),
    }
}

/// The rows of a range, of so many rows that runs spell: the runs of the range alone are copied.
fn run_rows(
    alloc: Global,
    dtype: &DType,
    rows: u64,
    range: Range<u64>,
    bytes: &[u8],
) -> Result<Column, DecodeError>
    requires leaf { IsLeaf (data_type dtype.now) }
    requires forwards { range.start ≤ range.end }
    requires inside { range.end ≤ rows }
    ensures dtype { IfOk result (λ column. column.dtype ≡ data_type dtype.now) }
    ensures spelled { IfOk result (λ column. SpellsRows Runs (data_type dtype.now) rows bytes.now range.start range.end column.values) }
    ensures refused { IsErrOf result DecodeError.BadSegment → (values : List Datum) → ¬ (SpellsRuns (data_type dtype.now) rows bytes.now values) }
{
    match decode_runs(alloc, dtype, rows, bytes) {
        Ok(all) => {
            let some = all.slice(alloc, range)?;
            Ok(some)
        }
        Err(error) => Err(error),
    }
}

/// The rows of a range, of so many rows of a leaf dtype that the bytes spell in the coding.
fn read_rows(
    alloc: Global,
    dtype: &DType,
    coding: Coding,
    rows: u64,
    range: Range<u64>,
    bytes: &[u8],
) -> Result<Column, DecodeError>
    requires leaf { IsLeaf (data_type dtype.now) }
    requires forwards { range.start ≤ range.end }
    requires inside { range.end ≤ rows }
    ensures dtype { IfOk result (λ column. column.dtype ≡ data_type dtype.now) }
    ensures spelled { IfOk result (λ column. SpellsRows coding (data_type dtype.now) rows bytes.now range.start range.end column.values) }
    ensures refused { IsErrOf result DecodeError.BadSegment → (values : List Datum) → ¬ (SpellsAs coding (data_type dtype.now) rows bytes.now values) }
{
    match coding {
        Coding::Plain => plain_rows(alloc, dtype, rows, range, bytes),
        Coding::Constant => decode_constant_rows(alloc, dtype, rows, range, bytes),
        Coding::Runs => run_rows(alloc, dtype, rows, range, bytes),
    }
}

/// The column of the rows of a range, of so many rows of a leaf dtype that the bytes of a segment spell in its coding: what
/// `decode_as` and then `slice` would give, and refused where `decode_as` refuses. The other rows aren't built. Of numbers
/// that can't be null they aren't looked at: the number of all bytes tells whether they spell any. Of nullable numbers the
/// slots of nulls are looked at, and of texts the lengths and whether all bytes are well-formed. Of truth values the bits of
/// all rows are read, and of runs each run.
pub fn decode_rows(
    alloc: Global,
    dtype: &DType,
    coding: Coding,
    rows: u64,
    range: Range<u64>,
    bytes: &[u8],
) -> Result<Column, DecodeError>
    requires leaf { IsLeaf (data_type dtype.now) }
    requires forwards { range.start ≤ range.end }
    requires inside { range.end ≤ rows }
    ensures dtype { IfOk result (λ column. column.dtype ≡ data_type dtype.now) }
    ensures spelled { IfOk result (λ column. SpellsRows coding (data_type dtype.now) rows bytes.now range.start range.end column.values) }
    ensures refused { IsErrOf result DecodeError.BadSegment → (values : List Datum) → ¬ (SpellsAs coding (data_type dtype.now) rows bytes.now values) }
    ensures read { IfOk result (λ column. rows_decoded coding (data_type dtype.now) rows bytes.now range.start range.end ≡ Some column.values) }
    ensures unread { IsErrOf result DecodeError.BadSegment → decoded_as coding (data_type dtype.now) rows bytes.now ≡ None }
{
    match read_rows(alloc, dtype, coding, rows, range, bytes) {
        Ok(column) => Ok(column),
        Err(error) => Err(error),
    }
}

/// Two places of a mask, outside of which it chooses no row.
fn chosen_between(mask: &Mask) -> (u64, u64)
    ensures forwards { result.0 ≤ result.1 }
    ensures inside { result.1 ≤ length mask.now }
    ensures front { NoneTrue mask.now 0 result.0 }
    ensures back { NoneTrue mask.now result.1 (length mask.now) }
{
    let _rows = mask.len();
    match mask.first() {
        Some(first) => match mask.last() {
            Some(last) => {
                let end = last + 1;
                (first, end)
            }
            None => (0, 0),
        },
        None => (0, 0),
    }
}

/// The rows of a column that a part of a mask chooses.
fn filtered(
    alloc: Global,
    column: &Column,
    mask: &Mask,
    part: Range<u64>,
) -> Result<Column, AllocError>
    requires forwards { part.start ≤ part.end }
    requires inside { part.end ≤ length mask.now }
    requires masked { length column.now.values ≡ part.end - part.start }
    ensures dtype { IfOk result (λ some. some.dtype ≡ column.now.dtype) }
    ensures values { IfOk result (λ some. some.values ≡ chosen (slice_range mask.now part.start part.end) column.now.values) }
{
    let bits = mask.slice(alloc, part)?;
    let some = column.filter(alloc, &bits)?;
    Ok(some)
}

/// The column of those rows of a range that a mask chooses, of so many rows of a leaf dtype that the bytes of a segment spell
/// in its coding: what `decode_as` and then `filter_range` would give, and refused where `decode_as` refuses. It builds the
/// rows from the first chosen one to the last, and picks the chosen ones out of these; what `decode_rows` says of the others
/// holds here too.
pub fn decode_chosen(
    alloc: Global,
    dtype: &DType,
    coding: Coding,
    rows: u64,
    range: Range<u64>,
    mask: &Mask,
    bytes: &[u8],
) -> Result<Column, DecodeError>
    requires leaf { IsLeaf (data_type dtype.now) }
    requires forwards { range.start ≤ range.end }
    requires inside { range.end ≤ rows }
    requires masked { length mask.now ≡ range.end - range.start }
    ensures dtype { IfOk result (λ column. column.dtype ≡ data_type dtype.now) }
    ensures spelled { IfOk result (λ column. SpellsChosen coding (data_type dtype.now) rows bytes.now range.start range.end mask.now column.values) }
    ensures refused { IsErrOf result DecodeError.BadSegment → (values : List Datum) → ¬ (SpellsAs coding (data_type dtype.now) rows bytes.now values) }
    ensures read { IfOk result (λ column. chosen_decoded coding (data_type dtype.now) rows bytes.now range.start range.end mask.now ≡ Some column.values) }
    ensures unread { IsErrOf result DecodeError.BadSegment → decoded_as coding (data_type dtype.now) rows bytes.now ≡ None }
{
    let (front, back) = chosen_between(mask);
    let start = range.start;
    match decode_rows(
        alloc,
        dtype,
        coding,
        rows,
        start + front..start + back,
        bytes,
    ) {
        Ok(column) => {
            let some = filtered(alloc, &column, mask, front..back)?;
            Ok(some)
        }
        Err(error) => Err(error),
    }
}
