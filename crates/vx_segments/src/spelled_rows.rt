//! Rows of a leaf that are still the bytes of their segment: they are decoded as they are asked for.

ghost use Rattle.std.specs.Prelude.{◌≡◌, ◌-◌, ◌≤◌, Some, None, length, slice_range, IfOk, IsErrOf};
ghost use Rattle.vx_masks.specs.Masks.{chosen};
ghost use Rattle.vx_types.specs.Leaf.{IsLeaf};
ghost use Rattle.vx_types.specs.Views.{data_type};
ghost use Rattle.vx_segments.specs.CodingsRead.{decoded_as};
ghost use Rattle.vx_segments.specs.declared.decode_errors.DecodeError.TheVariants as errors;
ghost use Rattle.vx_segments.specs.StillBytes.{AreSpelled};

use crate::codings::Coding;
use crate::decode_errors::DecodeError;
use crate::decoded_rows::{decode_chosen, decode_rows};
use std::alloc::{AllocError, Global};
use std::marker::Model;
use std::ops::Range;
use vx_columns::Column;
use vx_masks::Mask;
use vx_types::{DType, Nullability};

/// Rows of a leaf that are still the bytes of their segment, which spell them.
pub struct SpelledRows {
    dtype: DType,
    coding: Coding,
    rows: u64,
    bytes: Vec<u8>,
}

impl Drop for SpelledRows {
    fn drop(self) {
        let SpelledRows {
            dtype: _,
            coding: _,
            rows: _,
            bytes: _,
        } = self;
    }
}

impl Model for SpelledRows {
    ghost use Rattle.vx_types.specs.Columns.{ColumnData};
    ghost use Rattle.vx_types.specs.Codes.{coded_column};
    ghost use Rattle.vx_types.specs.Views.{data_type};
    ghost use Rattle.vx_segments.specs.CodingsRead.{decoded_as};
    ghost use Rattle.vx_segments.specs.StillBytes.{values_in, AreSpelled};

    ghost Value = { ColumnData };

    ghost coded = { coded_column };

    ghost view = { λ a. record { dtype = data_type a.dtype; values = values_in (decoded_as a.coding (data_type a.dtype) a.rows a.bytes.items) } };

    ghost invariant = { λ a. AreSpelled (data_type a.dtype) a.coding a.rows a.bytes.items };
}

/// Whether rows of a range are read at no cost of the others: of numbers that take no nulls, spelled one by one, only the
/// length of all bytes counts.
pub fn is_by_length(dtype: &DType, coding: Coding) -> bool {
    matches!(coding, Coding::Plain) && matches!(dtype, DType::Int(_, Nullability::NonNullable))
}

/// Tests that the bytes spell so many rows of a leaf dtype in the coding. No row is built of what `decode_rows` needn't build.
pub fn are_spelled(
    alloc: Global,
    dtype: &DType,
    coding: Coding,
    rows: u64,
    bytes: &[u8],
) -> Result<(), DecodeError>
    requires leaf { IsLeaf (data_type dtype.now) }
    ensures spelled { IfOk result (λ _. AreSpelled (data_type dtype.now) coding rows bytes.now) }
    ensures unread { IsErrOf result DecodeError.BadSegment → decoded_as coding (data_type dtype.now) rows bytes.now ≡ None }
{
    match decode_rows(alloc, dtype, coding, rows, 0..0, bytes) {
        Ok(none) => {
            drop(none);
            Ok(())
        }
        Err(error) => Err(error),
    }
}

impl SpelledRows {
    /// The rows that the bytes are known to spell. It takes no memory.
    pub fn of(dtype: DType, coding: Coding, rows: u64, bytes: Vec<u8>) -> SpelledRows
        requires { AreSpelled (data_type dtype) coding rows bytes.items }
        ensures dtype { result.dtype ≡ data_type dtype }
        ensures values { decoded_as coding (data_type dtype) rows bytes.items ≡ Some result.values }
    {
        SpelledRows {
            dtype,
            coding,
            rows,
            bytes,
        }
    }

    /// How many rows there are.
    pub fn len(&self) -> u64
        ensures { result ≡ length self.now.values }
    {
        self.rows
    }

    /// The dtype of the values. It takes no memory.
    pub fn dtype(&self) -> &DType
        ensures { data_type result.now ≡ self.now.dtype }
    {
        &self.dtype
    }

    /// The rows of a range, decoded.
    pub fn slice(&self, alloc: Global, rows: Range<u64>) -> Result<Column, AllocError>
        requires forwards { rows.start ≤ rows.end }
        requires inside { rows.end ≤ length self.now.values }
        ensures dtype { IfOk result (λ column. column.dtype ≡ self.now.dtype) }
        ensures values { IfOk result (λ column. column.values ≡ slice_range self.now.values rows.start rows.end) }
    {
        let bytes = self.bytes.as_slice();
        match decode_rows(alloc, &self.dtype, self.coding, self.rows, rows, bytes) {
            Ok(column) => Ok(column),
            Err(DecodeError::BadSegment) => unreachable!(),
            Err(DecodeError::Memory) => Err(AllocError),
        }
    }

    /// The rows of a range that the mask chooses of them, decoded.
    pub fn filter_range(
        &self,
        alloc: Global,
        rows: Range<u64>,
        mask: &Mask,
    ) -> Result<Column, AllocError>
        requires forwards { rows.start ≤ rows.end }
        requires inside { rows.end ≤ length self.now.values }
        requires masked { length mask.now ≡ rows.end - rows.start }
        ensures dtype { IfOk result (λ column. column.dtype ≡ self.now.dtype) }
        ensures values { IfOk result (λ column. column.values ≡ chosen mask.now (slice_range self.now.values rows.start rows.end)) }
    {
        let bytes = self.bytes.as_slice();
        match decode_chosen(
            alloc,
            &self.dtype,
            self.coding,
            self.rows,
            rows,
            mask,
            bytes,
        ) {
            Ok(column) => Ok(column),
            Err(DecodeError::BadSegment) => unreachable!(),
            Err(DecodeError::Memory) => Err(AllocError),
        }
    }
}
