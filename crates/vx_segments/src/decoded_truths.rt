//! Decoding of truth values: by words, the validity too.

ghost use Rattle.std.specs.Prelude.{◌≡◌, List, false, length, map, IfOk, IsErrOf};
ghost use Rattle.std.specs.List.{AllByRecursion};
ghost use Rattle.vx_masks.specs.Rows.{NullsHold};
ghost use Rattle.vx_types.specs.Data.{Datum, bool_type, truth};
ghost use Rattle.vx_types.specs.Slots.{where_valid};
ghost use Rattle.vx_arrays.specs.Buffers.{Takes};
ghost use Rattle.vx_segments.specs.declared.decode_errors.DecodeError.TheVariants as errors;
ghost use Rattle.vx_segments.specs.Segment.{Spells};

use crate::decode_errors::DecodeError;
use crate::validity::{mask_of, split_validity};
use std::alloc::Global;
use vx_masks::Mask;
use vx_types::Nullability;

/// The truth values of so many rows that the bytes spell, and before them which rows have one.
pub(crate) fn decode_truths(
    alloc: Global,
    nullability: Nullability,
    rows: u64,
    bytes: &[u8],
) -> Result<(Mask, Mask), DecodeError>
    ensures valid { IfOk result (λ read. length read.0 ≡ rows) }
    ensures count { IfOk result (λ read. length read.1 ≡ rows) }
    ensures taken { IfOk result (λ read. AllByRecursion (Takes nullability) read.0) }
    ensures held { IfOk result (λ read. NullsHold false read.0 read.1) }
    ensures spelled { IfOk result (λ read. Spells (bool_type nullability) rows bytes.now (where_valid read.0 (map truth read.1))) }
    ensures refused { IsErrOf result DecodeError.BadSegment → (values : List Datum) → ¬ (Spells (bool_type nullability) rows bytes.now values) }
{
    let (validity, buffers) = match split_validity(nullability, rows, bytes) {
        Some(parts) => parts,
        None => return Err(DecodeError::BadSegment),
    };
    let truths = match Mask::read(alloc, rows, buffers)? {
        Some(truths) => truths,
        None => return Err(DecodeError::BadSegment),
    };
    let valid = mask_of(alloc, nullability, rows, validity)?;
    let both = truths.and(alloc, &valid)?;
    if both.same(&truths) {
        Ok((valid, truths))
    } else {
        Err(DecodeError::BadSegment)
    }
}
