//! Decoding of numbers: one pass over their bytes, and for nullable ones one over the validity.

ghost use Rattle.std.specs.Prelude.{◌≡◌, ◌*◌, ◌↔◌, List, pos, length, map, IsTrue, IfOk, IsErrOf};
ghost use Rattle.std.specs.Int.{byte_len};
ghost use Rattle.std.specs.List.{AllByRecursion};
ghost use Rattle.vx_masks.specs.Rows.{NullsHold};
ghost use Rattle.vx_types.specs.Data.{Datum, int_type, number};
ghost use Rattle.vx_types.specs.Slots.{where_valid, width_of};
ghost use Rattle.vx_arrays.specs.Numbers.{kind_in, numbers_in};
ghost use Rattle.vx_arrays.specs.Buffers.{Takes};
ghost use Rattle.vx_segments.specs.declared.decode_errors.DecodeError.TheVariants as errors;
ghost use Rattle.vx_segments.specs.Segment.{Spells};

use crate::decode_errors::DecodeError;
use crate::validity::{mask_of, split_validity};
use std::alloc::Global;
use vx_arrays::Numbers;
use vx_masks::Mask;
use vx_types::{IntKind, Nullability};

/// Whether there are so many bytes as the numbers of so many rows have.
pub(crate) fn is_filled(kind: IntKind, rows: u64, bytes: &[u8]) -> bool
    ensures { IsTrue result ↔ (length bytes.now ≡ rows * byte_len (width_of kind)) }
{
    match rows.checked_mul(kind.width()) {
        Some(len) => len == bytes.len() as u64,
        None => false,
    }
}

/// The numbers of so many rows that the bytes spell, and which rows have one.
pub(crate) fn decode_numbers(
    alloc: Global,
    kind: IntKind,
    nullability: Nullability,
    rows: u64,
    bytes: &[u8],
) -> Result<(Mask, Numbers), DecodeError>
    ensures kind { IfOk result (λ read. kind_in read.1 ≡ kind) }
    ensures valid { IfOk result (λ read. length read.0 ≡ rows) }
    ensures count { IfOk result (λ read. length (numbers_in read.1) ≡ rows) }
    ensures taken { IfOk result (λ read. AllByRecursion (Takes nullability) read.0) }
    ensures held { IfOk result (λ read. NullsHold (pos 0) read.0 (numbers_in read.1)) }
    ensures spelled { IfOk result (λ read. Spells (int_type kind nullability) rows bytes.now (where_valid read.0 (map number (numbers_in read.1)))) }
    ensures refused { IsErrOf result DecodeError.BadSegment → (values : List Datum) → ¬ (Spells (int_type kind nullability) rows bytes.now values) }
{
    let (validity, buffers) = match split_validity(nullability, rows, bytes) {
        Some(parts) => parts,
        None => return Err(DecodeError::BadSegment),
    };
    if !is_filled(kind, rows, buffers) {
        return Err(DecodeError::BadSegment);
    }
    let valid = mask_of(alloc, nullability, rows, validity)?;
    let numbers = Numbers::read(alloc, kind, rows as usize, buffers)?;
    let _len = numbers.len();
    if numbers.hold_zero(&valid) {
        Ok((valid, numbers))
    } else {
        Err(DecodeError::BadSegment)
    }
}
