//! Rows of numbers. Those of a range are read, and of the others only what decides whether the bytes spell any: where no
//! row can be null that is their length alone, and else each null's slot, which is looked at in one pass.

ghost use Rattle.std.specs.Prelude.{◌≡◌, ◌*◌, ◌-◌, ◌≤◌, ◌↔◌, List, pos, length, map, replicate, slice_range, IsTrue, IfOk, IfSome, IsNone, IsErrOf};
ghost use Rattle.std.specs.Int.{byte_len};
ghost use Rattle.std.specs.List.{AllByRecursion};
ghost use Rattle.vx_masks.specs.Rows.{Holds, NullsHold};
ghost use Rattle.vx_types.specs.declared.dtypes.Nullability.TheVariants.{Nullable};
ghost use Rattle.vx_types.specs.Data.{Datum, int_type, number};
ghost use Rattle.vx_types.specs.Slots.{where_valid, width_of};
ghost use Rattle.vx_arrays.specs.Buffers.{Takes};
ghost use Rattle.vx_arrays.specs.Numbers.{kind_in, numbers_in};
ghost use Rattle.vx_segments.specs.declared.codings.Coding.TheVariants.{Plain};
ghost use Rattle.vx_segments.specs.declared.decode_errors.DecodeError.TheVariants as errors;
ghost use Rattle.vx_segments.specs.Parts.{AreBits, IsValidity, valid_bits};
ghost use Rattle.vx_segments.specs.Reading.{numbers_read};
ghost use Rattle.vx_segments.specs.RowsRead.{SpellsRows};
ghost use Rattle.vx_segments.specs.Segment.{Spells};

use crate::decode_errors::DecodeError;
use crate::decoded_numbers::is_filled;
use crate::validity::{mask_of, split_validity};
use std::alloc::{AllocError, Global};
use std::ops::Range;
use vx_arrays::Numbers;
use vx_masks::Mask;
use vx_types::{IntKind, Nullability};

/// Whether all of the bytes are 0.
fn are_zero(bytes: &[u8]) -> bool
    ensures { IsTrue result ↔ (bytes.now ≡ replicate (length bytes.now) 0) }
{
    for byte in bytes {
        if *byte != 0 {
            return false;
        }
    }
    true
}

/// Whether the bytes of a row that is not valid are 0.
fn holds_zero(valid: bool, slot: &[u8]) -> bool
    ensures { IsTrue result ↔ Holds (replicate (length slot.now) 0) valid slot.now }
{
    valid || are_zero(slot)
}

/// Whether each row that is not valid has the number 0, by the bytes of all rows. It takes no memory.
fn hold_zero(kind: IntKind, rows: u64, valid: &Mask, slots: &[u8]) -> bool
    requires count { length valid.now ≡ rows }
    requires filled { length slots.now ≡ rows * byte_len (width_of kind) }
    ensures { IsTrue result ↔ NullsHold (pos 0) valid.now (numbers_read kind rows slots.now) }
{
    if valid.true_count() == rows {
        return true;
    }
    let width = kind.width() as usize;
    let mut rest = slots;
    for row in 0..rows {
        let (slot, after) = rest.split_at(width);
        if !holds_zero(valid.value(row), slot) {
            return false;
        }
        rest = after;
    }
    true
}

/// Which rows of a range have a number, where the dtype takes nulls. None where one of all rows has none, and its slot is not
/// 0.
fn nullable_rows(
    alloc: Global,
    kind: IntKind,
    rows: u64,
    range: Range<u64>,
    validity: &[u8],
    slots: &[u8],
) -> Result<Option<Mask>, AllocError>
    requires validity { AreBits rows validity.now }
    requires filled { length slots.now ≡ rows * byte_len (width_of kind) }
    requires forwards { range.start ≤ range.end }
    requires inside { range.end ≤ rows }
    ensures valid { IfOk result (λ found. IfSome found (λ mask. mask ≡ slice_range (valid_bits Nullable rows validity.now) range.start range.end)) }
    ensures held { IfOk result (λ found. IfSome found (λ _. NullsHold (pos 0) (valid_bits Nullable rows validity.now) (numbers_read kind rows slots.now))) }
    ensures none { IfOk result (λ found. IsNone found → ¬ (NullsHold (pos 0) (valid_bits Nullable rows validity.now) (numbers_read kind rows slots.now))) }
{
    let valid = mask_of(alloc, Nullability::Nullable, rows, validity)?;
    if !hold_zero(kind, rows, &valid, slots) {
        return Ok(None);
    }
    let some = valid.slice(alloc, range)?;
    Ok(Some(some))
}

/// Which rows of a range have a number. None where one of all rows has none, and its slot is not 0. Where the dtype takes no
/// nulls, the slots are not looked at.
fn valid_rows(
    alloc: Global,
    kind: IntKind,
    nullability: Nullability,
    rows: u64,
    range: Range<u64>,
    validity: &[u8],
    slots: &[u8],
) -> Result<Option<Mask>, AllocError>
    requires validity { IsValidity nullability rows validity.now }
    requires filled { length slots.now ≡ rows * byte_len (width_of kind) }
    requires forwards { range.start ≤ range.end }
    requires inside { range.end ≤ rows }
    ensures valid { IfOk result (λ found. IfSome found (λ mask. mask ≡ slice_range (valid_bits nullability rows validity.now) range.start range.end)) }
    ensures held { IfOk result (λ found. IfSome found (λ _. NullsHold (pos 0) (valid_bits nullability rows validity.now) (numbers_read kind rows slots.now))) }
    ensures none { IfOk result (λ found. IsNone found → ¬ (NullsHold (pos 0) (valid_bits nullability rows validity.now) (numbers_read kind rows slots.now))) }
{
    match nullability {
        Nullability::NonNullable => {
            let all = Mask::new_true(alloc, range.end - range.start)?;
            Ok(Some(all))
        }
        Nullability::Nullable => nullable_rows(alloc, kind, rows, range, validity, slots),
    }
}

/// The slots of a range of rows.
fn slots_of(kind: IntKind, from: u64, to: u64, slots: &[u8]) -> &[u8]
    requires forwards { from ≤ to }
    requires inside { to * byte_len (width_of kind) ≤ length slots.now }
    ensures range { result.now ≡ slice_range slots.now (from * byte_len (width_of kind)) (to * byte_len (width_of kind)) }
    ensures len { length result.now ≡ (to - from) * byte_len (width_of kind) }
{
    let width = kind.width();
    let begin = from * width;
    let end = to * width;
    &slots[begin as usize..end as usize]
}

/// The numbers of a range of rows, of so many rows that the bytes spell, and which rows of the range have one.
pub(crate) fn decode_number_rows(
    alloc: Global,
    kind: IntKind,
    nullability: Nullability,
    rows: u64,
    range: Range<u64>,
    bytes: &[u8],
) -> Result<(Mask, Numbers), DecodeError>
    requires forwards { range.start ≤ range.end }
    requires inside { range.end ≤ rows }
    ensures kind { IfOk result (λ read. kind_in read.1 ≡ kind) }
    ensures valid { IfOk result (λ read. length read.0 ≡ range.end - range.start) }
    ensures count { IfOk result (λ read. length (numbers_in read.1) ≡ range.end - range.start) }
    ensures taken { IfOk result (λ read. AllByRecursion (Takes nullability) read.0) }
    ensures held { IfOk result (λ read. NullsHold (pos 0) read.0 (numbers_in read.1)) }
    ensures spelled { IfOk result (λ read. SpellsRows Plain (int_type kind nullability) rows bytes.now range.start range.end (where_valid read.0 (map number (numbers_in read.1)))) }
    ensures refused { IsErrOf result DecodeError.BadSegment → (values : List Datum) → ¬ (Spells (int_type kind nullability) rows bytes.now values) }
{
    let (validity, slots) = match split_validity(nullability, rows, bytes) {
        Some(parts) => parts,
        None => return Err(DecodeError::BadSegment),
    };
    if !is_filled(kind, rows, slots) {
        return Err(DecodeError::BadSegment);
    }
    let from = range.start;
    let to = range.end;
    let valid = match valid_rows(alloc, kind, nullability, rows, from..to, validity, slots)? {
        Some(valid) => valid,
        None => return Err(DecodeError::BadSegment),
    };
    let part = slots_of(kind, from, to, slots);
    let numbers = Numbers::read(alloc, kind, (to - from) as usize, part)?;
    let _inside = numbers.len();
    Ok((valid, numbers))
}
