//! Decoding of texts: one pass over their lengths, one test of all their bytes, and one copy of them.

ghost use Rattle.std.specs.Prelude.{◌≡◌, [], List, length, map, IfOk, IsErrOf};
ghost use Rattle.std.specs.List.{AllByRecursion};
ghost use Rattle.vx_masks.specs.Rows.{NullsHold};
ghost use Rattle.vx_types.specs.Data.{Datum, utf8_type, text};
ghost use Rattle.vx_types.specs.Slots.{where_valid};
ghost use Rattle.vx_arrays.specs.Buffers.{Takes};
ghost use Rattle.vx_segments.specs.declared.decode_errors.DecodeError.TheVariants as errors;
ghost use Rattle.vx_segments.specs.Segment.{Spells};

use crate::decode_errors::DecodeError;
use crate::text_ends::ends_of;
use crate::validity::{mask_of, split_validity};
use std::alloc::Global;
use vx_arrays::Texts;
use vx_masks::Mask;
use vx_types::Nullability;

/// The texts of so many rows that the bytes spell, and which rows have one.
pub(crate) fn decode_texts(
    alloc: Global,
    nullability: Nullability,
    rows: u64,
    bytes: &[u8],
) -> Result<(Mask, Texts), DecodeError>
    ensures valid { IfOk result (λ read. length read.0 ≡ rows) }
    ensures count { IfOk result (λ read. length read.1 ≡ rows) }
    ensures taken { IfOk result (λ read. AllByRecursion (Takes nullability) read.0) }
    ensures held { IfOk result (λ read. NullsHold [] read.0 read.1) }
    ensures spelled { IfOk result (λ read. Spells (utf8_type nullability) rows bytes.now (where_valid read.0 (map text read.1))) }
    ensures refused { IsErrOf result DecodeError.BadSegment → (values : List Datum) → ¬ (Spells (utf8_type nullability) rows bytes.now values) }
{
    let (validity, buffers) = match split_validity(nullability, rows, bytes) {
        Some(parts) => parts,
        None => return Err(DecodeError::BadSegment),
    };
    if ((buffers.len() / 4) as u64) < rows {
        return Err(DecodeError::BadSegment);
    }
    let (lengths, joined) = buffers.split_at(4 * rows as usize);
    let ends = match ends_of(alloc, rows, lengths, joined.len())? {
        Some(ends) => ends,
        None => return Err(DecodeError::BadSegment),
    };
    let texts = match Texts::of(alloc, joined, ends)? {
        Some(texts) => texts,
        None => return Err(DecodeError::BadSegment),
    };
    let valid = mask_of(alloc, nullability, rows, validity)?;
    let _count = texts.len();
    if texts.hold_none(&valid) {
        Ok((valid, texts))
    } else {
        Err(DecodeError::BadSegment)
    }
}
