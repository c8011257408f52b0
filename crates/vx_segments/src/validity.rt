//! The validity of a segment: which rows have a value.

ghost use Rattle.std.specs.Prelude.{◌≡◌, ℕ, ◌/◌, ◌<◌, ◌↔◌, ◌++◌, List, length, IsTrue, IfOk, IfSome, IsNone, false};
ghost use Rattle.vx_types.specs.Data.{Datum};
ghost use Rattle.vx_segments.specs.Parts.{AreBits, IsValidity, valid_bits};
ghost use Rattle.vx_segments.specs.Reading.{bits_read};
ghost use Rattle.vx_segments.specs.Segment.{validity_bytes};

use std::alloc::{AllocError, Global};
use vx_masks::Mask;
use vx_types::Nullability;

/// Whether the bytes are the bits of so many rows, with none set behind the last row.
pub(crate) fn are_bits(rows: u64, bytes: &[u8]) -> bool
    ensures { IsTrue result ↔ AreBits rows bytes.now }
{
    if bytes.len() as u64 != rows.div_ceil(8) {
        return false;
    }
    if rows % 8 == 0 {
        return true;
    }
    let last = bytes[(rows / 8) as usize];
    last >> ((rows % 8) as u32) == 0
}

/// The validity of so many rows, and the bytes behind it. None where no validity stands there.
pub(crate) fn split_validity(
    nullability: Nullability,
    rows: u64,
    bytes: &[u8],
) -> Option<(&[u8], &[u8])>
    ensures joined { IfSome result (λ parts. bytes.now ≡ parts.0.now ++ parts.1.now) }
    ensures validity { IfSome result (λ parts. IsValidity nullability rows parts.0.now) }
    ensures none { IsNone result → (values : List Datum) (rest : List ℕ) → length values ≡ rows → ¬ (bytes.now ≡ validity_bytes nullability values ++ rest) }
{
    let len = match nullability {
        Nullability::NonNullable => return Some(bytes.split_at(0)),
        Nullability::Nullable => rows.div_ceil(8),
    };
    if (bytes.len() as u64) < len {
        return None;
    }
    let (validity, rest) = bytes.split_at(len as usize);
    if are_bits(rows, validity) {
        Some((validity, rest))
    } else {
        None
    }
}

/// The mask of the bits of so many rows.
fn mask_of_bits(alloc: Global, rows: u64, bytes: &[u8]) -> Result<Mask, AllocError>
    requires { AreBits rows bytes.now }
    ensures { IfOk result (λ mask. mask ≡ bits_read rows bytes.now) }
{
    let read = Mask::read(alloc, rows, bytes)?;
    match read {
        Some(mask) => Ok(mask),
        None => unreachable!(),
    }
}

/// The mask of a validity.
pub(crate) fn mask_of(
    alloc: Global,
    nullability: Nullability,
    rows: u64,
    validity: &[u8],
) -> Result<Mask, AllocError>
    requires { IsValidity nullability rows validity.now }
    ensures { IfOk result (λ mask. mask ≡ valid_bits nullability rows validity.now) }
{
    match nullability {
        Nullability::NonNullable => Mask::new_true(alloc, rows),
        Nullability::Nullable => mask_of_bits(alloc, rows, validity),
    }
}
