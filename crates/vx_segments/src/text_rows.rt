//! Rows of texts. The lengths of all rows are gone through once, and all bytes are tested to be well-formed; only the texts
//! of a range are copied.

ghost use Rattle.std.specs.Prelude.{◌≡◌, ℕ, ◌+◌, ◌*◌, ◌-◌, ◌≤◌, ◌↔◌, [], List, length, map, IsTrue, IfOk, IfSome, IsNone, IsErrOf, MatchOption};
ghost use Rattle.std.specs.List.{AllByRecursion};
ghost use Rattle.std.specs.Str.{IsCharBoundary, IsUtf8};
ghost use Rattle.vx_masks.specs.Rows.{Holds, NullsHold};
ghost use Rattle.vx_types.specs.Data.{Datum, utf8_type, text};
ghost use Rattle.vx_types.specs.Slots.{where_valid};
ghost use Rattle.vx_arrays.specs.Buffers.{Takes};
ghost use Rattle.vx_arrays.specs.Texts.{cut, AreEnds};
ghost use Rattle.vx_segments.specs.declared.codings.Coding.TheVariants.{Plain};
ghost use Rattle.vx_segments.specs.declared.decode_errors.DecodeError.TheVariants as errors;
ghost use Rattle.vx_segments.specs.Reading.{ends_read, lengths_read};
ghost use Rattle.vx_segments.specs.RowsRead.{SpellsRows};
ghost use Rattle.vx_segments.specs.Segment.{Spells};
ghost use Rattle.vx_segments.specs.TextRows.{LieBetween, LieFrom};

use crate::decode_errors::DecodeError;
use crate::text_ends::{ends_of, four_at};
use crate::validity::{mask_of, split_validity};
use std::alloc::{AllocError, Global};
use std::ops::Range;
use vx_arrays::Texts;
use vx_masks::Mask;
use vx_types::Nullability;

/// Whether a text of so many bytes that ends at the place ends between two characters, and has none where its row isn't
/// valid.
fn ends_well(buffer: &str, place: usize, len: u32, valid: bool) -> bool
    ensures { IsTrue result ↔ (IsCharBoundary buffer.now place × Holds 0 valid len) }
{
    (valid || len == 0) && buffer.is_char_boundary(place)
}

/// Where in the buffer the texts of some rows end, whose lengths the bytes spell: they begin at a place and lie one behind
/// the other. None where they don't lie in it so. It takes no memory.
fn place_behind(
    buffer: &str,
    lengths: &[u8],
    valid: &Mask,
    first: u64,
    count: u64,
    from: usize,
) -> Option<usize>
    requires rows { first + count ≤ length valid.now }
    requires lengths { length lengths.now ≡ 4 * count }
    requires within { from ≤ length buffer.now }
    ensures { MatchOption result ((to : ℕ) → ¬ (LieFrom buffer.now valid.now first from to (lengths_read count lengths.now))) (λ to. LieFrom buffer.now valid.now first from to (lengths_read count lengths.now)) }
{
    let _rows = valid.len();
    let mut place = from;
    let mut rest = lengths;
    for done in 0..count {
        let (len, more) = four_at(rest);
        if buffer.len() - place < len as usize {
            return None;
        }
        if !ends_well(buffer, place + len as usize, len, valid.value(first + done)) {
            return None;
        }
        place += len as usize;
        rest = more;
    }
    Some(place)
}

/// Where in the buffer the texts of a range of rows begin and end, where those of all rows lie in it one behind the other, up
/// to its end. It takes no memory.
fn places_of(
    buffer: &str,
    lengths: &[u8],
    valid: &Mask,
    rows: u64,
    range: Range<u64>,
) -> Option<(usize, usize)>
    requires count { length valid.now ≡ rows }
    requires lengths { length lengths.now ≡ 4 * rows }
    requires forwards { range.start ≤ range.end }
    requires inside { range.end ≤ rows }
    ensures lie { IfSome result (λ places. LieBetween buffer.now valid.now range.start range.end (lengths_read rows lengths.now) places.0 places.1) }
    ensures none { IsNone result → ¬ (LieFrom buffer.now valid.now 0 0 (length buffer.now) (lengths_read rows lengths.now)) }
{
    let count = range.end - range.start;
    let (front, others) = lengths.split_at(4 * range.start as usize);
    let (middle, back) = others.split_at(4 * count as usize);
    let from = match place_behind(buffer, front, valid, 0, range.start, 0) {
        Some(from) => from,
        None => return None,
    };
    let to = match place_behind(buffer, middle, valid, range.start, count, from) {
        Some(to) => to,
        None => return None,
    };
    match place_behind(buffer, back, valid, range.end, rows - range.end, to) {
        Some(end) => {
            if end == buffer.len() {
                Some((from, to))
            } else {
                None
            }
        }
        None => None,
    }
}

/// The texts of so many rows that fill the buffer, each of them well-formed.
fn texts_in(alloc: Global, rows: u64, lengths: &[u8], buffer: &[u8]) -> Result<Texts, AllocError>
    requires lengths { length lengths.now ≡ 4 * rows }
    requires fill { AreEnds 0 (length buffer.now) (ends_read rows lengths.now) }
    requires utf8 { AllByRecursion IsUtf8 (cut buffer.now 0 (ends_read rows lengths.now)) }
    ensures { IfOk result (λ texts. texts ≡ cut buffer.now 0 (ends_read rows lengths.now)) }
{
    let found = ends_of(alloc, rows, lengths, buffer.len())?;
    let ends = match found {
        Some(ends) => ends,
        None => unreachable!(),
    };
    let made = Texts::of(alloc, buffer, ends)?;
    match made {
        Some(texts) => Ok(texts),
        None => unreachable!(),
    }
}

/// The texts of a range of rows, of so many rows that the bytes spell, and which rows of the range have one.
pub(crate) fn decode_text_rows(
    alloc: Global,
    nullability: Nullability,
    rows: u64,
    range: Range<u64>,
    bytes: &[u8],
) -> Result<(Mask, Texts), DecodeError>
    requires forwards { range.start ≤ range.end }
    requires inside { range.end ≤ rows }
    ensures valid { IfOk result (λ read. length read.0 ≡ range.end - range.start) }
    ensures count { IfOk result (λ read. length read.1 ≡ range.end - range.start) }
    ensures taken { IfOk result (λ read. AllByRecursion (Takes nullability) read.0) }
    ensures held { IfOk result (λ read. NullsHold [] read.0 read.1) }
    ensures spelled { IfOk result (λ read. SpellsRows Plain (utf8_type nullability) rows bytes.now range.start range.end (where_valid read.0 (map text read.1))) }
    ensures refused { IsErrOf result DecodeError.BadSegment → (values : List Datum) → ¬ (Spells (utf8_type nullability) rows bytes.now values) }
{
    let (validity, buffers) = match split_validity(nullability, rows, bytes) {
        Some(parts) => parts,
        None => return Err(DecodeError::BadSegment),
    };
    if ((buffers.len() / 4) as u64) < rows {
        return Err(DecodeError::BadSegment);
    }
    let (lengths, joined) = buffers.split_at(4 * rows as usize);
    let buffer = match std::str::from_utf8(joined) {
        Ok(buffer) => buffer,
        Err(_) => return Err(DecodeError::BadSegment),
    };
    let valid = mask_of(alloc, nullability, rows, validity)?;
    let start = range.start;
    let end = range.end;
    let (from, to) = match places_of(buffer, lengths, &valid, rows, start..end) {
        Some(places) => places,
        None => return Err(DecodeError::BadSegment),
    };
    let middle = &lengths[4 * start as usize..4 * end as usize];
    let texts = texts_in(alloc, end - start, middle, &joined[from..to])?;
    let some = valid.slice(alloc, start..end)?;
    Ok((some, texts))
}
