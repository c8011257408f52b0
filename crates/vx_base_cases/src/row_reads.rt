//! Rows of segments, read without the rest: of a range, or those of a range that bits choose. They must be what reading the
//! whole segment and then picking them gives.

ghost use Rattle.std.specs.Prelude.{◌≤◌, ◌-◌, ◌≡◌, length};
ghost use Rattle.vx_base.specs.Leaf.{IsLeaf};
ghost use Rattle.vx_base.specs.Views.{data_type};

use crate::codings::{coding_of, write_values};
use crate::fields::{bytes_of, number_of, read_dtype, three, two};
use crate::mask_calls::mask_of;
use std::alloc::{AllocError, Global};
use std::ops::Range;
use vx_base::{
    Coding, Column, DType, DecodeError, Mask, decode_as, decode_chosen, decode_rows, is_leaf,
};

/// A segment: the dtype of its rows, how it is coded, how many there are, and its bytes.
#[derive(Clone, Copy)]
struct Segment<'a> {
    dtype: &'a DType,
    coding: Coding,
    rows: u64,
    bytes: &'a [u8],
}

/// The rows of a range that a mask chooses, read from the whole segment.
fn of_whole(
    alloc: Global,
    segment: Segment<'_>,
    range: Range<u64>,
    mask: &Mask,
) -> Result<Column, DecodeError>
    requires leaf { IsLeaf (data_type segment.dtype.now) }
{
    let all = decode_as(
        alloc,
        segment.dtype,
        segment.coding,
        segment.rows,
        segment.bytes,
    )?;
    if range.end < range.start || all.len() < range.end || mask.len() != range.end - range.start {
        return Err(DecodeError::Memory);
    }
    let some = all.filter_range(alloc, range, mask)?;
    Ok(some)
}

/// Appends the rows, if reading the whole segment gives the same, or refuses it too.
fn write_alike(
    alloc: Global,
    one: &Result<Column, DecodeError>,
    other: &Result<Column, DecodeError>,
    out: &mut String,
) -> Result<(), AllocError> {
    match (one, other) {
        (Ok(one), Ok(other)) => {
            if one.same(other) {
                write_values(alloc, one, out)
            } else {
                out.push_str("other rows than those of the whole segment")
            }
        }
        (Err(DecodeError::BadSegment), Err(DecodeError::BadSegment)) => {
            out.push_str("bad segment")
        }
        (Err(DecodeError::Memory), _) => Ok(()),
        (_, Err(DecodeError::Memory)) => Ok(()),
        _ => out.push_str("another answer than that of the whole segment"),
    }
}

/// Appends the rows of a range that a mask chooses; all rows of it are read by the call for these, too.
fn write_chosen(
    alloc: Global,
    segment: Segment<'_>,
    start: u64,
    mask: &Mask,
    out: &mut String,
) -> Result<(), AllocError> {
    if !is_leaf(segment.dtype) || segment.rows < start || segment.rows - start < mask.len() {
        return Ok(());
    }
    let end = start + mask.len();
    let Segment {
        dtype,
        coding,
        rows,
        bytes,
    } = segment;
    let read = decode_chosen(alloc, dtype, coding, rows, start..end, mask, bytes);
    let picked = of_whole(alloc, segment, start..end, mask);
    let written = write_alike(alloc, &read, &picked, out);
    drop(read);
    drop(picked);
    written
}

/// Appends the rows of a range.
fn write_range(
    alloc: Global,
    segment: Segment<'_>,
    start: u64,
    end: u64,
    out: &mut String,
) -> Result<(), AllocError> {
    if !is_leaf(segment.dtype) || segment.rows < end || end < start {
        return Ok(());
    }
    let Segment {
        dtype,
        coding,
        rows,
        bytes,
    } = segment;
    let all = Mask::new_true(alloc, end - start)?;
    let read = decode_rows(alloc, dtype, coding, rows, start..end, bytes);
    let picked = of_whole(alloc, segment, start..end, &all);
    let written = write_alike(alloc, &read, &picked, out);
    drop(read);
    drop(picked);
    written
}

/// The answer to `read_rows CODING | DTYPE | ROWS | START | END | BYTES` and to `read_chosen CODING | DTYPE | ROWS | START |
/// BITS | BYTES`.
pub(crate) fn write_of_rows(
    alloc: Global,
    command: &str,
    rest: &str,
    out: &mut String,
) -> Result<(), AllocError> {
    let (coding, dtype, rest) = three(rest);
    let (rows, start, rest) = three(rest);
    let (end, bytes) = two(rest);
    let dtype = read_dtype(alloc, dtype);
    let bytes = bytes_of(alloc, bytes);
    let segment = Segment {
        dtype: &dtype,
        coding: coding_of(coding),
        rows: number_of(rows),
        bytes: bytes.as_slice(),
    };
    if command == "read_rows" {
        return write_range(alloc, segment, number_of(start), number_of(end), out);
    }
    match mask_of(alloc, end) {
        Some(mask) => write_chosen(alloc, segment, number_of(start), &mask, out),
        None => Ok(()),
    }
}
