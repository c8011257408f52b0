//! Segments in each coding, read and written.

ghost use Rattle.std.specs.Prelude.{◌<◌, ◌^◌, length, IfSome};
ghost use Rattle.std.specs.List.{AllByRecursion};
ghost use Rattle.vx_base.specs.Leaf.{IsLeaf};
ghost use Rattle.vx_base.specs.Slots.{IsShort};

use crate::big::{are_short, write_lying};
use crate::fields::{bytes_of, list_of, number_of, read_dtype, three, two, write_bytes};
use std::alloc::{AllocError, Global};
use vx_base::{Coding, Column, DType, DecodeError, decode_as, encode_as, is_leaf, spelled_len};
use vx_notation::{column_of, column_text, values_of};

/// The coding of that name; any other word is `plain`.
pub(crate) fn coding_of(word: &str) -> Coding {
    match word {
        "constant" => Coding::Constant,
        "runs" => Coding::Runs,
        _ => Coding::Plain,
    }
}

/// How many bytes the column's spelling has, if it has one.
fn told_len(column: &Column, coding: Coding) -> Option<u64>
    requires leaf { IsLeaf column.now.dtype }
    requires short { AllByRecursion IsShort column.now.values }
    requires few { length column.now.values < 2 ^ 32 }
{
    match coding {
        Coding::Constant => match column.first_other() {
            Some(_) => None,
            None => spelled_len(column, Coding::Constant),
        },
        Coding::Plain => spelled_len(column, Coding::Plain),
        Coding::Runs => spelled_len(column, Coding::Runs),
    }
}

/// Appends the bytes, of which there are as many as was told.
fn write_told_bytes(told: Option<u64>, bytes: &[u8], out: &mut String) -> Result<(), AllocError> {
    if told == Some(bytes.len() as u64) {
        write_bytes(bytes, out)
    } else {
        out.push_str("other bytes than were told")
    }
}

/// Appends the bytes that the column is written as, or why it isn't.
fn write_spelled(
    alloc: Global,
    column: &Column,
    coding: Coding,
    out: &mut String,
) -> Result<(), AllocError>
    requires leaf { IsLeaf column.now.dtype }
    requires short { AllByRecursion IsShort column.now.values }
{
    if column.len() >= 4294967296 {
        return out.push_str("too many rows");
    }
    match encode_as(alloc, column, coding) {
        Ok(bytes) => write_told_bytes(told_len(column, coding), bytes.as_slice(), out),
        Err(error) => write!(out, "{error}"),
    }
}

/// Appends the column: its values, or where there are many, how many, the last one, and how they lie.
pub(crate) fn write_values(
    alloc: Global,
    column: &Column,
    out: &mut String,
) -> Result<(), AllocError> {
    if column.len() > 99 {
        return write_lying(alloc, "", column, out);
    }
    let text = column_text(alloc, column).unwrap_or(String::new(alloc));
    out.push_str(text.as_str())
}

/// Appends the column that is read, where it is written again as the same bytes, if its rows are few enough for that.
fn write_read(
    alloc: Global,
    column: &Column,
    coding: Coding,
    bytes: &[u8],
    out: &mut String,
) -> Result<(), AllocError>
    requires leaf { IsLeaf column.now.dtype }
    requires short { AllByRecursion IsShort column.now.values }
{
    if column.len() < 4294967296 {
        let written = encode_as(alloc, column, coding).unwrap_or(Vec::new(alloc));
        let told = told_len(column, coding);
        if written.as_slice() != bytes || told != Some(bytes.len() as u64) {
            return out.push_str("written as other bytes");
        }
    }
    write_values(alloc, column, out)
}

/// The column of so many rows that the bytes spell.
fn write_decoded(
    alloc: Global,
    coding: Coding,
    dtype: &DType,
    rows: u64,
    bytes: &[u8],
    out: &mut String,
) -> Result<(), AllocError> {
    if !is_leaf(dtype) {
        return Ok(());
    }
    match decode_as(alloc, dtype, coding, rows, bytes) {
        Ok(column) => {
            let written = write_read(alloc, &column, coding, bytes, out);
            drop(column);
            written
        }
        Err(DecodeError::BadSegment) => out.push_str("bad segment"),
        Err(DecodeError::Memory) => Ok(()),
    }
}

/// The answer to `read_as CODING | DTYPE | ROWS | BYTES`.
fn write_read_as(alloc: Global, rest: &str, out: &mut String) -> Result<(), AllocError> {
    let (coding, rest) = two(rest);
    let (dtype, rows, bytes) = three(rest);
    let dtype = read_dtype(alloc, dtype);
    let bytes = bytes_of(alloc, bytes);
    let coding = coding_of(coding);
    write_decoded(
        alloc,
        coding,
        &dtype,
        number_of(rows),
        bytes.as_slice(),
        out,
    )
}

/// Appends the bytes that a column of a leaf dtype and of short texts is written as.
fn write_short(
    alloc: Global,
    column: &Column,
    coding: Coding,
    out: &mut String,
) -> Result<(), AllocError> {
    if !is_leaf(column.dtype()) {
        return Ok(());
    }
    let values = column.to_values(alloc)?;
    if !are_short(values.as_slice()) {
        return Ok(());
    }
    write_spelled(alloc, column, coding, out)
}

/// The answer to `spell CODING | DTYPE | VALUES`.
fn write_spell(alloc: Global, rest: &str, out: &mut String) -> Result<(), AllocError> {
    let (coding, dtype, words) = three(rest);
    let Ok(column) = column_of(alloc, read_dtype(alloc, dtype), words) else {
        return Ok(());
    };
    let written = write_short(alloc, &column, coding_of(coding), out);
    drop(column);
    written
}

/// The column of runs, whose texts are short, of a leaf dtype.
fn short_runs(alloc: Global, dtype: &str, words: &str, ends: &str) -> Option<Column>
    ensures leaf { IfSome result (λ column. IsLeaf column.dtype) }
    ensures short { IfSome result (λ column. AllByRecursion IsShort column.values) }
{
    let dtype = read_dtype(alloc, dtype);
    let values = values_of(alloc, words).unwrap_or(Vec::new(alloc));
    if !is_leaf(&dtype) {
        return None;
    }
    if !are_short(values.as_slice()) {
        return None;
    }
    match Column::runs(alloc, dtype, values, list_of(alloc, ends)) {
        Ok(column) => Some(column),
        Err(_) => None,
    }
}

/// The answer to `spell_runs CODING | DTYPE | VALUES | ENDS`.
fn write_spell_runs(alloc: Global, rest: &str, out: &mut String) -> Result<(), AllocError> {
    let (coding, rest) = two(rest);
    let (dtype, words, ends) = three(rest);
    let Some(column) = short_runs(alloc, dtype, words, ends) else {
        return Ok(());
    };
    let written = write_spelled(alloc, &column, coding_of(coding), out);
    drop(column);
    written
}

/// The answer to a command about a coding.
pub(crate) fn write_of_codings(
    alloc: Global,
    command: &str,
    rest: &str,
    out: &mut String,
) -> Result<(), AllocError> {
    match command {
        "read_as" => write_read_as(alloc, rest, out),
        "spell" => write_spell(alloc, rest, out),
        _ => write_spell_runs(alloc, rest, out),
    }
}
