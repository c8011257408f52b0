//! Columns of many rows, which are built here and told by their count and their last row.

ghost use Rattle.std.specs.Prelude.{◌≡◌, ◌≤◌, IfOk, IsTrue, length, map};
ghost use Rattle.std.specs.List.{AllByRecursion};
ghost use Rattle.vx_base.specs.Data.{utf8_type};
ghost use Rattle.vx_base.specs.declared.dtypes.Nullability.TheVariants.{Nullable};
ghost use Rattle.vx_base.specs.Slots.{IsShort};
ghost use Rattle.vx_base.specs.ValueViews.{datum};

use crate::built::texts_or_nulls;
use crate::column_calls::runs;
use crate::fields::number_of;
use std::alloc::{AllocError, Global};
use std::ops::Range;
use vx_base::{Column, ColumnParts, Text, Value, decode, encode};
use vx_notation::write_value;

/// The text of a row: its number, and null at each seventh row.
fn value_at(alloc: Global, row: u64) -> Value {
    if row % 7 == 6 {
        return Value::Null;
    }
    let text = format!(in alloc; "row {row}").unwrap_or(String::new(alloc));
    Value::Text(Text::from_string(text))
}

/// The values of the rows of a range; what has no room is left out.
fn values_of(alloc: Global, from: u64, to: u64) -> Vec<Value> {
    let mut values = Vec::new(alloc);
    for row in from..to {
        let _pushed = values.push(value_at(alloc, row)).ok();
    }
    values
}

/// The texts of the rows of a range.
fn texts_of(alloc: Global, from: u64, to: u64) -> Result<Column, AllocError>
    ensures { IfOk result (λ column. column.dtype ≡ utf8_type Nullable) }
{
    match Column::try_of(alloc, texts_or_nulls(), values_of(alloc, from, to)) {
        Ok(column) => Ok(column),
        Err(_) => Err(AllocError),
    }
}

/// Appends how many rows there are, and the last one; of none nothing.
fn write_told(alloc: Global, column: &Column, out: &mut String) -> Result<(), AllocError> {
    let rows = column.len();
    if rows == 0 {
        return Ok(());
    }
    let value = column.get(alloc, rows - 1).unwrap_or(Value::Null);
    write!(out, "{rows} rows, the last ").and(write_value(&value, out).or(Err(AllocError)))
}

/// The parts of a column, of two rows each.
fn parts_of(alloc: Global, count: u64) -> Result<Vec<Column>, AllocError>
    ensures { IfOk result (λ parts. AllByRecursion (λ part. part.dtype ≡ utf8_type Nullable) parts.items) }
{
    let mut parts = Vec::new(alloc);
    for part in 0..count {
        let row = part.saturating_mul(2);
        let texts = texts_of(alloc, row, row.saturating_add(2))?;
        parts.push(texts)?;
    }
    Ok(parts)
}

/// The column of that many parts.
fn joined_column(alloc: Global, count: u64) -> Result<Column, AllocError> {
    let parts = parts_of(alloc, count)?;
    Column::concat(alloc, texts_or_nulls(), parts)
}

/// Appends what is told of that many parts joined, which are the same as all their rows at once.
fn write_joined(
    alloc: Global,
    joined: &Column,
    count: u64,
    out: &mut String,
) -> Result<(), AllocError> {
    let whole = texts_of(alloc, 0, count.saturating_mul(2))?;
    let is_whole = whole.same(joined);
    drop(whole);
    if !is_whole {
        return out.push_str("other rows");
    }
    write_told(alloc, joined, out)
}

/// Whether the value's text, if it is one, has a length that a segment can hold.
fn is_short(value: &Value) -> bool
    ensures { IsTrue result → IsShort (datum value.now) }
{
    match value {
        Value::Text(text) => text.as_str().len() < 4294967296,
        _ => true,
    }
}

/// Whether each value's text has such a length.
pub(crate) fn are_short(values: &[Value]) -> bool
    ensures { IsTrue result → AllByRecursion IsShort (map datum values.now) }
{
    for (row, value) in values.iter().enumerate() {
        if !is_short(value) {
            return false;
        }
    }
    true
}

/// Appends what is told of the column that these bytes are read as, which is the same.
fn write_read(
    alloc: Global,
    column: &Column,
    bytes: &[u8],
    out: &mut String,
) -> Result<(), AllocError>
    requires { column.now.dtype ≡ utf8_type Nullable }
{
    write!(out, "{} bytes, ", bytes.len())?;
    let Ok(read) = decode(alloc, column.dtype(), column.len(), bytes) else {
        return out.push_str("other rows");
    };
    let written = if read.same(column) {
        write_told(alloc, &read, out)
    } else {
        out.push_str("other rows")
    };
    drop(read);
    written
}

/// How many bytes the column is written as, and what is read of them.
fn write_coded(alloc: Global, column: &Column, out: &mut String) -> Result<(), AllocError>
    requires { column.now.dtype ≡ utf8_type Nullable }
{
    let values = column.to_values(alloc)?;
    if !are_short(values.as_slice()) {
        return Ok(());
    }
    let bytes = encode(alloc, column).unwrap_or(Vec::new(alloc));
    write_read(alloc, column, bytes.as_slice(), out)
}

/// Appends how many rows there are, the last one, and how they lie.
pub(crate) fn write_lying(
    alloc: Global,
    what: &str,
    column: &Column,
    out: &mut String,
) -> Result<(), AllocError> {
    let lying = match column.parts() {
        ColumnParts::Packed(_) => ", packed one by one",
        ColumnParts::Runs(_, _) => ", in runs",
    };
    out.push_str(what)
        .and(write_told(alloc, column, out))
        .and(out.push_str(lying))
}

/// Appends it of the rows of a range.
fn write_range(
    alloc: Global,
    column: &Column,
    rows: Range<u64>,
    out: &mut String,
) -> Result<(), AllocError>
    requires forwards { rows.start ≤ rows.end }
    requires inside { rows.end ≤ length column.now.values }
{
    let range = column.slice(alloc, rows)?;
    let written = write_lying(alloc, "; of a range ", &range, out);
    drop(range);
    written
}

/// Appends it of the rows that aren't null.
fn write_filled(alloc: Global, column: &Column, out: &mut String) -> Result<(), AllocError> {
    let valid = column.validity(alloc)?;
    let filled = column.filter(alloc, &valid)?;
    let written = write_lying(alloc, "; without nulls ", &filled, out);
    drop(filled);
    written
}

/// Appends it of the rows of a range that aren't null.
fn write_filled_range(
    alloc: Global,
    column: &Column,
    rows: Range<u64>,
    out: &mut String,
) -> Result<(), AllocError>
    requires forwards { rows.start ≤ rows.end }
    requires inside { rows.end ≤ length column.now.values }
{
    let valid = column.validity(alloc)?;
    let mask = valid.slice(alloc, rows.start..rows.end)?;
    let filled = column.filter_range(alloc, rows, &mask)?;
    let written = write_lying(alloc, "; of the range without nulls ", &filled, out);
    drop(filled);
    written
}

/// Appends what is told of a column of runs, of its rows but the first and the last, and of those that aren't null.
fn write_runs(alloc: Global, column: &Column, out: &mut String) -> Result<(), AllocError> {
    write_lying(alloc, "", column, out)?;
    let rows = column.len();
    if rows < 2 {
        return Ok(());
    }
    write_range(alloc, column, 1..rows - 1, out)
        .and(write_filled(alloc, column, out))
        .and(write_filled_range(alloc, column, 1..rows - 1, out))
}

/// The answer to `big runs DTYPE | VALUES | ENDS`.
fn write_big_runs(alloc: Global, rest: &str, out: &mut String) -> Result<(), AllocError> {
    let Some(column) = runs(alloc, rest, out) else {
        return Ok(());
    };
    let written = write_runs(alloc, &column, out);
    drop(column);
    written
}

/// The answer to `big joined COUNT`, `big coded COUNT` and `big runs DTYPE | VALUES | ENDS`.
pub(crate) fn write_big(alloc: Global, rest: &str, out: &mut String) -> Result<(), AllocError> {
    let (word, told) = rest.split_once(' ').unwrap_or((rest, ""));
    let count = number_of(told);
    match word {
        "joined" => {
            let joined = joined_column(alloc, count)?;
            let written = write_joined(alloc, &joined, count, out);
            drop(joined);
            written
        }
        "coded" => {
            let texts = texts_of(alloc, 0, count)?;
            let written = write_coded(alloc, &texts, out);
            drop(texts);
            written
        }
        "runs" => write_big_runs(alloc, told, out),
        _ => Ok(()),
    }
}
