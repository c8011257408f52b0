//! Filters over a column, each by itself.

ghost use Rattle.std.specs.Prelude.{◌≡◌, ◌+◌, ◌<◌, ◌≤◌, ◌^◌, length, true, IsTrue};
ghost use Rattle.vx_base.specs.ColumnCalls.{IsBool, IsUnsigned};
ghost use Rattle.vx_base.specs.Masks.{true_count};
ghost use Rattle.vx_expr.specs.Bound.{IsBoundTo};
ghost use Rattle.vx_expr.specs.Meaning.{is_strict};

use crate::answers::{write_error, write_mask};
use crate::evaluations::is_bool;
use crate::rows::mask_of;
use std::alloc::{AllocError, Global};
use vx_base::{Column, Mask, is_unsigned};
use vx_expr::{BoundExpression, bind};
use vx_expr_notation::spelled;
use vx_notation::{column_of, dtype_of};
use vx_reads::{ReaderError, dense_filter, filter_column, pushed_filter, sparse_filter};

/// The column that is written so, as `i64: 7 8`.
fn read_column(alloc: Global, text: &str) -> Option<Column> {
    let (dtype, values) = text.split_once(':').unwrap_or((text, ""));
    let dtype = dtype_of(alloc, dtype).ok()?;
    column_of(alloc, dtype, values).ok()
}

/// Rows of a column from one on, which of them are selected, and what the first one is called.
#[derive(Drop)]
struct Chosen {
    start: u64,
    first: u64,
    mask: Mask,
}

/// The rows that are written so: `1 10 101` are those from row 1 on, called 10 and so on.
fn chosen_of(alloc: Global, words: &str) -> Result<Chosen, AllocError> {
    let (start, words) = words.split_once(' ').unwrap_or((words, ""));
    let (first, signs) = words.split_once(' ').unwrap_or((words, ""));
    let mask = mask_of(alloc, signs, 0)?;
    Ok(Chosen {
        start: start.parse::<u64>().unwrap_or(0),
        first: first.parse::<u64>().unwrap_or(0),
        mask,
    })
}

/// Appends the rows that a filter keeps, or why it keeps none.
fn write_kept(
    alloc: Global,
    kept: Result<Mask, ReaderError>,
    out: &mut String,
) -> Result<(), AllocError> {
    match kept {
        Ok(kept) => {
            let written = write_mask(alloc, &kept, out);
            drop(kept);
            written
        }
        Err(error) => write_error(error, out),
    }
}

/// Whether the rows lie in the column, and their names are numbers of 64 bits.
fn is_among(column: &Column, chosen: &Chosen) -> bool
    ensures inside { IsTrue result → chosen.now.start + length chosen.now.mask ≤ length column.now.values }
    ensures few { IsTrue result → chosen.now.first + length chosen.now.mask < 2 ^ 64 }
{
    let rows = chosen.mask.len();
    rows <= column.len() && chosen.start <= column.len() - rows && chosen.first < u64::MAX - rows
}

/// Appends the rows that a filter over the column keeps.
fn write_filtered(
    alloc: Global,
    expression: &BoundExpression,
    command: &str,
    column: &Column,
    chosen: &Chosen,
    out: &mut String,
) -> Result<(), AllocError>
    requires { IsBoundTo expression.now column.now.dtype }
{
    if !is_among(column, chosen) || !is_bool(expression.dtype()) {
        return out.push_str(" out of range;");
    }
    let Chosen { start, first, mask } = chosen;
    let kept = match command {
        "sparse" => sparse_filter(alloc, expression, column, *start, *first, mask),
        "dense" => dense_filter(alloc, expression, column, *start, *first, mask),
        _ => filter_column(alloc, expression, column, *start, *first, mask),
    };
    write_kept(alloc, kept, out)
}

/// Whether a strict expression of truth values, unsigned codes, one for each selected row, and numbers of 64 bits.
fn is_pushed(expression: &BoundExpression, codes: &Column, chosen: &Chosen) -> bool
    ensures bool { IsTrue result → IsBool expression.now.dtype }
    ensures strict { IsTrue result → is_strict expression.now.term ≡ true }
    ensures unsigned { IsTrue result → IsUnsigned codes.now.dtype }
    ensures rows { IsTrue result → length codes.now.values ≡ true_count chosen.now.mask }
    ensures few { IsTrue result → chosen.now.start + length chosen.now.mask < 2 ^ 64 }
{
    is_bool(expression.dtype())
        && expression.is_strict()
        && is_unsigned(codes.dtype())
        && codes.len() == chosen.mask.true_count()
        && chosen.start < u64::MAX - chosen.mask.len()
}

/// Appends the selected rows at whose codes the expression is true of the values.
fn write_pushed(
    alloc: Global,
    expression: &BoundExpression,
    codes: &Column,
    values: &Column,
    chosen: &Chosen,
    out: &mut String,
) -> Result<(), AllocError>
    requires { IsBoundTo expression.now values.now.dtype }
{
    if !is_pushed(expression, codes, chosen) {
        return out.push_str(" not pushed;");
    }
    let Chosen { start, mask, .. } = chosen;
    let kept = pushed_filter(alloc, expression, 3, codes, values, *start, mask);
    write_kept(alloc, kept, out)
}

/// Appends what a filter of the expression over a column keeps; of values that are looked up, the codes stand behind ` | `.
fn write_bound(
    alloc: Global,
    expression: &BoundExpression,
    command: &str,
    column: &Column,
    chosen: &Chosen,
    codes: &str,
    out: &mut String,
) -> Result<(), AllocError>
    requires { IsBoundTo expression.now column.now.dtype }
{
    if command != "pushed" {
        return write_filtered(alloc, expression, command, column, chosen, out);
    }
    let Some(codes) = read_column(alloc, codes) else {
        return out.push_str(" no codes;");
    };
    let written = write_pushed(alloc, expression, &codes, column, chosen, out);
    drop(codes);
    written
}

/// Appends what a filter of the words over a column keeps.
fn write_over(
    alloc: Global,
    expression: &str,
    command: &str,
    column: &Column,
    chosen: &Chosen,
    codes: &str,
    out: &mut String,
) -> Result<(), AllocError> {
    let expr = spelled(alloc, expression)?;
    let bound = bind(alloc, &expr, column.dtype());
    drop(expr);
    match bound {
        Ok(expression) => {
            let written = write_bound(alloc, &expression, command, column, chosen, codes, out);
            drop(expression);
            written
        }
        Err(error) => write!(out, " {error};"),
    }
}

/// Appends what a filter over a column keeps, as `sparse 0 10 101 | i64: 5 null 7` asks.
pub(crate) fn write_filter(
    alloc: Global,
    expression: &str,
    command: &str,
    words: &str,
    out: &mut String,
) -> Result<(), AllocError> {
    let (words, text) = words.split_once(" | ").unwrap_or((words, ""));
    let (text, codes) = text.split_once(" | ").unwrap_or((text, ""));
    let chosen = chosen_of(alloc, words)?;
    let Some(column) = read_column(alloc, text) else {
        drop(chosen);
        return out.push_str(" no column;");
    };
    let written = write_over(alloc, expression, command, &column, &chosen, codes, out);
    drop(column);
    drop(chosen);
    written
}
