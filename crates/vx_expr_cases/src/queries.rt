//! What is asked of an expression.

use crate::case_states::{CaseState, numbers_of};
use std::alloc::{AllocError, Global};
use vx_base::{Column, ColumnParts, DType, Text, Value};
use vx_expr::{ApplyError, BoundExpression, apply};
use vx_notation::{column_text, dtype_of, dtype_text, write_value};

/// Appends the printed form of a dtype.
pub(crate) fn write_dtype(
    alloc: Global,
    dtype: &DType,
    out: &mut String,
) -> Result<(), AllocError> {
    match dtype_text(alloc, dtype) {
        Ok(text) => out.push_str(text.as_str()),
        Err(_) => Ok(()),
    }
}

/// Appends printed letters, with `\n` for a line's end.
fn write_letters(printed: &str, out: &mut String) -> Result<(), AllocError> {
    for letter in printed.chars() {
        if letter == '\n' {
            out.push_str("\\n")?;
        } else {
            out.push(letter)?;
        }
    }
    Ok(())
}

/// The printed form of a copy.
fn text_of_copy(alloc: Global, bound: &BoundExpression) -> Result<Vec<u8>, AllocError> {
    let copied = bound.copy(alloc)?;
    let text = copied.text(alloc);
    drop(copied);
    text
}

/// The printed form of an expression, which is that of its copies.
pub(crate) fn write_text(
    alloc: Global,
    bound: &BoundExpression,
    out: &mut String,
) -> Result<(), AllocError> {
    let copied = text_of_copy(alloc, bound)?;
    let text = bound.text(alloc)?;
    if text.as_slice() != copied.as_slice() {
        return out.push_str("printed in another way than a copy");
    }
    match String::from_utf8(text) {
        Ok(printed) => write_letters(printed.as_str(), out),
        Err(_) => Ok(()),
    }
}

/// What the expression looks at.
fn write_looks(bound: &BoundExpression, out: &mut String) -> Result<(), AllocError> {
    let looks = [
        (bound.is_root(), "itself"),
        (bound.is_strict(), "strict"),
        (bound.uses_root(), "root"),
        (bound.uses_row_idx(), "row_idx"),
        (bound.uses_bound(), "bound"),
    ];
    let mut blank = "";
    for (holds, word) in looks {
        if holds {
            write!(out, "{blank}{word}")?;
            blank = " ";
        }
    }
    if blank.is_empty() {
        out.push_str("nothing")
    } else {
        Ok(())
    }
}

/// Appends names.
fn write_names(names: &[Text], out: &mut String) -> Result<(), AllocError> {
    out.push_str("fields")?;
    for name in names {
        write!(out, " {}", name.as_str())?;
    }
    Ok(())
}

/// The names of the fields that are got from the root.
fn write_fields(
    alloc: Global,
    bound: &BoundExpression,
    out: &mut String,
) -> Result<(), AllocError> {
    let Some(names) = bound.named_fields(alloc)? else {
        return out.push_str("the whole root");
    };
    let written = write_names(names.as_slice(), out);
    drop(names);
    written
}

/// Appends a value, where there is one.
fn write_end(value: Option<&Value>, out: &mut String) -> Result<(), AllocError> {
    out.push(' ')?;
    match value {
        Some(value) if write_value(value, out).is_ok() => Ok(()),
        _ => Err(AllocError),
    }
}

/// How many values the column has, with the first and the last.
fn write_ends(alloc: Global, column: &Column, out: &mut String) -> Result<(), AllocError> {
    let values = column.to_values(alloc)?;
    let written = write!(out, "{} rows:", values.len())
        .and(write_end(values.first(), out))
        .and(write_end(values.last(), out));
    drop(values);
    written
}

/// What the expression gives over the rows; rows that it can't be asked of are want of memory.
fn applied(alloc: Global, case_state: &CaseState) -> Result<Column, ApplyError> {
    let numbers = numbers_of(alloc, case_state.first_row, case_state.rows.len())?;
    let is_bound = case_state
        .expression
        .is_root_bound_to(case_state.rows.dtype());
    let given = if numbers.len() != case_state.rows.len() || !is_bound {
        Err(ApplyError::Memory)
    } else {
        apply(alloc, &case_state.expression, &case_state.rows, &numbers)
    };
    drop(numbers);
    given
}

/// The column, whole, and whether it lies in runs.
fn write_whole(alloc: Global, column: &Column, out: &mut String) -> Result<(), AllocError> {
    let Ok(text) = column_text(alloc, column) else {
        return Ok(());
    };
    out.push_str(text.as_str())?;
    if let ColumnParts::Runs(_, _) = column.parts() {
        out.push_str(", in runs")?;
    }
    Ok(())
}

/// The column, whole or by its ends, or its first fault; want of memory is nothing.
fn write_given(
    alloc: Global,
    given: &Result<Column, ApplyError>,
    whole: bool,
    out: &mut String,
) -> Result<(), AllocError> {
    match given {
        Ok(column) if !whole => write_ends(alloc, column, out),
        Ok(column) => write_whole(alloc, column, out),
        Err(ApplyError::EvalFault(row)) => write!(out, "fault at row {row}"),
        Err(ApplyError::Memory) => Ok(()),
    }
}

/// The column that the expression gives over the rows.
fn write_applied(
    alloc: Global,
    case_state: &CaseState,
    whole: bool,
    out: &mut String,
) -> Result<(), AllocError> {
    let given = applied(alloc, case_state);
    let written = write_given(alloc, &given, whole, out);
    drop(given);
    written
}

/// Whether the expression, and its copy, takes roots of a dtype.
fn write_takes(
    alloc: Global,
    bound: &BoundExpression,
    dtype: &DType,
    out: &mut String,
) -> Result<(), AllocError> {
    let takes = bound.is_root_bound_to(dtype);
    let copied = bound.copy(alloc)?;
    let is_same = copied.is_root_bound_to(dtype) == takes;
    drop(copied);
    if !is_same {
        return out.push_str("another answer than of a copy");
    }
    out.push_str(if takes { "yes" } else { "no" })
}

/// Whether the expression takes roots of the dtype that is written so; to what is none no answer.
fn write_takes_written(
    alloc: Global,
    bound: &BoundExpression,
    words: &str,
    out: &mut String,
) -> Result<(), AllocError> {
    match dtype_of(alloc, words) {
        Ok(dtype) => {
            let written = write_takes(alloc, bound, &dtype, out);
            drop(dtype);
            written
        }
        Err(_) => Ok(()),
    }
}

/// The answer to a question about the expression.
pub(crate) fn write_told(
    alloc: Global,
    case_state: &CaseState,
    command: &str,
    rest: &str,
    out: &mut String,
) -> Result<(), AllocError> {
    match command {
        "dtype" | "rebind" => write_dtype(alloc, case_state.expression.dtype(), out),
        "text" | "as_root" | "over_row_idx" => write_text(alloc, &case_state.expression, out),
        "looks" => write_looks(&case_state.expression, out),
        "fields" => write_fields(alloc, &case_state.expression, out),
        "gives" | "ends" => write_applied(alloc, case_state, command == "gives", out),
        "takes" => write_takes_written(alloc, &case_state.expression, rest, out),
        _ => Ok(()),
    }
}
