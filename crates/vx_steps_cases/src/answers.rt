//! What a scan answers, as words.

use std::alloc::{AllocError, Global};
use vx_base::Column;
use vx_notation::column_text;
use vx_plan::PlanRef;
use vx_steps::{DeliverError, KeptValue, ScanBuildError, StepError};

/// Appends the dtype of a column and its values; of many values, how many there are.
pub(crate) fn write_column(
    alloc: Global,
    column: &Column,
    out: &mut String,
) -> Result<(), AllocError> {
    let rows = column.len();
    if 16 < rows {
        return write!(out, " {rows} rows;");
    }
    let text = column_text(alloc, column).unwrap_or(String::new(alloc));
    write!(out, " {};", text.as_str())
}

/// Appends kept columns, each behind a word and the number of its plan.
pub(crate) fn write_columns(
    alloc: Global,
    word: &str,
    columns: &[KeptValue],
    out: &mut String,
) -> Result<(), AllocError> {
    for kept in columns {
        write!(out, " {word} {}", kept.node.0).and(write_column(alloc, &kept.column, out))?;
    }
    Ok(())
}

/// The error of a step of that name: of plan 3, segment 4 and row 7.
fn step_error(name: &str) -> StepError {
    let node = PlanRef(3);
    match name {
        "unsupported" => StepError::Unsupported(node),
        "bad_segment" => StepError::BadSegment(4),
        "bad_code" => StepError::BadCode { node, row: 7 },
        "fault" => StepError::EvalFault(7),
        _ => StepError::Memory,
    }
}

/// Appends the text of the error of that name.
pub(crate) fn write_error(name: &str, out: &mut String) -> Result<(), AllocError> {
    match name {
        "unknown_read" => write!(out, " {}", DeliverError::UnknownRead),
        "out_of_range" => write!(out, " {}", ScanBuildError::OutOfRange),
        _ => write!(out, " {}", step_error(name)),
    }
}

/// Appends words and a number.
fn write_number(words: &str, number: u64, out: &mut String) -> Result<(), AllocError> {
    write!(out, " {words} {number};")
}

/// Appends why a step is refused.
pub(crate) fn write_refusal(error: StepError, out: &mut String) -> Result<(), AllocError> {
    match error {
        StepError::Unsupported(plan) => write_number("unsupported", u64::from(plan.0), out),
        StepError::BadSegment(segment) => write_number("bad segment", u64::from(segment), out),
        StepError::BadCode { node, row } => { write!(out, " bad code {} {row};", node.0) }
        StepError::EvalFault(row) => write_number("fault", row, out),
        StepError::Memory => Err(AllocError),
    }
}
