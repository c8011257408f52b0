//! What is answered, as words.

ghost use Rattle.std.specs.Prelude.{◌≤◌, length};

use std::alloc::{AllocError, Global};
use std::ops::Range;
use vx_base::{Column, ScriptSource};
use vx_notation::column_text;
use vx_plan::PlanRef;
use vx_scan::{AdaptorError, ScanError};
use vx_steps::{KeptValue, StepError};

/// Appends the dtype of a column and the values of some rows.
fn write_rows(
    alloc: Global,
    column: &Column,
    rows: Range<u64>,
    out: &mut String,
) -> Result<(), AllocError>
    requires forwards { rows.start ≤ rows.end }
    requires inside { rows.end ≤ length column.now.values }
{
    let part = column.slice(alloc, rows)?;
    let text = column_text(alloc, &part).unwrap_or(String::new(alloc));
    drop(part);
    write!(out, " {}", text.as_str())
}

/// Appends the dtype of a column and its values; of many values, how many there are, the first, and the last.
pub(crate) fn write_column(
    alloc: Global,
    column: &Column,
    out: &mut String,
) -> Result<(), AllocError> {
    let rows = column.len();
    if rows <= 8 {
        write_rows(alloc, column, 0..rows, out)?;
        return out.push(';');
    }
    write!(out, " {rows} rows from")?;
    write_rows(alloc, column, 0..1, out)?;
    out.push_str(" to")?;
    write_rows(alloc, column, rows - 1..rows, out)?;
    out.push(';')
}

/// Appends kept columns, each behind a word and the number of its plan.
pub(crate) fn write_columns(
    alloc: Global,
    word: &str,
    columns: &[KeptValue],
    out: &mut String,
) -> Result<(), AllocError> {
    for kept in columns {
        write!(out, " {word} {}", kept.node.0)?;
        write_column(alloc, &kept.column, out)?;
    }
    Ok(())
}

/// Appends the text of the error of a scan of that name: of plan 3, segment 4 and row 7.
pub(crate) fn write_text(name: &str, out: &mut String) -> Result<(), AllocError> {
    let node = PlanRef(3);
    let error = match name {
        "unsupported" => ScanError::Unsupported(node),
        "no_location" => ScanError::NoLocation(4),
        "bad_segment" => ScanError::BadSegment(4),
        "bad_code" => ScanError::BadCode { node, row: 7 },
        "fault" => ScanError::EvalFault(7),
        "memory" => ScanError::Memory,
        _ => return write_adaptor_text(name, out),
    };
    write!(out, " {error}")
}

/// Appends the text of the error of an adaptor of that name.
fn write_adaptor_text(name: &str, out: &mut String) -> Result<(), AllocError> {
    let error = match name {
        "adaptor_no_location" => AdaptorError::NoLocation(4),
        "adaptor_step" => AdaptorError::Step(StepError::BadSegment(4)),
        "adaptor_not_outstanding" => AdaptorError::NotOutstanding,
        "adaptor_memory" => AdaptorError::Memory,
        _ => return Ok(()),
    };
    write!(out, " {error}")
}

/// Appends why there are no rows.
pub(crate) fn write_error(error: ScanError, out: &mut String) -> Result<(), AllocError> {
    let (word, number) = match error {
        ScanError::Unsupported(plan) => ("unsupported", u64::from(plan.0)),
        ScanError::NoLocation(segment) => ("no location", u64::from(segment)),
        ScanError::BadSegment(segment) => ("bad segment", u64::from(segment)),
        ScanError::EvalFault(row) => ("fault", row),
        ScanError::BadCode { node, row } => {
            return write!(out, " bad code {} {row};", node.0);
        }
        ScanError::Memory => return Err(AllocError),
        other => return write!(out, " {other};"),
    };
    write!(out, " {word} {number};")
}

/// Appends what a source was asked, in order, how often it failed, how often a read went on, and whether one is in
/// flight.
pub(crate) fn write_source(source: &ScriptSource, out: &mut String) -> Result<(), AllocError> {
    out.push_str(" asked")?;
    let mut in_flight = "none";
    for (ticket, range) in source.asked().iter().enumerate() {
        write!(out, " {}+{}", range.offset, range.length)?;
        if source.is_in_flight(ticket as u64) {
            in_flight = "some";
        }
    }
    let (faults, idle) = (source.faults(), source.idle());
    write!(out, "; {faults} faults, {idle} idle, {in_flight} in flight")
}
