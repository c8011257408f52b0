//! What is answered, as words.

use std::alloc::{AllocError, Global};
use vx_base::{Column, Mask, ScriptSource};
use vx_notation::{bits_text, column_text};
use vx_readers::{OpenError, ReadRowsError, ReaderError, SplitError};

/// Appends the dtype of a column and its values.
pub(crate) fn write_column(
    alloc: Global,
    column: &Column,
    out: &mut String,
) -> Result<(), AllocError> {
    let text = column_text(alloc, column).unwrap_or(String::new(alloc));
    write!(out, " {};", text.as_str())
}

/// Appends a mask, as `101`.
pub(crate) fn write_mask(alloc: Global, mask: &Mask, out: &mut String) -> Result<(), AllocError> {
    let text = bits_text(alloc, mask).unwrap_or(String::new(alloc));
    write!(out, " {};", text.as_str())
}

/// The error of a reader of that name: of segment 4, node 3 and row 7.
fn reader_error(name: &str) -> ReaderError {
    match name {
        "read_fault" => ReaderError::ReadFault,
        "bad_segment" => ReaderError::BadSegment(4),
        "bad_code" => ReaderError::BadCode { node: 3, row: 7 },
        "fault" => ReaderError::EvalFault(7),
        "no_location" => ReaderError::NoLocation(4),
        _ => ReaderError::Memory,
    }
}

/// Appends the text of the error of that name; behind `read` stands the name of a reader's error.
pub(crate) fn write_text(name: &str, out: &mut String) -> Result<(), AllocError> {
    match name {
        "unsupported" => write!(out, " {}", OpenError::Unsupported(3)),
        "zero_zones" => write!(out, " {}", OpenError::ZeroZoneLength(3)),
        "zero_size" => write!(out, " {}", SplitError::ZeroSize),
        "out_of_range" => write!(out, " {}", SplitError::OutOfRange),
        "split_memory" => write!(out, " {}", SplitError::Memory),
        "stalled" => write!(out, " {}", ReadRowsError::Stalled),
        "read_zero_size" => write!(out, " {}", ReadRowsError::ZeroSize),
        "read_memory" => write!(out, " {}", ReadRowsError::Memory),
        _ => match name.strip_prefix("read ") {
            Some(name) => write!(out, " {}", ReadRowsError::Reader(reader_error(name))),
            None => write!(out, " {}", reader_error(name)),
        },
    }
}

/// Appends words and a number.
fn write_number(words: &str, number: u64, out: &mut String) -> Result<(), AllocError> {
    write!(out, " {words} {number};")
}

/// Appends why a reader gives no answer.
pub(crate) fn write_error(error: ReaderError, out: &mut String) -> Result<(), AllocError> {
    match error {
        ReaderError::ReadFault => out.push_str(" read fault;"),
        ReaderError::BadSegment(segment) => write_number("bad segment", u64::from(segment), out),
        ReaderError::BadCode { node, row } => { write!(out, " bad code {node} {row};") }
        ReaderError::EvalFault(row) => write_number("fault", row, out),
        ReaderError::NoLocation(segment) => write_number("no location", u64::from(segment), out),
        ReaderError::Memory => Err(AllocError),
    }
}

/// Appends why rows were not read to their end.
pub(crate) fn write_refusal(error: ReadRowsError, out: &mut String) -> Result<(), AllocError> {
    match error {
        ReadRowsError::Reader(error) => write_error(error, out),
        ReadRowsError::Memory => Err(AllocError),
        other => write!(out, " {other};"),
    }
}

/// Appends why a range is not split.
pub(crate) fn write_split_error(error: SplitError, out: &mut String) -> Result<(), AllocError> {
    match error {
        SplitError::Memory => Err(AllocError),
        other => write!(out, " {other};"),
    }
}

/// Appends the tickets that are in flight.
pub(crate) fn write_flights(source: &ScriptSource, out: &mut String) -> Result<(), AllocError> {
    out.push_str(" in flight")?;
    let mut none = " -";
    for ticket in 0..source.asked().len() as u64 {
        if source.is_in_flight(ticket) {
            write!(out, " {ticket}")?;
            none = "";
        }
    }
    out.push_str(none).and(out.push(';'))
}

/// Appends what a source was asked, in order, how often it failed, and how often a read went on.
pub(crate) fn write_source(source: &ScriptSource, out: &mut String) -> Result<(), AllocError> {
    out.push_str(" asked")?;
    for range in source.asked() {
        write!(out, " {}+{}", range.offset, range.length)?;
    }
    let (faults, idle) = (source.faults(), source.idle());
    write!(out, "; {faults} faults, {idle} idle")
}
