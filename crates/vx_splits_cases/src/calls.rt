//! The calls.

use crate::first_rows::write_first;
use crate::words::{number_of, numbers_of, range_of, selection_of, write_numbers, write_ranges};
use std::alloc::{AllocError, Global};
use std::ops::Range;
use vx_base::{Mask, SegmentLocation};
use vx_splits::{
    SelectedRows, Selection, StrictSorted, WorkScope, attempt_split_ranges, row_chunks,
    rows_per_chunk, select_rows, subdivide_large_spans,
};

/// The boundaries with cuts; without a span above 0 nothing.
fn write_cuts(
    alloc: Global,
    boundaries: &StrictSorted,
    max_span: u64,
    out: &mut String,
) -> Result<(), AllocError> {
    let boundaries = Vec::from_slice(alloc, boundaries.as_slice())?;
    if max_span == 0 {
        return Ok(());
    }
    match subdivide_large_spans(alloc, boundaries, max_span) {
        Ok(cuts) => write_numbers(&cuts, out),
        Err(_) => out.push_str("out of memory"),
    }
}

/// The rows of a chunk of a file with segments of these lengths, of a few.
fn write_chunk_rows(
    alloc: Global,
    row_count: u64,
    lengths: &str,
    out: &mut String,
) -> Result<(), AllocError> {
    let mut locations = Vec::new(alloc);
    for length in lengths.split(',') {
        if length != "-" {
            let location = SegmentLocation {
                offset: 0,
                length: length.parse::<u32>().unwrap_or(0),
                alignment: 0,
            };
            locations.push(location)?;
        }
    }
    if 1000 < locations.len() {
        return Ok(());
    }
    write!(out, "{}", rows_per_chunk(row_count, &locations))
}

/// The chunks of a range; without a size above 0 nothing.
fn write_chunks(
    alloc: Global,
    rows: Range<u64>,
    size: u64,
    out: &mut String,
) -> Result<(), AllocError> {
    if size == 0 {
        return Ok(());
    }
    write_ranges(&row_chunks(alloc, rows, size)?, out)
}

/// Appends truth values as `101`; none is `-`.
fn write_bits(mask: &Mask, out: &mut String) -> Result<(), AllocError> {
    if mask.len() == 0 {
        return out.push('-');
    }
    for row in 0..mask.len() {
        out.push(if mask.value(row) { '1' } else { '0' })?;
    }
    Ok(())
}

/// What is left of a scope: its rows, how many of them are chosen, and the mask of a short one.
pub(crate) fn write_left(left: &SelectedRows, out: &mut String) -> Result<(), AllocError> {
    let (file, count) = (left.scope.file_ordinal, left.mask.true_count());
    let (start, end) = (left.scope.rows.start, left.scope.rows.end);
    write!(out, "file {file} rows {start}..{end} chosen {count}")?;
    if 64 < left.mask.len() {
        return Ok(());
    }
    out.push(' ')?;
    write_bits(&left.mask, out)
}

/// What a selection says of a range; a scope is one of file 7. Of a reversed range there is no mask.
fn write_selected(
    alloc: Global,
    call: &str,
    selection: &Selection,
    rows: Range<u64>,
    count: u64,
    out: &mut String,
) -> Result<(), AllocError> {
    match call {
        "row_count_in_range" => write!(out, "{}", selection.row_count_in_range(&rows)),
        "reaches_past" => write!(out, "{}", selection.reaches_past(&rows, count)),
        "row_mask" if rows.start <= rows.end => {
            write_bits(&selection.row_mask(alloc, &rows)?, out)
        }
        "select_rows" => {
            let file_ordinal = 7;
            match select_rows(alloc, WorkScope { file_ordinal, rows }, selection)? {
                Some(left) => write_left(&left, out),
                None => out.push_str("none"),
            }
        }
        _ => Ok(()),
    }
}

/// The ranges that a selection is split into, of a range or of all rows.
fn write_splits(
    alloc: Global,
    selection: &Selection,
    rows: &str,
    out: &mut String,
) -> Result<(), AllocError> {
    let range = range_of(rows);
    let rows = if rows == "all" { None } else { Some(&range) };
    match attempt_split_ranges(alloc, selection, rows)? {
        Some(ranges) => write_ranges(&ranges, out),
        None => out.push_str("none"),
    }
}

/// The answer to a call on ascending numbers, or why they are refused.
fn write_sorted(
    alloc: Global,
    call: &str,
    numbers: &str,
    max_span: u64,
    out: &mut String,
) -> Result<(), AllocError> {
    match StrictSorted::try_new(numbers_of(alloc, numbers)?) {
        Ok(sorted) if call == "try_new" => write_numbers(sorted.as_slice(), out),
        Ok(sorted) => write_cuts(alloc, &sorted, max_span, out),
        Err(error) => write!(out, "{error}"),
    }
}

/// The answer to a call on a selection.
fn write_on_selection(
    alloc: Global,
    call: &str,
    selection: &str,
    words: &str,
    out: &mut String,
) -> Result<(), AllocError> {
    let selection = selection_of(alloc, selection)?;
    if call == "attempt_split_ranges" {
        return write_splits(alloc, &selection, words, out);
    }
    let (rows, words) = words.split_once(' ').unwrap_or((words, ""));
    let rows = range_of(rows);
    if call == "limit_rows" {
        return write_first(alloc, &selection, rows, words, out);
    }
    write_selected(alloc, call, &selection, rows, number_of(words), out)
}

/// Appends the answer to a call.
fn write_answer(alloc: Global, line: &str, out: &mut String) -> Result<(), AllocError> {
    let (call, words) = line.split_once(' ').unwrap_or((line, ""));
    let (one, two) = words.split_once(' ').unwrap_or((words, ""));
    match call {
        "try_new" | "subdivide_large_spans" => write_sorted(alloc, call, one, number_of(two), out),
        "rows_per_chunk" => write_chunk_rows(alloc, number_of(one), two, out),
        "row_chunks" => write_chunks(alloc, range_of(one), number_of(two), out),
        _ => write_on_selection(alloc, call, one, two, out),
    }
}

/// Appends each line with its answer.
pub(crate) fn write_answers(
    alloc: Global,
    lines: &str,
    out: &mut String,
) -> Result<(), AllocError> {
    for line in lines.lines() {
        out.push_str(line)?;
        if !line.is_empty() && !line.starts_with("# ") {
            out.push_str(" => ")?;
            write_answer(alloc, line, out)?;
        }
        out.push('\n')?;
    }
    Ok(())
}
