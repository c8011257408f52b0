//! The first rows of the chunks of a range.

ghost use Rattle.std.specs.Prelude.{◌<◌, IfOk};
ghost use Rattle.std.specs.List.{AllByRecursion};
ghost use Rattle.vx_splits.specs.FirstRows.{IsTight};

use crate::calls::write_left;
use crate::words::number_of;
use std::alloc::{AllocError, Global};
use std::ops::Range;
use vx_splits::{SelectedRows, Selection, WorkScope, limit_rows, row_chunks, select_rows};

/// What is left of each chunk of a range, which are scopes of file 7.
fn chunks_of(
    alloc: Global,
    selection: &Selection,
    rows: Range<u64>,
    size: u64,
) -> Result<Vec<SelectedRows>, AllocError>
    requires { 0 < size }
    ensures { IfOk result (λ chunks. AllByRecursion IsTight chunks.items) }
{
    let ranges = row_chunks(alloc, rows, size)?;
    let mut chunks = Vec::with_capacity(alloc, ranges.len())?;
    for rows in ranges {
        let scope = WorkScope {
            file_ordinal: 7,
            rows,
        };
        if let Some(chunk) = select_rows(alloc, scope, selection)? {
            chunks.push(chunk)?;
        }
    }
    Ok(chunks)
}

/// The chunks with the first rows, by the words `SIZE LIMIT`; without a size above 0 nothing.
pub(crate) fn write_first(
    alloc: Global,
    selection: &Selection,
    rows: Range<u64>,
    words: &str,
    out: &mut String,
) -> Result<(), AllocError> {
    let (size, limit) = words.split_once(' ').unwrap_or((words, ""));
    let (size, limit) = (number_of(size), number_of(limit));
    if size == 0 {
        return Ok(());
    }
    let chunks = chunks_of(alloc, selection, rows, size)?;
    let first = limit_rows(alloc, chunks, limit)?;
    if first.is_empty() {
        return out.push_str("none");
    }
    let mut comma = "";
    for chunk in &first {
        out.push_str(comma)?;
        write_left(chunk, out)?;
        comma = ", ";
    }
    Ok(())
}
