//! The form of the rows that are asked for: a range, the rows of it that are read or left out, how many of them at most,
//! and the number of the first row.

ghost use Rattle.std.specs.Prelude.{◌≡◌, ◌^◌, ◌<◌, Some, None, Err, length, IfOk, OnOk, OnErr, option_map};
ghost use Rattle.scan_json.specs.Forms.{each_form};
ghost use Rattle.scan_json.specs.Reading.{read_items, read_value, reads, reads_items};
ghost use Rattle.scan_request.specs.JsonForms.{list_of, whole_form};
ghost use Rattle.scan_request.specs.RowForms.{in_order, indices_form, range_form, range_from as made_range, range_items, rows_said, selection_said};

use crate::json_forms::whole_64;
use json::{Invalid, Reader};
use scan_json::{Unread, joined, list_begins, list_ends};
use std::alloc::Global;
use std::ops::Range;
use vx_splits::{Selection, StrictSorted};

/// The rows that a request asks for.
#[derive(Drop)]
pub(crate) struct RowsAsked {
    /// The rows that are asked for, where not all are. The end may be the lower one.
    pub(crate) range: Option<Range<u64>>,
    /// Which of those rows are read.
    pub(crate) selection: Selection,
    /// How many of the selected rows are read, the first ones, where not all are.
    pub(crate) limit: Option<u64>,
    /// The number of the file's first row.
    pub(crate) row_offset: u64,
}

pub(crate) fn range_of(reader: &mut Reader<'_>, depth: usize) -> Result<Option<Range<u64>>, Invalid>
    ensures ok { IfOk result (λ range. reads range_form depth reader.old ≡ Some (range, reader.new)) }
    ensures shorter { OnOk result (length reader.new < length reader.old) }
    ensures refused { OnErr result (read_value depth reader.old ≡ None) }
{
    if list_begins(reader, depth)? {
        range_in(reader, depth - 1)
    } else {
        Ok(None)
    }
}

/// A range as start and end, of which the end may be the lower one.
fn range_in(reader: &mut Reader<'_>, depth: usize) -> Result<Option<Range<u64>>, Invalid>
    ensures ok { IfOk result (λ range. reads_items range_items depth reader.old ≡ Some (range, reader.new)) }
    ensures shorter { OnOk result (length reader.new < length reader.old) }
    ensures refused { OnErr result (read_items depth reader.old ≡ None) }
{
    if reader.take_end_array() {
        return Ok(None);
    }
    let start = whole_64(reader, depth)?;
    if reader.take_end_array() {
        return Ok(None);
    }
    let end = whole_64(reader, depth)?;
    if list_ends(reader, depth)? {
        Ok(range_from(start, end))
    } else {
        Ok(None)
    }
}

/// The range of a start and an end, where both are there.
fn range_from(start: Option<u64>, end: Option<u64>) -> Option<Range<u64>>
    ensures { result ≡ made_range start end }
{
    let start = start?;
    let end = end?;
    Some(start..end)
}

/// Row numbers in order.
fn rows_in(alloc: Global, reader: &mut Reader<'_>, depth: usize) -> Result<Option<Vec<u64>>, Unread>
    ensures ok { IfOk result (λ list. reads_items (each_form (whole_form (2 ^ 64))) depth reader.old ≡ Some (option_map (λ v. v.items) list, reader.new)) }
    ensures shorter { OnOk result (length reader.new < length reader.old) }
    ensures refused { result ≡ Err Unread.Invalid → read_items depth reader.old ≡ None }
{
    let mut made = Some(Vec::new(alloc));
    'items: while !reader.take_end_array() {
        let item = whole_64(reader, depth)?;
        made = joined(made, item)?;
    }
    Ok(made)
}

/// Row numbers, where each is greater than the one before it.
fn ascending(rows: Option<Vec<u64>>) -> Option<StrictSorted>
    ensures { result ≡ in_order (option_map (λ v. v.items) rows) }
{
    match StrictSorted::try_new(rows?) {
        Ok(indices) => Some(indices),
        Err(_) => None,
    }
}

/// Row numbers, each greater than the one before it.
pub(crate) fn indices_of(
    alloc: Global,
    reader: &mut Reader<'_>,
    depth: usize,
) -> Result<Option<StrictSorted>, Unread>
    ensures ok { IfOk result (λ indices. reads indices_form depth reader.old ≡ Some (indices, reader.new)) }
    ensures shorter { OnOk result (length reader.new < length reader.old) }
    ensures refused { result ≡ Err Unread.Invalid → read_value depth reader.old ≡ None }
{
    if !list_begins(reader, depth)? {
        return Ok(None);
    }
    match rows_in(alloc, reader, depth - 1) {
        Ok(rows) => Ok(ascending(rows)),
        Err(error) => Err(error),
    }
}

/// The rows that are read or left out, by what each of both members tells: all where neither is there.
fn selection_from(
    indices: Option<Option<StrictSorted>>,
    exclude: Option<Option<StrictSorted>>,
) -> Option<Selection>
    ensures { result ≡ selection_said indices exclude }
{
    match (indices, exclude) {
        (None, None) => Some(Selection::All),
        (Some(Some(rows)), None) => Some(Selection::IncludeByIndex(rows)),
        (None, Some(Some(rows))) => Some(Selection::ExcludeByIndex(rows)),
        _ => None,
    }
}

/// The rows that members tell, each where it is there: all of them, numbered from 0, where none is.
pub(crate) fn rows_from(
    range: Option<Option<Range<u64>>>,
    limit: Option<Option<u64>>,
    row_offset: Option<Option<u64>>,
    indices: Option<Option<StrictSorted>>,
    exclude: Option<Option<StrictSorted>>,
) -> Option<RowsAsked>
    ensures { result ≡ rows_said range limit row_offset indices exclude }
{
    let selection = selection_from(indices, exclude)?;
    let range = match range {
        Some(range) => Some(range?),
        None => None,
    };
    let limit = match limit {
        Some(limit) => Some(limit?),
        None => None,
    };
    let row_offset = match row_offset {
        Some(row_offset) => row_offset?,
        None => 0,
    };
    Some(RowsAsked {
        range,
        selection,
        limit,
        row_offset,
    })
}
