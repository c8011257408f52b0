//! Where rows are split, as words.

ghost use Rattle.std.specs.Prelude.{◌≤◌, IsTrue};

use crate::answers::write_split_error;
use crate::files::numbers_of;
use crate::rows::range_of;
use std::alloc::{AllocError, Global};
use vx_base::Text;
use vx_notation::text_of;
use vx_readers::{FieldMask, RegistersSplits, RowSplits, SplitBy, SplitError, SplitRange};

/// Appends numbers.
fn write_numbers(numbers: &[u64], out: &mut String) -> Result<(), AllocError> {
    for number in numbers {
        write!(out, " {number}")?;
    }
    out.push(';')
}

/// Appends where the rows are split, or why they are not.
fn write_splits(made: Result<Vec<u64>, SplitError>, out: &mut String) -> Result<(), AllocError> {
    match made {
        Ok(splits) => {
            let written = write_numbers(&splits, out);
            drop(splits);
            written
        }
        Err(error) => write_split_error(error, out),
    }
}

/// The rule of that name: `layout`, `sub:N`, `rows:N`; any other word is the default.
pub(crate) fn rule_of(word: &str) -> SplitBy {
    let (name, number) = word.split_once(':').unwrap_or((word, ""));
    let number = number.parse::<u64>().unwrap_or(0);
    match name {
        "layout" => SplitBy::Layout,
        "sub" => SplitBy::LayoutSubSplitting { max_rows: number },
        "rows" => SplitBy::RowCount(number),
        _ => SplitBy::default(),
    }
}

/// The path of one name, if there is room for it.
fn names_of(alloc: Global, name: &str) -> Vec<Text> {
    let mut names = Vec::new(alloc);
    if let Ok(name) = text_of(alloc, name) {
        let _pushed = names.push(name).ok();
    }
    names
}

/// The fields that are read: each, those below one, and one alone.
fn fields_of(alloc: Global) -> Vec<FieldMask> {
    let mut fields = Vec::new(alloc);
    let _pushed = fields.push(FieldMask::All).ok();
    let _pushed = fields.push(FieldMask::Prefix(names_of(alloc, "a"))).ok();
    let _pushed = fields.push(FieldMask::Exact(names_of(alloc, "b"))).ok();
    fields
}

/// Appends where a rule splits a range of the reader's rows, as `layout 7..23`.
pub(crate) fn write_split<L: RegistersSplits>(
    alloc: Global,
    reader: &L,
    words: &str,
    out: &mut String,
) -> Result<(), AllocError> {
    let (rule, words) = words.split_once(' ').unwrap_or((words, ""));
    let fields = fields_of(alloc);
    let made = rule_of(rule).splits(alloc, reader, &range_of(words), &fields);
    drop(fields);
    write_splits(made, out)
}

/// Whether the range ends within so many rows.
fn is_within(range: &SplitRange, rows: u64) -> bool
    ensures { IsTrue result → range.now.end ≤ rows }
{
    range.row_range().end <= rows
}

/// Appends what the reader pushes for a range, in order and each once.
fn write_pushed<L: RegistersSplits>(
    alloc: Global,
    reader: &L,
    range: &SplitRange,
    out: &mut String,
) -> Result<(), AllocError> {
    if !is_within(range, reader.row_count()) {
        return out.push_str(" past the rows;");
    }
    let mut splits = RowSplits::new(alloc);
    match reader.register_splits(&[], range, &mut splits) {
        Ok(()) => match splits.into_sorted_deduped() {
            Ok(rows) => {
                let written = write_numbers(&rows, out);
                drop(rows);
                written
            }
            Err(error) => Err(error),
        },
        Err(error) => {
            drop(splits);
            Err(error)
        }
    }
}

/// The range that is written so: `7..23` of the root's rows, `100 7..23` of the rows behind a hundred others.
fn split_range_of(words: &str) -> Result<SplitRange, SplitError> {
    match words.split_once(' ') {
        Some((offset, words)) => {
            SplitRange::try_new(offset.parse::<u64>().unwrap_or(0), range_of(words))
        }
        None => SplitRange::root(range_of(words)),
    }
}

/// Appends what the reader pushes for the range that is written so.
pub(crate) fn write_registered<L: RegistersSplits>(
    alloc: Global,
    reader: &L,
    words: &str,
    out: &mut String,
) -> Result<(), AllocError> {
    match split_range_of(words) {
        Ok(range) => {
            let written = write_pushed(alloc, reader, &range, out);
            drop(range);
            written
        }
        Err(error) => write_split_error(error, out),
    }
}

/// Appends a range: its offset, its rows, and its rows in the root.
fn write_made(range: &SplitRange, out: &mut String) -> Result<(), AllocError> {
    let rows = range.row_range();
    write!(out, " {}: {}..{}", range.row_offset(), rows.start, rows.end)?;
    let rows = range.root_row_range();
    write!(out, " are {}..{};", rows.start, rows.end)
}

/// Appends the range that is written so, or why it is none.
pub(crate) fn write_range(words: &str, out: &mut String) -> Result<(), AllocError> {
    match split_range_of(words) {
        Ok(range) => {
            let written = write_made(&range, out);
            drop(range);
            written
        }
        Err(error) => write_split_error(error, out),
    }
}

/// The splits of these rows, pushed in turn.
fn pushed(alloc: Global, rows: &[u64]) -> RowSplits {
    let mut splits = RowSplits::new(alloc);
    for row in rows {
        let _pushed = splits.push(*row).ok();
    }
    splits
}

/// Appends the rows between commas in order, each once.
pub(crate) fn write_rows(alloc: Global, words: &str, out: &mut String) -> Result<(), AllocError> {
    let rows = numbers_of(alloc, words);
    match pushed(alloc, &rows).into_sorted_deduped() {
        Ok(sorted) => {
            let written = write_numbers(&sorted, out);
            drop(sorted);
            written
        }
        Err(error) => Err(error),
    }
}
