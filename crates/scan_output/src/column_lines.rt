//! The lines of a column's rows: of runs the line of each value once, leaves that lie packed in one loop each, all other
//! rows cell by cell.

ghost use Rattle.std.specs.Prelude.{◌≡◌, ◌≤◌, ◌++◌, length, map, slice_range, OnOk, OnErr};
ghost use Rattle.vx_arrays.specs.Numbers.{numbers_in};
ghost use Rattle.scan_output.specs.RowText.{lines};
ghost use Rattle.vx_base.specs.Data.{DataType, number, text, truth};
ghost use Rattle.vx_base.specs.Slots.{where_valid};

use crate::cell_texts::append_cell_line;
use crate::field_leads::leads_of;
use crate::printed_numbers::Printed;
use crate::run_lines::append_run_lines;
use crate::value_lines::{append_number_line, append_text_line, append_truth_line};
use itoa::Buffer;
use std::alloc::{AllocError, Global};
use std::ops::Range;
use vx_arrays::{Array, ArrayView, Numbers, Texts};
use vx_base::{Column, ColumnParts, Mask};

/// How many bytes the line of a truth value or a null has at most.
const TRUTH_LINE: usize = 6;

/// Appends the lines of a range of truth values.
fn append_truths(
    valid: &Mask,
    truths: &Mask,
    rows: Range<usize>,
    out: &mut Vec<u8>,
) -> Result<(), AllocError>
    requires same { length valid.now ≡ length truths.now }
    requires forwards { rows.start ≤ rows.end }
    requires inside { rows.end ≤ length truths.now }
    ensures { OnOk result ((t : DataType) → out.new.items ≡ out.old.items
        ++ lines t (slice_range (where_valid valid.now (map truth truths.now)) rows.start rows.end)) }
{
    out.reserve((rows.end - rows.start).saturating_mul(TRUTH_LINE))?;
    for row in rows.start..rows.end {
        append_truth_line(valid.value(row as u64), truths.value(row as u64), out)?;
    }
    Ok(())
}

/// Appends the lines of a range of numbers of one kind.
fn append_kind<T: Printed>(
    valid: &Mask,
    numbers: &[T],
    rows: Range<usize>,
    out: &mut Vec<u8>,
) -> Result<(), AllocError>
    requires same { length valid.now ≡ length numbers.now }
    requires forwards { rows.start ≤ rows.end }
    requires inside { rows.end ≤ length numbers.now }
    ensures { OnOk result ((t : DataType) → out.new.items ≡ out.old.items
        ++ lines t (slice_range (where_valid valid.now (map number (map T.number numbers.now))) rows.start rows.end)) }
{
    // At most three digits for each byte of a number, a sign and a newline.
    let longest = T::width().saturating_mul(3).saturating_add(2);
    out.reserve((rows.end - rows.start).saturating_mul(longest))?;
    let mut digits = Buffer::new();
    for row in rows.start..rows.end {
        append_number_line(&mut digits, valid.value(row as u64), numbers[row], out)?;
    }
    Ok(())
}

/// Appends the lines of a range of numbers.
fn append_numbers(
    valid: &Mask,
    numbers: &Numbers,
    rows: Range<usize>,
    out: &mut Vec<u8>,
) -> Result<(), AllocError>
    requires same { length valid.now ≡ length (numbers_in numbers.now) }
    requires forwards { rows.start ≤ rows.end }
    requires inside { rows.end ≤ length (numbers_in numbers.now) }
    ensures { OnOk result ((t : DataType) → out.new.items ≡ out.old.items
        ++ lines t (slice_range (where_valid valid.now (map number (numbers_in numbers.now))) rows.start rows.end)) }
{
    match numbers {
        Numbers::U8(kind) => append_kind(valid, kind.as_slice(), rows, out),
        Numbers::U16(kind) => append_kind(valid, kind.as_slice(), rows, out),
        Numbers::U32(kind) => append_kind(valid, kind.as_slice(), rows, out),
        Numbers::U64(kind) => append_kind(valid, kind.as_slice(), rows, out),
        Numbers::I8(kind) => append_kind(valid, kind.as_slice(), rows, out),
        Numbers::I16(kind) => append_kind(valid, kind.as_slice(), rows, out),
        Numbers::I32(kind) => append_kind(valid, kind.as_slice(), rows, out),
        Numbers::I64(kind) => append_kind(valid, kind.as_slice(), rows, out),
    }
}

/// Appends the lines of a range of texts.
fn append_texts(
    valid: &Mask,
    texts: &Texts,
    rows: Range<usize>,
    out: &mut Vec<u8>,
) -> Result<(), AllocError>
    requires same { length valid.now ≡ length texts.now }
    requires forwards { rows.start ≤ rows.end }
    requires inside { rows.end ≤ length texts.now }
    ensures { OnOk result ((t : DataType) → out.new.items ≡ out.old.items
        ++ lines t (slice_range (where_valid valid.now (map text texts.now)) rows.start rows.end)) }
{
    for row in rows.start..rows.end {
        append_text_line(valid.value(row as u64), texts.text(row), out)?;
    }
    Ok(())
}

/// Appends the lines of a range of rows cell by cell. The names of fields are written once for all rows.
fn append_cells(
    alloc: Global,
    column: &Column,
    rows: Range<u64>,
    out: &mut Vec<u8>,
) -> Result<(), AllocError>
    requires forwards { rows.start ≤ rows.end }
    requires inside { rows.end ≤ length column.now.values }
    ensures { OnOk result (out.new.items ≡ out.old.items ++ lines column.now.dtype (slice_range column.now.values rows.start rows.end)) }
{
    let dtype = column.dtype();
    let leads = leads_of(alloc, dtype)?;
    for row in rows.start..rows.end {
        append_cell_line(alloc, dtype, &leads, column.cell(row), out)?;
    }
    Ok(())
}

/// Appends the lines of a range of rows that are packed one by one.
fn append_packed_lines(
    alloc: Global,
    column: &Column,
    array: &Array,
    rows: Range<u64>,
    out: &mut Vec<u8>,
) -> Result<(), AllocError>
    requires packed { array.now.values ≡ column.now.values }
    requires forwards { rows.start ≤ rows.end }
    requires inside { rows.end ≤ length column.now.values }
    ensures { OnOk result (out.new.items ≡ out.old.items ++ lines column.now.dtype (slice_range column.now.values rows.start rows.end)) }
{
    let places = rows.start as usize..rows.end as usize;
    match array.array_view() {
        ArrayView::Truths(valid, truths) => append_truths(valid, truths, places, out),
        ArrayView::Numbers(valid, numbers) => append_numbers(valid, numbers, places, out),
        ArrayView::Texts(valid, texts) => append_texts(valid, texts, places, out),
        ArrayView::Structs(_, _) | ArrayView::Lists(_, _) => append_cells(alloc, column, rows, out),
    }
}

/// Appends a line for each row of a range: the text of the row's value, and a newline. Where memory runs out, a front of the
/// lines may stand there.
pub(crate) fn add_row_lines(
    alloc: Global,
    column: &Column,
    rows: Range<u64>,
    out: &mut Vec<u8>,
) -> Result<(), AllocError>
    requires forwards { rows.start ≤ rows.end }
    requires inside { rows.end ≤ length column.now.values }
    ensures { OnOk result (out.new.items ≡ out.old.items ++ lines column.now.dtype (slice_range column.now.values rows.start rows.end)) }
{
    match column.parts() {
        ColumnParts::Packed(array) => append_packed_lines(alloc, column, array, rows, out),
        ColumnParts::Runs(values, ends) => {
            append_run_lines(alloc, column.dtype(), values, ends, rows, out)
        }
    }
}

/// The same for each row of a column.
#[tactic(auto, using(vx_arrays::proofs::PackedRows::whole_range))]
pub(crate) fn add_column_lines(
    alloc: Global,
    column: &Column,
    out: &mut Vec<u8>,
) -> Result<(), AllocError>
    ensures { OnOk result (out.new.items ≡ out.old.items ++ lines column.now.dtype column.now.values) }
{
    add_row_lines(alloc, column, 0..column.len(), out)
}

/// Appends a line for each row of a range: the text of the row's value, and a newline. All lines, or nothing where memory
/// runs out.
pub fn append_row_lines(
    alloc: Global,
    column: &Column,
    rows: Range<u64>,
    out: &mut Vec<u8>,
) -> Result<(), AllocError>
    requires forwards { rows.start ≤ rows.end }
    requires inside { rows.end ≤ length column.now.values }
    ensures ok { OnOk result (out.new.items ≡ out.old.items ++ lines column.now.dtype (slice_range column.now.values rows.start rows.end)) }
    ensures err { OnErr result (out.new.items ≡ out.old.items) }
{
    let mut text = Vec::new(alloc);
    add_row_lines(alloc, column, rows, &mut text)?;
    out.append(&mut text)
}

/// Appends a line for each row of a column: the text of the row's value, and a newline. All lines, or nothing where memory
/// runs out.
pub fn append_column_lines(
    alloc: Global,
    column: &Column,
    out: &mut Vec<u8>,
) -> Result<(), AllocError>
    ensures ok { OnOk result (out.new.items ≡ out.old.items ++ lines column.now.dtype column.now.values) }
    ensures err { OnErr result (out.new.items ≡ out.old.items) }
{
    let mut text = Vec::new(alloc);
    add_column_lines(alloc, column, &mut text)?;
    out.append(&mut text)
}
