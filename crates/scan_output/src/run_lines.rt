//! The lines of rows that lie in runs: the line of a run's value is made once, and copied for the other rows of the run.

ghost use Rattle.std.specs.Prelude.{◌≡◌, ◌<◌, ◌≤◌, ◌++◌, drop, length, map, slice_range, vec_len, OnOk};
ghost use Rattle.std.specs.List.{repeat};
ghost use Rattle.vx_arrays.specs.Numbers.{numbers_in};
ghost use Rattle.scan_output.specs.RowText.{lines};
ghost use Rattle.scan_output.specs.RunLines.{IsRunRange};
ghost use Rattle.vx_base.specs.Data.{DataType, number, text, truth};
ghost use Rattle.vx_base.specs.RunRows.{Rise, HasRow, start_of};
ghost use Rattle.vx_base.specs.Runs.{spread};
ghost use Rattle.vx_base.specs.Slots.{where_valid};
ghost use Rattle.vx_base.specs.Views.{data_type};

use crate::cell_texts::append_cell_line;
use crate::field_leads::leads_of;
use crate::printed_numbers::Printed;
use crate::value_lines::{append_number_line, append_text_line, append_truth_line};
use itoa::Buffer;
use std::alloc::{AllocError, Global};
use std::ops::Range;
use vx_arrays::{Array, ArrayView, Numbers, Texts};
use vx_base::{DType, Mask};

/// The place of the run that has the row, where one has it.
fn run_at(ends: &[u64], row: u64) -> usize
    requires { Rise 0 ends.now }
    ensures { row < start_of 0 ends.now (length ends.now) → HasRow ends.now row result }
{
    ends.partition_point(|end| *end <= row)
}

/// Appends a text so many times.
fn append_times(text: &[u8], times: u64, out: &mut Vec<u8>) -> Result<(), AllocError>
    ensures { OnOk result (out.new.items ≡ out.old.items ++ repeat times text.now) }
{
    for _ in 0..times {
        out.extend_from_slice(text)?;
    }
    Ok(())
}

/// Appends what stands from a place on so many times again. It is copied out of a buffer.
fn append_again(
    from: usize,
    times: u64,
    buffer: &mut Vec<u8>,
    out: &mut Vec<u8>,
) -> Result<(), AllocError>
    requires { from ≤ vec_len out.old }
    ensures { OnOk result (out.new.items ≡ out.old.items ++ repeat times (drop from out.old.items)) }
{
    if times == 0 {
        return Ok(());
    }
    buffer.clear();
    buffer.extend_from_slice(&out[from..])?;
    append_times(buffer, times, out)
}

/// Appends the lines of a range of rows whose runs have truth values.
fn append_truth_runs(
    alloc: Global,
    valid: &Mask,
    truths: &Mask,
    ends: &[u64],
    rows: Range<u64>,
    out: &mut Vec<u8>,
) -> Result<(), AllocError>
    requires same { length valid.now ≡ length truths.now }
    requires ends { length ends.now ≡ length truths.now }
    requires range { IsRunRange ends.now rows.start rows.end }
    ensures { OnOk result ((t : DataType) → out.new.items ≡ out.old.items
        ++ lines t (slice_range (spread 0 (where_valid valid.now (map truth truths.now)) ends.now) rows.start rows.end)) }
{
    let mut buffer = Vec::new(alloc);
    let mut run = run_at(ends, rows.start);
    let mut row = rows.start;
    while row < rows.end {
        let end = ends[run].min(rows.end);
        let from = out.len();
        append_truth_line(valid.value(run as u64), truths.value(run as u64), out)?;
        append_again(from, end - row - 1, &mut buffer, out)?;
        row = end;
        run += 1;
    }
    Ok(())
}

/// Appends the lines of a range of rows whose runs have numbers of one kind.
fn append_kind_runs<T: Printed>(
    alloc: Global,
    valid: &Mask,
    numbers: &[T],
    ends: &[u64],
    rows: Range<u64>,
    out: &mut Vec<u8>,
) -> Result<(), AllocError>
    requires same { length valid.now ≡ length numbers.now }
    requires ends { length ends.now ≡ length numbers.now }
    requires range { IsRunRange ends.now rows.start rows.end }
    ensures { OnOk result ((t : DataType) → out.new.items ≡ out.old.items
        ++ lines t (slice_range (spread 0 (where_valid valid.now (map number (map T.number numbers.now))) ends.now) rows.start rows.end)) }
{
    let mut buffer = Vec::new(alloc);
    let mut digits = Buffer::new();
    let mut run = run_at(ends, rows.start);
    let mut row = rows.start;
    while row < rows.end {
        let end = ends[run].min(rows.end);
        let from = out.len();
        append_number_line(&mut digits, valid.value(run as u64), numbers[run], out)?;
        append_again(from, end - row - 1, &mut buffer, out)?;
        row = end;
        run += 1;
    }
    Ok(())
}

/// Appends the lines of a range of rows whose runs have numbers.
fn append_number_runs(
    alloc: Global,
    valid: &Mask,
    numbers: &Numbers,
    ends: &[u64],
    rows: Range<u64>,
    out: &mut Vec<u8>,
) -> Result<(), AllocError>
    requires same { length valid.now ≡ length (numbers_in numbers.now) }
    requires ends { length ends.now ≡ length (numbers_in numbers.now) }
    requires range { IsRunRange ends.now rows.start rows.end }
    ensures { OnOk result ((t : DataType) → out.new.items ≡ out.old.items
        ++ lines t (slice_range (spread 0 (where_valid valid.now (map number (numbers_in numbers.now))) ends.now) rows.start rows.end)) }
{
    match numbers {
        Numbers::U8(kind) => append_kind_runs(alloc, valid, kind.as_slice(), ends, rows, out),
        Numbers::U16(kind) => append_kind_runs(alloc, valid, kind.as_slice(), ends, rows, out),
        Numbers::U32(kind) => append_kind_runs(alloc, valid, kind.as_slice(), ends, rows, out),
        Numbers::U64(kind) => append_kind_runs(alloc, valid, kind.as_slice(), ends, rows, out),
        Numbers::I8(kind) => append_kind_runs(alloc, valid, kind.as_slice(), ends, rows, out),
        Numbers::I16(kind) => append_kind_runs(alloc, valid, kind.as_slice(), ends, rows, out),
        Numbers::I32(kind) => append_kind_runs(alloc, valid, kind.as_slice(), ends, rows, out),
        Numbers::I64(kind) => append_kind_runs(alloc, valid, kind.as_slice(), ends, rows, out),
    }
}

/// Appends the lines of a range of rows whose runs have texts.
fn append_text_runs(
    alloc: Global,
    valid: &Mask,
    texts: &Texts,
    ends: &[u64],
    rows: Range<u64>,
    out: &mut Vec<u8>,
) -> Result<(), AllocError>
    requires same { length valid.now ≡ length texts.now }
    requires ends { length ends.now ≡ length texts.now }
    requires range { IsRunRange ends.now rows.start rows.end }
    ensures { OnOk result ((t : DataType) → out.new.items ≡ out.old.items
        ++ lines t (slice_range (spread 0 (where_valid valid.now (map text texts.now)) ends.now) rows.start rows.end)) }
{
    let mut buffer = Vec::new(alloc);
    let mut run = run_at(ends, rows.start);
    let mut row = rows.start;
    while row < rows.end {
        let end = ends[run].min(rows.end);
        let from = out.len();
        append_text_line(valid.value(run as u64), texts.text(run), out)?;
        append_again(from, end - row - 1, &mut buffer, out)?;
        row = end;
        run += 1;
    }
    Ok(())
}

/// Appends the lines of a range of rows whose runs have any values. The names of fields are written once for all runs.
fn append_cell_runs(
    alloc: Global,
    dtype: &DType,
    values: &Array,
    ends: &[u64],
    rows: Range<u64>,
    out: &mut Vec<u8>,
) -> Result<(), AllocError>
    requires ends { length ends.now ≡ length values.now.values }
    requires range { IsRunRange ends.now rows.start rows.end }
    ensures { OnOk result (out.new.items ≡ out.old.items
        ++ lines (data_type dtype.now) (slice_range (spread 0 values.now.values ends.now) rows.start rows.end)) }
{
    let mut buffer = Vec::new(alloc);
    let leads = leads_of(alloc, dtype)?;
    let mut run = run_at(ends, rows.start);
    let mut row = rows.start;
    while row < rows.end {
        let end = ends[run].min(rows.end);
        let from = out.len();
        append_cell_line(alloc, dtype, &leads, values.cell(run), out)?;
        append_again(from, end - row - 1, &mut buffer, out)?;
        row = end;
        run += 1;
    }
    Ok(())
}

/// Appends a line for each row of a range, where the rows lie in runs with these values and ends.
pub(crate) fn append_run_lines(
    alloc: Global,
    dtype: &DType,
    values: &Array,
    ends: &[u64],
    rows: Range<u64>,
    out: &mut Vec<u8>,
) -> Result<(), AllocError>
    requires ends { length ends.now ≡ length values.now.values }
    requires range { IsRunRange ends.now rows.start rows.end }
    ensures { OnOk result (out.new.items ≡ out.old.items
        ++ lines (data_type dtype.now) (slice_range (spread 0 values.now.values ends.now) rows.start rows.end)) }
{
    match values.array_view() {
        ArrayView::Truths(valid, truths) => {
            append_truth_runs(alloc, valid, truths, ends, rows, out)
        }
        ArrayView::Numbers(valid, numbers) => {
            append_number_runs(alloc, valid, numbers, ends, rows, out)
        }
        ArrayView::Texts(valid, texts) => append_text_runs(alloc, valid, texts, ends, rows, out),
        ArrayView::Structs(_, _) | ArrayView::Lists(_, _) => {
            append_cell_runs(alloc, dtype, values, ends, rows, out)
        }
    }
}
