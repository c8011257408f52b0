//! How many bytes a spelling has, told without writing it. Rows that lie in runs are counted run by run.

ghost use Rattle.std.specs.Prelude.{◌≡◌, ◌<◌, ◌^◌, length};
ghost use Rattle.std.specs.List.{AllByRecursion};
ghost use Rattle.vx_types.specs.Leaf.{IsLeaf};
ghost use Rattle.vx_types.specs.Slots.{IsShort, text_in};
ghost use Rattle.vx_types.specs.Views.{data_type};
ghost use Rattle.vx_arrays.specs.Cells.{cell_datum};
ghost use Rattle.vx_columns.specs.LaidRuns.{AllAlike};
ghost use Rattle.vx_segments.specs.Lengths.{are_texts, front_size, slot_size, AreRunSizes, HasLength};
ghost use Rattle.vx_segments.specs.declared.codings.Coding.TheVariants.{Plain, Constant, Runs};

use crate::codings::Coding;
use vx_arrays::Cell;
use vx_columns::Column;
use vx_types::DType;

/// How many runs rows lie in, how many bytes the texts of the runs' values have, and how many those of all rows.
#[derive(Clone, Copy)]
struct RunSizes {
    runs: u64,
    once: u64,
    all: u64,
}

/// How many bytes the slots of so many rows have; of texts their lengths.
fn slot_len(dtype: &DType, rows: u64) -> u64
    requires { rows < 2 ^ 32 }
    ensures { result ≡ slot_size (data_type dtype.now) rows }
{
    match dtype {
        DType::Bool(_) => rows.div_ceil(8),
        DType::Int(kind, _) => rows * kind.width(),
        DType::Utf8(_) => 4 * rows,
        _ => 0,
    }
}

/// How many bytes stand before the texts of so many rows.
fn front_len(dtype: &DType, rows: u64) -> u64
    requires { rows < 2 ^ 32 }
    ensures { result ≡ front_size (data_type dtype.now) rows }
{
    let slots = slot_len(dtype, rows);
    if dtype.is_nullable() {
        rows.div_ceil(8) + slots
    } else {
        slots
    }
}

/// Whether the dtype is that of texts.
fn has_texts(dtype: &DType) -> bool
    ensures { result ≡ are_texts (data_type dtype.now) }
{
    matches!(dtype, DType::Utf8(_))
}

/// How many bytes the text has, if the value is one.
#[tactic(auto, using(crate::proofs::Lengths::no_struct_text))]
fn text_len(cell: Cell<'_>) -> u64
    ensures { result ≡ length (text_in (cell_datum cell.entry)) }
{
    match cell {
        Cell::Text(text) => text.len() as u64,
        _ => 0,
    }
}

/// How many runs the rows lie in, and how many bytes their texts have.
fn run_sizes(column: &Column) -> RunSizes
    requires short { AllByRecursion IsShort column.now.values }
    requires few { length column.now.values < 2 ^ 32 }
    ensures { AreRunSizes column.now.values result.runs result.once result.all }
{
    let mut sizes = RunSizes {
        runs: 0,
        once: 0,
        all: 0,
    };
    let mut row = 0;
    while row < column.len() {
        let end = column.run_end(row);
        let len = text_len(column.cell(row));
        sizes.runs += 1;
        sizes.once += len;
        sizes.all += (end - row) * len;
        row = end;
    }
    sizes
}

/// How many bytes the plain spelling has.
fn plain_len(column: &Column) -> Option<u64>
    requires leaf { IsLeaf column.now.dtype }
    requires short { AllByRecursion IsShort column.now.values }
    requires few { length column.now.values < 2 ^ 32 }
    ensures { HasLength Plain column.now.dtype column.now.values result }
{
    let front = front_len(column.dtype(), column.len());
    if has_texts(column.dtype()) {
        front.checked_add(run_sizes(column).all)
    } else {
        Some(front)
    }
}

/// How many bytes the spelling of a constant has.
fn constant_len(column: &Column) -> Option<u64>
    requires leaf { IsLeaf column.now.dtype }
    requires short { AllByRecursion IsShort column.now.values }
    requires alike { AllAlike column.now.values }
    ensures { HasLength Constant column.now.dtype column.now.values result }
{
    if column.len() == 0 {
        Some(0)
    } else {
        Some(front_len(column.dtype(), 1) + text_len(column.cell(0)))
    }
}

/// How many bytes the spelling of runs has.
fn runs_len(column: &Column) -> Option<u64>
    requires leaf { IsLeaf column.now.dtype }
    requires short { AllByRecursion IsShort column.now.values }
    requires few { length column.now.values < 2 ^ 32 }
    ensures { HasLength Runs column.now.dtype column.now.values result }
{
    let _fit = column.len();
    let sizes = run_sizes(column);
    let front = 4 + 8 * sizes.runs + front_len(column.dtype(), sizes.runs);
    front.checked_add(sizes.once)
}

/// How many bytes `encode_as` writes of the column, without writing them: None where 64 bits don't hold the number. It
/// takes no memory, and rows that lie in runs are counted run by run.
pub fn spelled_len(column: &Column, coding: Coding) -> Option<u64>
    requires leaf { IsLeaf column.now.dtype }
    requires short { AllByRecursion IsShort column.now.values }
    requires few { length column.now.values < 2 ^ 32 }
    requires alike { coding ≡ Constant → AllAlike column.now.values }
    ensures { HasLength coding column.now.dtype column.now.values result }
{
    match coding {
        Coding::Plain => plain_len(column),
        Coding::Constant => constant_len(column),
        Coding::Runs => runs_len(column),
    }
}
