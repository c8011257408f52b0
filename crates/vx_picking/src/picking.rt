//! Columns of selected rows: those of a whole column, the values at codes, and an expression over its root.

ghost use Rattle.std.specs.Prelude.{◌≡◌, ◌+◌, ◌<◌, ◌≤◌, ◌^◌, ℕ, length, map, replicate, slice_range, Some, IfOk, IfErr, IsSomeAnd, MatchOption};
ghost use Rattle.std.specs.Bool.{MatchBool};
ghost use Rattle.std.specs.List.{slice_get, AllByRecursion};
ghost use Rattle.vx_base.specs.Fits.{nullability_of};
ghost use Rattle.vx_base.specs.ColumnCalls.{natural, nullable_where, IsCodeBelow, IsUnsigned};
ghost use Rattle.vx_base.specs.Masks.{chosen};
ghost use Rattle.vx_arrays.specs.Cells.{cell_datum};
ghost use Rattle.vx_expr.specs.Bound.{IsBoundTo};
ghost use Rattle.vx_expr.specs.Types.{row_number_type};
ghost use Rattle.vx_rows.specs.Derivations.{look_up};
ghost use Rattle.vx_picking.specs.RowFaults.{IsCodeFault, IsEvalFault, IsPastCode, root_meaning};
ghost use Rattle.vx_picking.specs.Rows.{rows_of, selects_some};

use crate::errors::LookUpError;
use std::alloc::{AllocError, Global};
use vx_base::{Cell, Column, Mask};
use vx_expr::{ApplyError, BoundExpression, apply};

/// Whether some row is selected.
pub fn selects_some(mask: &Mask) -> bool
    ensures { result ≡ selects_some mask.now }
{
    mask.first().is_some()
}

/// The selected rows of a column, from the first row of their range on. Where these are all rows of a column that shares
/// them, none is copied.
pub fn picked(alloc: Global, column: &Column, start: u64, mask: &Mask) -> Result<Column, AllocError>
    requires { start + length mask.now ≤ length column.now.values }
    ensures dtype { IfOk result (λ picked. picked.dtype ≡ column.now.dtype) }
    ensures values { IfOk result (λ picked. picked.values ≡ chosen mask.now (slice_range column.now.values start (start + length mask.now))) }
{
    let _rows = column.len();
    let rows = start..start + mask.len();
    if mask.all_true() {
        column.slice(alloc, rows)
    } else {
        column.filter_range(alloc, rows, mask)
    }
}

/// The selected row at a place among the selected rows.
fn selected_row(start: u64, mask: &Mask, place: u64) -> u64
    requires { start + length mask.now < 2 ^ 64 }
    ensures { (row : ℕ) → slice_get (rows_of start mask.now) place ≡ Some row → result ≡ row }
{
    let mut left = place;
    for row in 0..mask.len() {
        if mask.value(row) {
            if left == 0 {
                return start + row;
            }
            left -= 1;
        }
    }
    start
}

/// Whether a code is a number that is none of so many values.
fn is_past(code: &Cell<'_>, count: u64) -> bool
    ensures { MatchBool result (IsPastCode count (cell_datum code.now)) (IsCodeBelow count (cell_datum code.now)) }
{
    match code {
        Cell::Int(number) => *number >= i128::from(count),
        Cell::Null => false,
        Cell::Bool(_) => false,
        Cell::Text(_) => false,
        Cell::Struct(..) => false,
    }
}

/// The place of the first code that is none of so many values.
fn first_past(codes: &Column, count: u64) -> Option<u64>
    ensures { MatchOption result (AllByRecursion (IsCodeBelow count) codes.now.values) (λ place. IsSomeAnd (slice_get codes.now.values place) (IsPastCode count)) }
{
    for place in 0..codes.len() {
        if is_past(&codes.cell(place), count) {
            return Some(place);
        }
    }
    None
}

/// The values at the codes of a dictionary; a fault names the row of the first code that is none of them.
pub fn looked_up(
    alloc: Global,
    codes: &Column,
    values: &Column,
    start: u64,
    mask: &Mask,
) -> Result<Column, LookUpError>
    requires unsigned { IsUnsigned codes.now.dtype }
    requires few { start + length mask.now < 2 ^ 64 }
    ensures dtype { IfOk result (λ column. column.dtype ≡ nullable_where (nullability_of codes.now.dtype) values.now.dtype) }
    ensures values { IfOk result (λ column. map (look_up values.now.values) codes.now.values ≡ map Some column.values) }
    ensures fault { IfErr result (IsCodeFault (length values.now.values) codes.now.values start mask.now) }
{
    let _rows = codes.len();
    if let Some(place) = first_past(codes, values.len()) {
        return Err(LookUpError::BadCode(selected_row(start, mask, place)));
    }
    Ok(Column::look_up(alloc, codes, values)?)
}

/// A column of zeros, which stands for numbers of rows that nothing looks at.
fn zeros(alloc: Global, rows: u64) -> Result<Column, AllocError>
    ensures dtype { IfOk result (λ column. column.dtype ≡ row_number_type) }
    ensures values { IfOk result (λ column. column.values ≡ replicate rows (natural 0)) }
{
    let mut numbers = Vec::new(alloc);
    numbers.resize(rows as usize, 0)?;
    Column::from_numbers(alloc, numbers)
}

/// An expression over the values of its root; a fault names the first row at which it is one.
pub fn worked_out(
    alloc: Global,
    expression: &BoundExpression,
    root: &Column,
    start: u64,
    mask: &Mask,
) -> Result<Column, ApplyError>
    requires bound { IsBoundTo expression.now root.now.dtype }
    requires few { start + length mask.now < 2 ^ 64 }
    ensures dtype { IfOk result (λ column. column.dtype ≡ expression.now.dtype) }
    ensures values { IfOk result (λ column. map (root_meaning root.now.dtype expression.now.term) root.now.values ≡ map Some column.values) }
    ensures fault { IfErr result (IsEvalFault root.now.dtype expression.now.term root.now.values start mask.now) }
{
    let numbers = zeros(alloc, root.len())?;
    let made = apply(alloc, expression, root, &numbers);
    drop(numbers);
    match made {
        Ok(column) => Ok(column),
        Err(ApplyError::EvalFault(place)) => {
            Err(ApplyError::EvalFault(selected_row(start, mask, place)))
        }
        Err(ApplyError::Memory) => Err(ApplyError::Memory),
    }
}
