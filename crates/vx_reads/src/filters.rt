//! The rows of a mask at which an expression over a column is true.

ghost use Rattle.std.specs.Prelude.{◌≡◌, ◌+◌, ◌<◌, ◌≤◌, ◌^◌, ℕ, true, length, replicate, IfErr, IfOk, Option};
ghost use Rattle.vx_base.specs.ColumnCalls.{IsBool, IsUnsigned};
ghost use Rattle.vx_base.specs.Data.{Datum};
ghost use Rattle.vx_base.specs.Masks.{true_count};
ghost use Rattle.vx_expr.specs.Bound.{IsBoundTo};
ghost use Rattle.vx_expr.specs.Meaning.{is_strict};
ghost use Rattle.vx_reads.specs.Errors.{IsOfBytes};
ghost use Rattle.vx_reads.specs.FilterFaults.{IsColumnFault, IsFilterFault, IsPushedFault};
ghost use Rattle.vx_picking.specs.Rows.{rows_of, AreOf};
ghost use Rattle.vx_reads.specs.Truths.{column_meaning, filtered, looked_meaning, AreLookedUp, AreTruths, AreWorth};

use crate::errors::ReaderError;
use crate::faults::{apply_fault, look_up_fault};
use std::alloc::Global;
use vx_base::{Column, Mask};
use vx_expr::{BoundExpression, strict_is_null};
use vx_picking::{looked_up, picked, worked_out};

/// Whether the expression is true at each of the selected rows. An error names its row from `first` on.
fn truths_at(
    alloc: Global,
    expression: &BoundExpression,
    column: &Column,
    start: u64,
    first: u64,
    rows: &Mask,
) -> Result<Mask, ReaderError>
    requires bound { IsBoundTo expression.now column.now.dtype }
    requires bool { IsBool expression.now.dtype }
    requires inside { start + length rows.now ≤ length column.now.values }
    requires few { first + length rows.now < 2 ^ 64 }
    ensures truths { IfOk result (AreTruths (column_meaning column.now expression.now.term) (rows_of start rows.now)) }
    ensures count { IfOk result (λ truths. length truths ≡ true_count rows.now) }
    ensures cause { IfErr result (IsColumnFault column.now expression.now.term start first rows.now) }
    ensures own { IfErr result IsOfBytes }
{
    let root = picked(alloc, column, start, rows)?;
    let made = worked_out(alloc, expression, &root, first, rows);
    drop(root);
    match made {
        Ok(worth) => {
            let truths = worth.truth(alloc);
            drop(worth);
            let truths = truths?;
            Ok(truths)
        }
        Err(error) => Err(apply_fault(error)),
    }
}

/// The mask's rows at which the expression is true, worked out at these rows alone.
pub fn sparse_filter(
    alloc: Global,
    expression: &BoundExpression,
    column: &Column,
    start: u64,
    first: u64,
    mask: &Mask,
) -> Result<Mask, ReaderError>
    requires bound { IsBoundTo expression.now column.now.dtype }
    requires bool { IsBool expression.now.dtype }
    requires inside { start + length mask.now ≤ length column.now.values }
    requires few { first + length mask.now < 2 ^ 64 }
    ensures kept { IfOk result (λ kept. kept ≡ filtered (column_meaning column.now expression.now.term) start mask.now) }
    ensures worth { IfOk result (λ _. AreWorth (column_meaning column.now expression.now.term) start mask.now) }
    ensures cause { IfErr result (IsColumnFault column.now expression.now.term start first mask.now) }
    ensures own { IfErr result IsOfBytes }
{
    match truths_at(alloc, expression, column, start, first, mask) {
        Ok(truths) => Ok(mask.intersect_by_rank(alloc, &truths)?),
        Err(error) => Err(error),
    }
}

/// The mask's rows at which the expression is true, worked out at each row of the range.
pub fn dense_filter(
    alloc: Global,
    expression: &BoundExpression,
    column: &Column,
    start: u64,
    first: u64,
    mask: &Mask,
) -> Result<Mask, ReaderError>
    requires bound { IsBoundTo expression.now column.now.dtype }
    requires bool { IsBool expression.now.dtype }
    requires inside { start + length mask.now ≤ length column.now.values }
    requires few { first + length mask.now < 2 ^ 64 }
    ensures kept { IfOk result (λ kept. kept ≡ filtered (column_meaning column.now expression.now.term) start mask.now) }
    ensures worth { IfOk result (λ _. AreWorth (column_meaning column.now expression.now.term) start mask.now) }
    ensures cause { IfErr result (IsColumnFault column.now expression.now.term start first (replicate (length mask.now) true)) }
    ensures own { IfErr result IsOfBytes }
{
    let all = Mask::new_true(alloc, mask.len())?;
    match truths_at(alloc, expression, column, start, first, &all) {
        Ok(truths) => {
            let kept = mask.and(alloc, &truths)?;
            Ok(kept)
        }
        Err(error) => Err(error),
    }
}

/// The mask's rows at which the expression is true: worked out at these rows alone, where they are less than a fifth of
/// the range.
pub fn filter_column(
    alloc: Global,
    expression: &BoundExpression,
    column: &Column,
    start: u64,
    first: u64,
    mask: &Mask,
) -> Result<Mask, ReaderError>
    requires bound { IsBoundTo expression.now column.now.dtype }
    requires bool { IsBool expression.now.dtype }
    requires inside { start + length mask.now ≤ length column.now.values }
    requires few { first + length mask.now < 2 ^ 64 }
    ensures kept { IfOk result (λ kept. kept ≡ filtered (column_meaning column.now expression.now.term) start mask.now) }
    ensures worth { IfOk result (λ _. AreWorth (column_meaning column.now expression.now.term) start mask.now) }
    ensures cause { IfErr result (IsFilterFault column.now expression.now.term start first mask.now) }
    ensures own { IfErr result IsOfBytes }
{
    if mask.true_count() < mask.len().div_ceil(5) {
        sparse_filter(alloc, expression, column, start, first, mask)
    } else {
        dense_filter(alloc, expression, column, start, first, mask)
    }
}

/// The mask's rows at which a strict expression is true over the values at the codes, one for each of these rows: it is
/// worked out over the values, and its truth looked up. The values have the dtype of the dictionary.
pub fn pushed_filter(
    alloc: Global,
    expression: &BoundExpression,
    node: u32,
    codes: &Column,
    values: &Column,
    start: u64,
    mask: &Mask,
) -> Result<Mask, ReaderError>
    requires bound { IsBoundTo expression.now values.now.dtype }
    requires bool { IsBool expression.now.dtype }
    requires strict { is_strict expression.now.term ≡ true }
    requires unsigned { IsUnsigned codes.now.dtype }
    requires rows { length codes.now.values ≡ true_count mask.now }
    requires few { start + length mask.now < 2 ^ 64 }
    ensures rows { IfOk result (λ kept. length kept ≡ length mask.now) }
    ensures kept { IfOk result (λ kept. (code_at : ℕ → Option Datum) → AreOf code_at (rows_of start mask.now) codes.now.values → kept ≡ filtered (looked_meaning values.now expression.now.term code_at) start mask.now) }
    ensures known { IfOk result (λ _. (code_at : ℕ → Option Datum) → AreOf code_at (rows_of start mask.now) codes.now.values → AreLookedUp values.now expression.now.term code_at start mask.now) }
    ensures cause { IfErr result (IsPushedFault values.now expression.now.term codes.now.values start mask.now node) }
    ensures own { IfErr result IsOfBytes }
{
    strict_is_null();
    let all = Mask::new_true(alloc, values.len())?;
    let worth = match worked_out(alloc, expression, values, 0, &all) {
        Ok(worth) => worth,
        Err(error) => return Err(apply_fault(error)),
    };
    let found = looked_up(alloc, codes, &worth, start, mask);
    drop(worth);
    match found {
        Ok(found) => {
            let truths = found.truth(alloc);
            drop(found);
            let truths = truths?;
            Ok(mask.intersect_by_rank(alloc, &truths)?)
        }
        Err(error) => Err(look_up_fault(node, error)),
    }
}
