//! Applying a bound expression to a column that lies in runs: where the row's number isn't used, the values of the
//! runs are looked at alone.

ghost use Rattle.std.specs.Prelude.{◌≡◌, ℕ, ◌≤◌, Some, false, map, length, IfOk, IsErrOf, IsTrue};
ghost use Rattle.std.specs.List.{AllByRecursion};
ghost use Rattle.vx_base.specs.Fits.{Fits};
ghost use Rattle.vx_base.specs.RunRows.{Rise, start_of};
ghost use Rattle.vx_base.specs.Runs.{spread};
ghost use Rattle.vx_expr.specs.Mentions.{uses_root, uses_row_number};
ghost use Rattle.vx_expr.specs.Rows.{worth_of_each, IsFirstFault};
ghost use Rattle.vx_expr.specs.Types.{row_number_type};

use crate::applying::{ApplyError, applied};
use crate::bound_expressions::BoundExpression;
use std::alloc::{AllocError, Global};
use vx_arrays::{Array, Numbers, Primitive};
use vx_base::{Column, Mask};

/// A number for each run, which nothing looks at: where it ends.
fn numbers_of(alloc: Global, ends: &[u64]) -> Result<Array, AllocError>
    ensures numbered { IfOk result (λ numbers. AllByRecursion (Fits row_number_type) numbers.values) }
    ensures count { IfOk result (λ numbers. length numbers.values ≡ length ends.now) }
{
    let validity = Mask::new_true(alloc, ends.len() as u64)?;
    let copied = Vec::from_slice(alloc, ends)?;
    let numbers = Numbers::U64(Primitive::of(copied));
    let _inside = numbers.len();
    let array = Array::of_numbers(validity, numbers);
    Ok(array)
}

/// Where a run begins.
fn run_start(ends: &[u64], run: u64) -> u64
    requires { run ≤ length ends.now }
    ensures { result ≡ start_of 0 ends.now run }
{
    if run == 0 { 0 } else { ends[run as usize - 1] }
}

/// The column in which each row of this one fills its run.
fn filled(alloc: Global, column: Column, ends: &[u64]) -> Result<Column, AllocError>
    requires same { length ends.now ≡ length column.values }
    requires rise { Rise 0 ends.now }
    ensures dtype { IfOk result (λ made. made.dtype ≡ column.dtype) }
    ensures values { IfOk result (λ made. made.values ≡ spread 0 column.values ends.now) }
{
    match Vec::from_slice(alloc, ends) {
        Ok(ends) => column.fill(alloc, ends),
        Err(error) => Err(error),
    }
}

/// What an expression that doesn't use the row's number is worth at each row of values that each fill the rows from the
/// end before them to their own, as a column of the same runs. A fault at a run is one at its first row.
pub(crate) fn applied_to_runs(
    alloc: Global,
    expression: &BoundExpression,
    values: &Array,
    ends: &[u64],
) -> Result<Column, ApplyError>
    requires unnumbered { uses_row_number expression.now.term ≡ false }
    requires fit { IsTrue (uses_root expression.now.term) → AllByRecursion (Fits expression.now.root) values.now.values }
    requires same { length ends.now ≡ length values.now.values }
    requires rise { Rise 0 ends.now }
    ensures dtype { IfOk result (λ column. column.dtype ≡ expression.now.dtype) }
    ensures values { IfOk result (λ column. map Some column.values ≡ spread 0 (worth_of_each expression.now values.now.values) ends.now) }
    ensures fault { (row : ℕ) → IsErrOf result (ApplyError.EvalFault row) → IsFirstFault (spread 0 (worth_of_each expression.now values.now.values) ends.now) row }
{
    let numbers = numbers_of(alloc, ends)?;
    let made = applied(alloc, expression, values, &numbers);
    drop(numbers);
    match made {
        Ok(column) => match filled(alloc, column, ends) {
            Ok(made) => Ok(made),
            Err(_) => Err(ApplyError::Memory),
        },
        Err(ApplyError::EvalFault(run)) => Err(ApplyError::EvalFault(run_start(ends, run))),
        Err(ApplyError::Memory) => Err(ApplyError::Memory),
    }
}
