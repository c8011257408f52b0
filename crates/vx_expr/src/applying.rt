//! Applying a bound expression to a column of root values.

ghost use Rattle.std.specs.Prelude.{◌≡◌, ℕ, Some, map, length, IfOk, IsErrOf, IsTrue};
ghost use Rattle.std.specs.List.{AllByRecursion};
ghost use Rattle.vx_arrays.specs.Buffers.{bare};
ghost use Rattle.vx_base.specs.Fits.{Fits};
ghost use Rattle.vx_base.specs.Views.{data_type};
ghost use Rattle.vx_expr.specs.declared.applying.ApplyError.TheVariants as errors;
ghost use Rattle.vx_expr.specs.Bound.{IsBoundTo};
ghost use Rattle.vx_expr.specs.Mentions.{uses_root};
ghost use Rattle.vx_expr.specs.Rows.{worth, IsFirstFault};
ghost use Rattle.vx_expr.specs.Steps.{evaluated_rows};
ghost use Rattle.vx_expr.specs.Types.{row_number_type};

use crate::applying_runs::applied_to_runs;
use crate::bound_expressions::BoundExpression;
use crate::evaluated::Evaluated;
use crate::evaluation::Rows;
use crate::fitting::{fitting_columnar, fitting_structs, row_value_array};
use crate::found::Finds;
use std::alloc::{AllocError, AllocFailed, Global};
use thiserror::Error;
use vx_arrays::Array;
use vx_base::{Column, ColumnParts, DType};

/// Why an expression has no column over these rows.
#[derive(Debug, Drop, Error)]
pub enum ApplyError {
    /// The first row, counted from 0, at which the expression is a fault.
    #[error("the expression is a fault at row {0}")]
    EvalFault(u64),
    /// There is no memory left.
    #[error("out of memory")]
    Memory,
}

impl From<AllocError> for ApplyError {
    ghost from_gives = { λ _ e. e ≡ errors.Memory };

    fn from(_error: AllocError) -> ApplyError {
        ApplyError::Memory
    }
}

impl<T: Drop> From<AllocFailed<T>> for ApplyError {
    ghost from_gives = { λ _ e. e ≡ errors.Memory };

    fn from(_error: AllocFailed<T>) -> ApplyError {
        ApplyError::Memory
    }
}

/// The same values as an array of a dtype that takes them, wherever they are held.
fn array_of(alloc: Global, dtype: &DType, made: Evaluated<'_>) -> Result<Array, AllocError>
    requires { AllByRecursion (Fits (data_type dtype.now)) (evaluated_rows made) }
    ensures dtype { IfOk result (λ array. array.dtype ≡ bare (data_type dtype.now)) }
    ensures values { IfOk result (λ array. array.values ≡ evaluated_rows made.entry) }
{
    match made {
        Evaluated::Packed(worth) => {
            let rows = worth.len();
            let array = fitting_columnar(alloc, dtype, worth, rows)?;
            Ok(array)
        }
        Evaluated::Structs(rows, columnar_values) => {
            fitting_structs(alloc, dtype, rows, columnar_values)
        }
        Evaluated::RowValues(row_values) => row_value_array(alloc, dtype, row_values),
    }
}

/// The column of values that fit, wherever they are held.
#[tactic(auto, using(vx_arrays::proofs::PackedRows::column_of_values))]
fn column_of(alloc: Global, dtype: &DType, made: Evaluated<'_>) -> Result<Column, AllocError>
    requires { AllByRecursion (Fits (data_type dtype.now)) (evaluated_rows made) }
    ensures dtype { IfOk result (λ column. column.dtype ≡ data_type dtype.now) }
    ensures values { IfOk result (λ column. column.values ≡ evaluated_rows made.entry) }
{
    let array = array_of(alloc, dtype, made)?;
    match dtype.copy(alloc) {
        Ok(dtype) => Ok(Column::of_array(dtype, array)),
        Err(error) => {
            drop(array);
            Err(error)
        }
    }
}

/// The rows of a column, spread.
#[tactic(auto, using(vx_arrays::proofs::PackedRows::all_nullable))]
fn spread(alloc: Global, column: &Column) -> Result<Array, AllocError>
    ensures values { IfOk result (λ array. array.values ≡ column.now.values) }
    ensures fit { AllByRecursion (Fits column.now.dtype) column.now.values }
{
    let values = column.to_values(alloc)?;
    let array = Array::of_values(alloc, column.dtype(), values.as_slice())?;
    Ok(array)
}

/// What the expression is worth at each row of arrays.
pub(crate) fn applied(
    alloc: Global,
    expression: &BoundExpression,
    root: &Array,
    numbers: &Array,
) -> Result<Column, ApplyError>
    requires fit { IsTrue (uses_root expression.now.term) → AllByRecursion (Fits expression.now.root) root.now.values }
    requires numbered { AllByRecursion (Fits row_number_type) numbers.now.values }
    requires same_rows { length numbers.now.values ≡ length root.now.values }
    ensures dtype { IfOk result (λ column. column.dtype ≡ expression.now.dtype) }
    ensures values { IfOk result (λ column. map Some column.values ≡ worth expression.now root.now.values numbers.now.values) }
    ensures fault { (row : ℕ) → IsErrOf result (ApplyError.EvalFault row) → IsFirstFault (worth expression.now root.now.values numbers.now.values) row }
{
    let count = root.len();
    let rows = Rows {
        dtype: expression.root_dtype(),
        root,
        numbers,
        count,
    };
    let mut finds = Finds::new(expression.found());
    let made = expression.expr().evaluated(alloc, rows, &mut finds)?;
    let found = made.len();
    if found < count {
        drop(made);
        return Err(ApplyError::EvalFault(found as u64));
    }
    let column = column_of(alloc, expression.dtype(), made)?;
    Ok(column)
}

/// The same of columns, whose rows are spread where they lie in runs.
fn applied_to_rows(
    alloc: Global,
    expression: &BoundExpression,
    root: &Column,
    numbers: &Column,
) -> Result<Column, ApplyError>
    requires bound { IsBoundTo expression.now root.now.dtype }
    requires numbered { numbers.now.dtype ≡ row_number_type }
    requires same_rows { length numbers.now.values ≡ length root.now.values }
    ensures dtype { IfOk result (λ column. column.dtype ≡ expression.now.dtype) }
    ensures values { IfOk result (λ column. map Some column.values ≡ worth expression.now root.now.values numbers.now.values) }
    ensures fault { (row : ℕ) → IsErrOf result (ApplyError.EvalFault row) → IsFirstFault (worth expression.now root.now.values numbers.now.values) row }
{
    match (root.parts(), numbers.parts()) {
        (ColumnParts::Packed(root), ColumnParts::Packed(numbers)) => {
            applied(alloc, expression, root, numbers)
        }
        _ => {
            let root = spread(alloc, root)?;
            let numbers = spread(alloc, numbers)?;
            applied(alloc, expression, &root, &numbers)
        }
    }
}

/// What the expression is worth at each row, where `root` has the root's values and `numbers` the numbers
/// of the same rows. The bound is `u64::MAX`, so that `at_most_bound` is true of each number. Where the expression is
/// a fault at a row, the first such row is told; a fault in any part is one of the whole, also beside a part that would
/// decide it. Where the root lies in runs and the row's number isn't used, the runs are looked at alone, and the column
/// lies in the same runs.
pub fn apply(
    alloc: Global,
    expression: &BoundExpression,
    root: &Column,
    numbers: &Column,
) -> Result<Column, ApplyError>
    requires bound { IsBoundTo expression.now root.now.dtype }
    requires numbered { numbers.now.dtype ≡ row_number_type }
    requires same_rows { length numbers.now.values ≡ length root.now.values }
    ensures dtype { IfOk result (λ column. column.dtype ≡ expression.now.dtype) }
    ensures values { IfOk result (λ column. map Some column.values ≡ worth expression.now root.now.values numbers.now.values) }
    ensures fault { (row : ℕ) → IsErrOf result (ApplyError.EvalFault row) → IsFirstFault (worth expression.now root.now.values numbers.now.values) row }
{
    match root.parts() {
        ColumnParts::Runs(values, ends) if !expression.uses_row_idx() => {
            applied_to_runs(alloc, expression, values, ends)
        }
        _ => applied_to_rows(alloc, expression, root, numbers),
    }
}
