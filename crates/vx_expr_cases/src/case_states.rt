//! What the commands have set: the rows, the expression and the filter.

ghost use Rattle.std.specs.Prelude.{◌≡◌, IfOk};
ghost use Rattle.vx_base.specs.declared.dtypes.IntKind.TheVariants.{U64};
ghost use Rattle.vx_base.specs.declared.dtypes.Nullability.TheVariants.{NonNullable};
ghost use Rattle.vx_base.specs.Data.{int_type};

use std::alloc::{AllocError, Global};
use std::mem::replace;
use vx_base::{Column, DType, Nullability};
use vx_expr::{BoundExpression, FilterExpr};
use vx_notation::{column_of, dtype_of, numbers_of as ends_of, two, values_of};

/// What the commands have set.
#[derive(Drop)]
pub(crate) struct CaseState {
    /// The root's values.
    pub(crate) rows: Column,
    /// The number of the first row.
    pub(crate) first_row: u64,
    pub(crate) expression: BoundExpression,
    pub(crate) filter: Option<FilterExpr>,
}

/// The numbers of so many rows, without those past the greatest number.
pub(crate) fn numbers_of(alloc: Global, first: u64, rows: u64) -> Result<Column, AllocError>
    ensures { IfOk result (λ column. column.dtype ≡ int_type U64 NonNullable) }
{
    let numbers: Vec<u64> = (first..first.saturating_add(rows)).collect(alloc)?;
    Column::from_numbers(alloc, numbers)
}

/// The rows of values that each fill those from the end before them to their own. None of words that write none.
fn runs_of(alloc: Global, dtype: DType, words: &str) -> Option<Column> {
    let (values, ends) = two(words).ok()?;
    let values = values_of(alloc, values).ok()?;
    let ends = ends_of(alloc, ends, ' ').ok()?;
    Column::runs(alloc, dtype, values, ends).ok()
}

/// The rows that a command makes: none of a dtype, those of values, one by one or in runs, or so many numbers. None of
/// words that write none.
fn rows_of(alloc: Global, before: &DType, command: &str, words: &str) -> Option<Column> {
    match command {
        "root" => Column::empty(alloc, dtype_of(alloc, words).ok()?).ok(),
        "rows" => column_of(alloc, before.copy(alloc).ok()?, words).ok(),
        "runs" => runs_of(alloc, before.copy(alloc).ok()?, words),
        _ => numbers_of(alloc, 0, words.parse::<u64>().unwrap_or(0)).ok(),
    }
}

/// No rows of truth values.
fn no_rows(alloc: Global) -> Result<Column, AllocError> {
    Column::empty(alloc, DType::Bool(Nullability::NonNullable))
}

/// The root itself, of truth values.
fn root_itself(alloc: Global) -> Result<BoundExpression, AllocError> {
    BoundExpression::new_root(alloc, DType::Bool(Nullability::NonNullable))
}

impl CaseState {
    /// No rows of truth values, and the root itself.
    pub(crate) fn new(alloc: Global) -> Result<CaseState, AllocError> {
        let rows = no_rows(alloc)?;
        let Ok(expression) = root_itself(alloc) else {
            drop(rows);
            return Err(AllocError);
        };
        Ok(CaseState {
            rows,
            first_row: 0,
            expression,
            filter: None,
        })
    }

    /// Sets the rows, which are numbered from 0. Words that write none end all output.
    pub(crate) fn set_rows(
        &mut self,
        alloc: Global,
        command: &str,
        words: &str,
    ) -> Result<(), AllocError> {
        match rows_of(alloc, self.rows.dtype(), command, words) {
            Some(rows) => {
                drop(replace(&mut self.rows, rows));
                self.first_row = 0;
                Ok(())
            }
            None => Err(AllocError),
        }
    }
}
