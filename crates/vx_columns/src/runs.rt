//! Columns of runs: values that each fill some rows, one behind the other.

ghost use Rattle.std.specs.Prelude.{◌≡◌, ℕ, length, map, IfOk, OnOk, IsErrOf, MatchOption};
ghost use Rattle.std.specs.List.{AllByRecursion};
ghost use Rattle.vx_types.specs.Columns.{IsFirstUnfit};
ghost use Rattle.vx_types.specs.Fits.{Fits};
ghost use Rattle.vx_types.specs.ValueViews.{datum};
ghost use Rattle.vx_types.specs.Views.{data_type};
ghost use Rattle.vx_columns.specs.RunRows.{Rise};
ghost use Rattle.vx_columns.specs.Runs.{spread, AreGoodEnds, IsFirstBadEnd};
ghost use Rattle.vx_arrays.specs.PackedColumns.{IsColumn};

use crate::columns::{Column, first_unfit};
use crate::run_rows::Runs;
use crate::stored_rows::Rows;
use std::alloc::{AllocError, Global};
use thiserror::Error;
use vx_arrays::Array;
use vx_types::{DType, Value};

/// Why values and ends are no runs of a dtype.
#[derive(Debug, Drop, Error)]
pub enum RunsError {
    /// The first place, counted from 0, where an end isn't above the one before it, or where one of the
    /// lists has ended and the other hasn't.
    #[error("the end of run {0} is not above the one before it")]
    BadEnds(u64),
    /// The first value, counted from 0, that the dtype doesn't take.
    #[error("the value of run {0} does not fit the dtype")]
    Unfit(u64),
    /// There is no memory left.
    #[error("out of memory")]
    Memory,
}

/// The first place where the ends are not those of so many values. None where they are.
fn first_bad_end(count: usize, ends: &[u64]) -> Option<usize>
    ensures { MatchOption result (AreGoodEnds count ends.now) (λ place. IsFirstBadEnd count ends.now place) }
{
    let mut before = 0;
    for (place, end) in ends.iter().enumerate() {
        if count <= place || *end <= before {
            return Some(place);
        }
        before = *end;
    }
    if ends.len() < count {
        Some(ends.len())
    } else {
        None
    }
}

impl Column {
    /// The column in which each value fills the rows from the end before it to its own. It takes memory for the
    /// runs alone.
    pub fn runs(
        alloc: Global,
        dtype: DType,
        values: Vec<Value>,
        ends: Vec<u64>,
    ) -> Result<Column, RunsError>
        ensures dtype { IfOk result (λ column. column.dtype ≡ data_type dtype) }
        ensures values { IfOk result (λ column. column.values ≡ spread 0 (map datum values.items) ends.items) }
        ensures good { OnOk result (AreGoodEnds (length values.items) ends.items) }
        ensures fit { OnOk result (AllByRecursion (Fits (data_type dtype)) (map datum values.items)) }
        ensures bad { (place : ℕ) → IsErrOf result (RunsError.BadEnds place) → IsFirstBadEnd (length values.items) ends.items place }
        ensures unfit { (row : ℕ) → IsErrOf result (RunsError.Unfit row) → AreGoodEnds (length values.items) ends.items × IsFirstUnfit (data_type dtype) (map datum values.items) row }
    {
        if let Some(place) = first_bad_end(values.len(), ends.as_slice()) {
            return Err(RunsError::BadEnds(place as u64));
        }
        if let Some(row) = first_unfit(&dtype, values.as_slice()) {
            return Err(RunsError::Unfit(row as u64));
        }
        match column_of_runs(alloc, dtype, values.as_slice(), ends) {
            Ok(column) => Ok(column),
            Err(_) => Err(RunsError::Memory),
        }
    }

    /// The column in which each value of an array, which the dtype takes, fills the rows from the end before it to its
    /// own. It moves both, takes no memory, and costs the same for any number of rows.
    pub fn of_runs(dtype: DType, values: Array, ends: Vec<u64>) -> Column
        requires column { IsColumn (data_type dtype) values }
        requires same { length ends.items ≡ length values.values }
        requires rise { Rise 0 ends.items }
        ensures dtype { result.dtype ≡ data_type dtype }
        ensures values { result.values ≡ spread 0 values.values ends.items }
    {
        let runs = Runs::of(values, ends);
        Column::of_rows(dtype, Rows::Runs(runs))
    }
}

/// The column in which each of the values, which fit, fills its rows.
fn column_of_runs(
    alloc: Global,
    dtype: DType,
    values: &[Value],
    ends: Vec<u64>,
) -> Result<Column, AllocError>
    requires good { AreGoodEnds (length values.now) ends.items }
    requires fit { AllByRecursion (Fits (data_type dtype)) (map datum values.now) }
    ensures dtype { IfOk result (λ column. column.dtype ≡ data_type dtype) }
    ensures values { IfOk result (λ column. column.values ≡ spread 0 (map datum values.now) ends.items) }
{
    let values = Array::of_values(alloc, &dtype, values)?;
    let runs = Runs::of(values, ends);
    Ok(Column::of_rows(dtype, Rows::Runs(runs)))
}
