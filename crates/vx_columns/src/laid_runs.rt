//! How the rows of a column lie in runs: where each run of rows that are the same ends, and whether neighbours are
//! the same.

ghost use Rattle.std.specs.Prelude.{◌≡◌, ◌<◌, ◌↔◌, length, slice_get, IsTrue, IfOk, MatchOption};
ghost use Rattle.vx_masks.specs.Rows.{taken};
ghost use Rattle.vx_types.specs.Data.{null};
ghost use Rattle.vx_columns.specs.LaidRuns.{AllAlike, AreRunsOf, Differ, IsFirstOther, IsRunEnd};
ghost use Rattle.vx_columns.specs.StoredRows.{row_data};

use crate::columns::Column;
use crate::run_rows::{Runs, place_of};
use crate::stored_rows::{Laid, Rows};
use std::alloc::{AllocError, Global};
use vx_arrays::Array;

/// Up to where the rows of an array from this one on have its value.
#[tactic(auto, using(crate::proofs::RunEnds::run_first))]
fn array_run_end(array: &Array, row: usize) -> usize
    requires { row < length array.now.values }
    ensures { IsRunEnd array.now.values row result }
{
    let rows = array.len();
    for end in row + 1..rows {
        if !array.same_row(end, array, row) {
            return end;
        }
    }
    rows
}

impl Runs {
    /// Up to where the rows from this one on have its value. It looks at the runs alone.
    fn run_end(&self, row: usize) -> usize
        requires { row < length self.now.values }
        ensures { IsRunEnd self.now.values row result }
    {
        let (values, ends) = self.parts();
        let place = place_of(ends, row as u64);
        let behind = array_run_end(values, place);
        ends[behind - 1] as usize
    }
}

impl Rows {
    /// Whether two rows have the same value.
    #[tactic(auto, using(crate::proofs::ColumnRows::rows_agree))]
    fn are_same(&self, row: usize, second: usize) -> bool
        requires inside { row < length (row_data self.now).values }
        requires second_inside { second < length (row_data self.now).values }
        ensures { IsTrue result ↔ (slice_get (row_data self.now).values row ≡ slice_get (row_data self.now).values second) }
    {
        let (one, place) = self.value_of(row);
        let (two, other) = self.value_of(second);
        one.same_row(place, two, other)
    }

    /// Whether no two neighbours are the same.
    #[tactic(auto, using(crate::proofs::LaidRuns::differ_none, crate::proofs::LaidRuns::differ_all))]
    fn differ(&self) -> bool
        ensures { IsTrue result ↔ Differ (row_data self.now).values }
    {
        for row in 1..self.len() {
            if self.are_same(row - 1, row) {
                return false;
            }
        }
        true
    }

    /// Up to where the rows from this one on have its value.
    fn run_end(&self, row: usize) -> usize
        requires { row < length (row_data self.now).values }
        ensures { IsRunEnd (row_data self.now).values row result }
    {
        match self.laid() {
            Laid::Packed(array) => array_run_end(array, row),
            Laid::Runs(runs) => runs.run_end(row),
        }
    }

    /// The first row of each run of rows that are the same, and where the run ends.
    fn run_bounds(&self, alloc: Global) -> Result<(Vec<usize>, Vec<u64>), AllocError>
        ensures { IfOk result (λ made. AreRunsOf (row_data self.now).values (taken null (row_data self.now).values made.0.items) made.1.items) }
    {
        let mut starts = Vec::new(alloc);
        let mut ends = Vec::new(alloc);
        let rows = self.len();
        let mut start = 0;
        while start < rows {
            starts.push(start)?;
            start = self.run_end(start);
            ends.push(start as u64)?;
        }
        Ok((starts, ends))
    }
}

impl Column {
    /// Up to where the rows from this one on have its value. It takes no memory. Packed rows are compared one after
    /// another up to there; of rows that lie in runs the run of this one is found by a binary search, and only the
    /// values of runs are compared.
    pub fn run_end(&self, row: u64) -> u64
        requires { row < length self.now.values }
        ensures { IsRunEnd self.now.values row result }
    {
        let rows = self.rows();
        rows.run_end(row as usize) as u64
    }

    /// The first row that has another value than the first one; None where all rows are the same, or there are none.
    /// It takes no memory, and of rows that lie in runs it looks at the runs alone.
    pub fn first_other(&self) -> Option<u64>
        ensures { MatchOption result (AllAlike self.now.values) (λ row. IsFirstOther self.now.values row) }
    {
        let rows = self.len();
        if rows == 0 {
            return None;
        }
        let end = self.run_end(0);
        if end < rows { Some(end) } else { None }
    }

    /// The value of each run of rows that are the same, and where the run ends. It takes memory for the runs alone.
    /// Packed rows are compared one after another, in one pass; of rows that lie in runs only the values of runs are
    /// compared, and each run is found by a binary search.
    pub fn to_runs(&self, alloc: Global) -> Result<(Column, Vec<u64>), AllocError>
        ensures dtype { IfOk result (λ made. made.0.dtype ≡ self.now.dtype) }
        ensures runs { IfOk result (λ made. AreRunsOf self.now.values made.0.values made.1.items) }
    {
        let rows = self.rows();
        let (starts, ends) = rows.run_bounds(alloc)?;
        let values = rows.take(alloc, starts.as_slice())?;
        let dtype = self.dtype().copy(alloc)?;
        Ok((Column::of_array(dtype, values), ends))
    }

    /// Whether no row has the value of the row before it. It takes no memory.
    pub fn neighbours_differ(&self) -> bool
        ensures { IsTrue result ↔ Differ self.now.values }
    {
        let rows = self.rows();
        rows.differ()
    }
}
