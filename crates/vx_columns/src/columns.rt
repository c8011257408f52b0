//! Columns: a dtype and values that it takes, one for each row.

ghost use Rattle.std.specs.Prelude.{◌≡◌, ℕ, ◌<◌, ◌≤◌, ◌++◌, Some, [], length, map, slice_get, OnOk, OnErr, IfOk, IsErrOf, MatchOption};
ghost use Rattle.std.specs.List.{AllByRecursion};
ghost use Rattle.vx_types.specs.Fits.{Fits};
ghost use Rattle.vx_types.specs.Columns.{IsFirstUnfit};
ghost use Rattle.vx_types.specs.Leaf.{IsLeaf, slot_bytes};
ghost use Rattle.vx_types.specs.Slots.{IsShort, is_value};
ghost use Rattle.vx_types.specs.Views.{data_type};
ghost use Rattle.vx_types.specs.ValueViews.{datum};
ghost use Rattle.vx_columns.specs.ColumnParts.{parts_values, laid_values, AreGoodParts};
ghost use Rattle.vx_columns.specs.RunRows.{Rise};
ghost use Rattle.vx_columns.specs.Runs.{spread};
ghost use Rattle.vx_columns.specs.StoredRows.{row_data};
ghost use Rattle.vx_arrays.specs.Cells.{cell_datum};
ghost use Rattle.vx_arrays.specs.PackedColumns.{IsColumn};

use crate::run_rows::Runs;
use crate::stored_rows::{Laid, Rows};
use std::alloc::{AllocError, Global};
use std::marker::Model;
use thiserror::Error;
use vx_arrays::{Array, Cell, SharedArray};
use vx_masks::Mask;
use vx_types::{DType, Value, fits};

/// Why values are no column of a dtype.
#[derive(Debug, Drop, Error)]
pub enum ColumnError {
    /// The first row, counted from 0, whose value the dtype doesn't take.
    #[error("the value of row {0} does not fit the dtype")]
    Unfit(u64),
    /// There is no memory left.
    #[error("out of memory")]
    Memory,
}

/// A dtype and values that it takes, one for each row.
pub struct Column {
    dtype: DType,
    rows: Rows,
}

impl Drop for Column {
    fn drop(self) {
        let Column { dtype: _, rows: _ } = self;
    }
}

impl Model for Column {
    ghost use Rattle.vx_types.specs.Columns.{ColumnData};
    ghost use Rattle.vx_types.specs.Codes.{coded_column};
    ghost use Rattle.vx_types.specs.Views.{data_type};
    ghost use Rattle.vx_columns.specs.StoredRows.{row_data};
    ghost use Rattle.vx_arrays.specs.PackedColumns.{IsColumn};

    ghost Value = { ColumnData };

    ghost coded = { coded_column };

    ghost view = { λ a. record { dtype = data_type a.dtype; values = (row_data a.rows).values } };

    ghost invariant = { λ a. IsColumn (data_type a.dtype) (row_data a.rows) };
}

/// How the rows of a column lie, where they stand.
#[derive(Clone, Copy)]
pub enum ColumnParts<'a> {
    /// Packed one by one.
    Packed(&'a Array),
    /// In runs: a value for each run, and where each run ends.
    Runs(&'a Array, &'a [u64]),
}

/// The first of the values that the dtype doesn't take. None where it takes each.
pub(crate) fn first_unfit(dtype: &DType, values: &[Value]) -> Option<usize>
    ensures { MatchOption result (AllByRecursion (Fits (data_type dtype.now)) (map datum values.now)) (λ row. IsFirstUnfit (data_type dtype.now) (map datum values.now) row) }
{
    for (row, value) in values.iter().enumerate() {
        if !fits(dtype, value) {
            return Some(row);
        }
    }
    None
}

impl Column {
    /// The column of a dtype and of rows that it takes. It takes no memory.
    pub(crate) fn of_rows(dtype: DType, rows: Rows) -> Column
        requires { IsColumn (data_type dtype) (row_data rows) }
        ensures dtype { result.dtype ≡ data_type dtype }
        ensures values { result.values ≡ (row_data rows).values }
    {
        Column { dtype, rows }
    }

    /// The column of a dtype and of packed rows that it takes. It takes no memory.
    pub fn of_array(dtype: DType, array: Array) -> Column
        requires { IsColumn (data_type dtype) array }
        ensures dtype { result.dtype ≡ data_type dtype }
        ensures values { result.values ≡ array.values }
    {
        Column {
            dtype,
            rows: Rows::Plain(array),
        }
    }

    /// What the rows hold. It takes no memory.
    pub(crate) fn rows(&self) -> &Rows
        ensures values { (row_data result.now).values ≡ self.now.values }
        ensures column { IsColumn self.now.dtype (row_data result.now) }
    {
        &self.rows
    }

    /// How the rows lie, and what lies there, shared or not. The dtype takes each of the values; two runs beside each
    /// other can have the same value. It takes no memory, and costs the same for any number of rows.
    pub fn parts(&self) -> ColumnParts<'_>
        ensures values { parts_values result ≡ self.now.values }
        ensures column { IsColumn self.now.dtype (laid_values result) }
        ensures good { AreGoodParts result }
    {
        match self.rows().laid() {
            Laid::Packed(array) => ColumnParts::Packed(array),
            Laid::Runs(runs) => {
                let (values, ends) = runs.parts();
                ColumnParts::Runs(values, ends)
            }
        }
    }

    /// The same column, whose rows other columns can share from now on: where they are packed, `copy` and a `slice` of
    /// all rows copy no row. It moves the rows, and takes memory for a handle on them; runs stay what they are.
    pub fn share(self, alloc: Global) -> Result<Column, AllocError>
        ensures { IfOk result (λ column. column ≡ self) }
    {
        let Column { dtype, rows } = self;
        let rows = rows.share(alloc)?;
        Ok(Column { dtype, rows })
    }

    /// What the rows hold, packed and behind a handle. It moves what is packed already, and copies no row that is shared.
    pub(crate) fn into_shared(self, alloc: Global) -> Result<SharedArray, AllocError>
        ensures values { IfOk result (λ array. array.values ≡ self.values) }
        ensures column { IfOk result (λ array. IsColumn self.dtype array) }
    {
        let Column { dtype, rows } = self;
        drop(dtype);
        rows.into_shared(alloc)
    }

    /// The column in which each row of this one fills the rows from the end before it to its own. It moves rows that
    /// are packed and this column's alone, and takes no memory for them.
    pub fn fill(self, alloc: Global, ends: Vec<u64>) -> Result<Column, AllocError>
        requires same { length ends.items ≡ length self.values }
        requires rise { Rise 0 ends.items }
        ensures dtype { IfOk result (λ column. column.dtype ≡ self.dtype) }
        ensures values { IfOk result (λ column. column.values ≡ spread 0 self.values ends.items) }
    {
        let Column { dtype, rows } = self;
        let array = rows.into_array(alloc)?;
        let runs = Runs::of(array, ends);
        Ok(Column::of_rows(dtype, Rows::Runs(runs)))
    }

    /// The column of these values in this order, where the dtype takes each of them.
    pub fn try_of(alloc: Global, dtype: DType, values: Vec<Value>) -> Result<Column, ColumnError>
        ensures dtype { IfOk result (λ column. column.dtype ≡ data_type dtype) }
        ensures values { IfOk result (λ column. column.values ≡ map datum values.items) }
        ensures fit { OnOk result (AllByRecursion (Fits (data_type dtype)) (map datum values.items)) }
        ensures unfit { (row : ℕ) → IsErrOf result (ColumnError.Unfit row) → IsFirstUnfit (data_type dtype) (map datum values.items) row }
    {
        if let Some(row) = first_unfit(&dtype, &values) {
            return Err(ColumnError::Unfit(row as u64));
        }
        match Column::of_fitting(alloc, dtype, values) {
            Ok(column) => Ok(column),
            Err(_) => Err(ColumnError::Memory),
        }
    }

    /// The column of values that are known to fit, in their order.
    #[tactic(auto, using(vx_arrays::proofs::PackedRows::column_of_values, vx_arrays::proofs::PackedRows::all_nullable))]
    pub fn of_fitting(alloc: Global, dtype: DType, values: Vec<Value>) -> Result<Column, AllocError>
        requires { AllByRecursion (Fits (data_type dtype)) (map datum values.items) }
        ensures dtype { IfOk result (λ column. column.dtype ≡ data_type dtype) }
        ensures values { IfOk result (λ column. column.values ≡ map datum values.items) }
    {
        let array = Array::of_values(alloc, &dtype, values.as_slice())?;
        Ok(Column::of_array(dtype, array))
    }

    /// The column of no rows.
    pub fn empty(alloc: Global, dtype: DType) -> Result<Column, AllocError>
        ensures dtype { IfOk result (λ column. column.dtype ≡ data_type dtype) }
        ensures values { IfOk result (λ column. column.values ≡ []) }
    {
        Column::of_fitting(alloc, dtype, Vec::new(alloc))
    }

    /// How many rows there are.
    pub fn len(&self) -> u64
        ensures rows { result ≡ length self.now.values }
        ensures fit { AllByRecursion (Fits self.now.dtype) self.now.values }
    {
        self.rows.len() as u64
    }

    /// The dtype of the values. It takes no memory.
    pub fn dtype(&self) -> &DType
        ensures { data_type result.now ≡ self.now.dtype }
    {
        &self.dtype
    }

    /// Which rows have a value, a bit for each.
    pub fn validity(&self, alloc: Global) -> Result<Mask, AllocError>
        ensures { IfOk result (λ mask. mask ≡ map is_value self.now.values) }
    {
        let rows = self.rows();
        rows.validity(alloc)
    }

    /// The value of a row, counted from 0, borrowed from the column. It takes no memory.
    pub fn cell(&self, row: u64) -> Cell<'_>
        requires { row < length self.now.values }
        ensures { slice_get self.now.values row ≡ Some (cell_datum result) }
    {
        self.rows.cell(row as usize)
    }

    /// The value of a row, counted from 0, in memory of its own.
    pub fn get(&self, alloc: Global, row: u64) -> Result<Value, AllocError>
        requires { row < length self.now.values }
        ensures { IfOk result (λ value. slice_get self.now.values row ≡ Some (datum value)) }
    {
        let value = self.rows.get(alloc, row as usize)?;
        Ok(value)
    }

    /// The values, row by row, in memory of their own.
    pub fn to_values(&self, alloc: Global) -> Result<Vec<Value>, AllocError>
        ensures values { IfOk result (λ values. map datum values.items ≡ self.now.values) }
        ensures fit { AllByRecursion (Fits self.now.dtype) self.now.values }
    {
        let mut values = Vec::with_capacity(alloc, self.len() as usize)?;
        for row in 0..self.len() {
            let value = self.get(alloc, row)?;
            values.push(value)?;
        }
        Ok(values)
    }

    /// Writes what the rows of a leaf have in a segment behind the validity. Where memory is wanting, nothing stays
    /// written.
    pub fn write_slots(&self, alloc: Global, bytes: &mut Vec<u8>) -> Result<(), AllocError>
        requires leaf { IsLeaf self.now.dtype }
        requires short { AllByRecursion IsShort self.now.values }
        ensures written { OnOk result (bytes.new.items ≡ bytes.old.items ++ slot_bytes self.now.dtype self.now.values) }
        ensures unchanged { OnErr result (bytes.new.items ≡ bytes.old.items) }
    {
        let rows = self.rows();
        rows.write_buffers(alloc, bytes)
    }

    /// How many bytes a segment of a leaf has at most, or the most that a `usize` holds; of runs, a guess.
    pub fn size(&self) -> usize {
        self.rows.size()
    }
}
