//! The rows of a column: packed one by one, the column's own or shared with other columns, or in runs. Runs stay runs
//! through ranges and masks, and are spread for the calls that go over packed rows. Nothing is ever written to rows
//! that are shared: what is asked of them is answered as of packed rows, and a range of all of them is another handle.

ghost use Rattle.std.specs.Prelude.{◌≡◌, ◌-◌, ◌<◌, ◌≤◌, ◌↔◌, ◌++◌, Some, length, map, slice_get, IsTrue, IfOk, OnOk, OnErr};
ghost use Rattle.std.specs.List.{AllByRecursion};
ghost use Rattle.vx_types.specs.ColumnCalls.{IsBool, IsUnsigned};
ghost use Rattle.vx_types.specs.Leaf.{IsLeaf, slot_bytes};
ghost use Rattle.vx_types.specs.Slots.{IsShort, is_value, truth_in};
ghost use Rattle.vx_types.specs.ValueViews.{datum};
ghost use Rattle.vx_columns.specs.StoredRows.{row_data, laid_data};
ghost use Rattle.vx_arrays.specs.Cells.{cell_datum};
ghost use Rattle.vx_arrays.specs.LookUps.{code_places};
ghost use Rattle.vx_arrays.specs.ArrayRows.{sliced, filtered, joined, picked_at};

use crate::run_rows::Runs;
use std::alloc::{AllocError, Global};
use std::ops::Range;
use vx_arrays::{Array, Cell, SharedArray};
use vx_masks::Mask;
use vx_types::Value;

/// The rows of a column.
pub(crate) enum Rows {
    /// Packed, and this column's alone.
    Plain(Array),
    /// Packed, and perhaps other columns' too.
    Shared(SharedArray),
    /// In runs.
    Runs(Runs),
}

impl Drop for Rows {
    fn drop(self) {
        match self {
            Rows::Plain(_) => {}
            Rows::Shared(_) => {}
            Rows::Runs(_) => {}
        }
    }
}

/// How rows lie, whoever has them: packed, or in runs.
#[derive(Clone, Copy)]
pub(crate) enum Laid<'a> {
    Packed(&'a Array),
    Runs(&'a Runs),
}

impl Rows {
    /// How the rows lie. It takes no memory.
    pub(crate) fn laid(&self) -> Laid<'_>
        ensures { laid_data result ≡ row_data self.now }
    {
        match self {
            Rows::Plain(array) => Laid::Packed(array),
            Rows::Shared(shared) => Laid::Packed(shared.array()),
            Rows::Runs(runs) => Laid::Runs(runs),
        }
    }

    /// The same rows, so that other columns can share them. It moves packed rows behind a handle, which takes memory
    /// for the handle alone; runs stay what they are.
    pub(crate) fn share(self, alloc: Global) -> Result<Rows, AllocError>
        ensures { IfOk result (λ rows. row_data rows ≡ row_data self) }
    {
        match self {
            Rows::Plain(array) => {
                let shared = SharedArray::new(alloc, array)?;
                Ok(Rows::Shared(shared))
            }
            rows => Ok(rows),
        }
    }

    /// How many rows there are.
    pub(crate) fn len(&self) -> usize
        ensures { result ≡ length (row_data self.now).values }
    {
        match self.laid() {
            Laid::Packed(array) => array.len(),
            Laid::Runs(runs) => runs.len(),
        }
    }

    /// Which rows have a value, a bit for each.
    pub(crate) fn validity(&self, alloc: Global) -> Result<Mask, AllocError>
        ensures { IfOk result (λ mask. mask ≡ map is_value (row_data self.now).values) }
    {
        match self.laid() {
            Laid::Packed(array) => array.validity().copy(alloc),
            Laid::Runs(runs) => runs.validity(alloc),
        }
    }

    /// What holds the value of a row, and the place of the value in it. It takes no memory.
    pub(crate) fn value_of(&self, row: usize) -> (&Array, usize)
        requires { row < length (row_data self.now).values }
        ensures dtype { result.0.now.dtype ≡ (row_data self.now).dtype }
        ensures there { result.1 < length result.0.now.values }
        ensures value { slice_get (row_data self.now).values row ≡ slice_get result.0.now.values result.1 }
    {
        match self.laid() {
            Laid::Packed(array) => (array, row),
            Laid::Runs(runs) => runs.value_of(row),
        }
    }

    /// The value of a row, counted from 0, borrowed. It takes no memory.
    pub(crate) fn cell(&self, row: usize) -> Cell<'_>
        requires { row < length (row_data self.now).values }
        ensures { slice_get (row_data self.now).values row ≡ Some (cell_datum result) }
    {
        let (array, place) = self.value_of(row);
        array.cell(place)
    }

    /// The value of a row, counted from 0, in memory of its own.
    pub(crate) fn get(&self, alloc: Global, row: usize) -> Result<Value, AllocError>
        requires { row < length (row_data self.now).values }
        ensures { IfOk result (λ value. slice_get (row_data self.now).values row ≡ Some (datum value)) }
    {
        let (array, place) = self.value_of(row);
        let value = array.get(alloc, place)?;
        Ok(value)
    }

    /// The rows of a range. All rows of shared ones are another handle on them, which takes no memory.
    pub(crate) fn slice(&self, alloc: Global, rows: Range<usize>) -> Result<Rows, AllocError>
        requires forwards { rows.start ≤ rows.end }
        requires inside { rows.end ≤ length (row_data self.now).values }
        ensures { IfOk result (λ made. row_data made ≡ sliced rows.start rows.end (row_data self.now)) }
    {
        match self {
            Rows::Plain(array) => {
                let copied = array.slice(alloc, rows)?;
                Ok(Rows::Plain(copied))
            }
            Rows::Shared(shared) => {
                let range = shared.slice(alloc, rows)?;
                Ok(Rows::Shared(range))
            }
            Rows::Runs(runs) => {
                let copied = runs.slice(alloc, rows)?;
                Ok(Rows::Runs(copied))
            }
        }
    }

    /// The rows that the mask chooses.
    pub(crate) fn filter(&self, alloc: Global, mask: &Mask) -> Result<Rows, AllocError>
        requires { length mask.now ≡ length (row_data self.now).values }
        ensures { IfOk result (λ made. row_data made ≡ filtered mask.now (row_data self.now)) }
    {
        Ok(match self.laid() {
            Laid::Packed(array) => Rows::Plain(array.filter(alloc, mask)?),
            Laid::Runs(runs) => Rows::Runs(runs.filter(alloc, mask)?),
        })
    }

    /// The rows of a range that the mask chooses of them.
    pub(crate) fn filter_range(
        &self,
        alloc: Global,
        rows: Range<usize>,
        mask: &Mask,
    ) -> Result<Rows, AllocError>
        requires forwards { rows.start ≤ rows.end }
        requires inside { rows.end ≤ length (row_data self.now).values }
        requires masked { length mask.now ≡ rows.end - rows.start }
        ensures { IfOk result (λ made. row_data made ≡ filtered mask.now (sliced rows.start rows.end (row_data self.now))) }
    {
        Ok(match self.laid() {
            Laid::Packed(array) => Rows::Plain(array.filter_range(alloc, rows, mask)?),
            Laid::Runs(runs) => Rows::Runs(runs.slice(alloc, rows)?.filter(alloc, mask)?),
        })
    }

    /// The rows at these places, and null at a place past the last row.
    pub(crate) fn take(&self, alloc: Global, places: &[usize]) -> Result<Array, AllocError>
        ensures { IfOk result (λ array. array ≡ picked_at places.now (row_data self.now)) }
    {
        match self.laid() {
            Laid::Packed(array) => array.take(alloc, places),
            Laid::Runs(runs) => runs.take(alloc, places),
        }
    }

    /// The numbers as places of so many rows, and the place past the last one where there is none.
    pub(crate) fn places(&self, alloc: Global, past: usize) -> Result<Vec<usize>, AllocError>
        requires { IsUnsigned (row_data self.now).dtype }
        ensures { IfOk result (λ places. places.items ≡ code_places past (row_data self.now).values) }
    {
        match self.laid() {
            Laid::Packed(array) => array.places(alloc, past),
            Laid::Runs(runs) => runs.spread(alloc)?.places(alloc, past),
        }
    }

    /// The rows whose value is true: a null is not.
    pub(crate) fn truth(&self, alloc: Global) -> Result<Mask, AllocError>
        requires { IsBool (row_data self.now).dtype }
        ensures { IfOk result (λ mask. mask ≡ map truth_in (row_data self.now).values) }
    {
        match self.laid() {
            Laid::Packed(array) => array.truth(alloc),
            Laid::Runs(runs) => runs.spread(alloc)?.truth(alloc),
        }
    }

    /// Writes what the rows of a leaf hold, as a segment has it behind the validity. Where memory is wanting, nothing
    /// stays written.
    pub(crate) fn write_buffers(&self, alloc: Global, bytes: &mut Vec<u8>) -> Result<(), AllocError>
        requires leaf { IsLeaf (row_data self.now).dtype }
        requires short { AllByRecursion IsShort (row_data self.now).values }
        ensures written { OnOk result (bytes.new.items ≡ bytes.old.items ++ slot_bytes (row_data self.now).dtype (row_data self.now).values) }
        ensures unchanged { OnErr result (bytes.new.items ≡ bytes.old.items) }
    {
        match self.laid() {
            Laid::Packed(array) => array.write_buffers(bytes),
            Laid::Runs(runs) => runs.spread(alloc)?.write_buffers(bytes),
        }
    }

    /// How many bytes a segment of a leaf has at most, or the most that a `usize` holds; of runs, a guess.
    pub(crate) fn size(&self) -> usize {
        match self.laid() {
            Laid::Packed(array) => array.size(),
            Laid::Runs(runs) => runs.len(),
        }
    }

    /// All rows, packed and behind a handle. It moves what is packed already, and copies no row that is shared.
    pub(crate) fn into_shared(self, alloc: Global) -> Result<SharedArray, AllocError>
        ensures { IfOk result (λ shared. shared ≡ row_data self) }
    {
        match self {
            Rows::Plain(array) => SharedArray::new(alloc, array),
            Rows::Shared(shared) => Ok(shared),
            Rows::Runs(runs) => {
                let array = runs.spread(alloc)?;
                SharedArray::new(alloc, array)
            }
        }
    }

    /// All rows, packed and this column's alone. It moves what is packed already, unless other columns have it too.
    pub(crate) fn into_array(self, alloc: Global) -> Result<Array, AllocError>
        ensures { IfOk result (λ array. array ≡ row_data self) }
    {
        match self {
            Rows::Plain(array) => Ok(array),
            Rows::Shared(shared) => shared.into_array(alloc),
            Rows::Runs(runs) => runs.spread(alloc),
        }
    }

    /// The rows of an array of the same sort, and copies of these behind them.
    pub(crate) fn append_to(&self, alloc: Global, array: Array) -> Result<Array, AllocError>
        requires { (row_data self.now).dtype ≡ array.dtype }
        ensures { IfOk result (λ made. made ≡ joined array (row_data self.now)) }
    {
        match self.laid() {
            Laid::Packed(more) => array.append(alloc, more),
            Laid::Runs(runs) => {
                let more = runs.spread(alloc)?;
                array.append(alloc, &more)
            }
        }
    }

    /// Whether the values of a row are the same.
    #[tactic(auto, using(crate::proofs::ColumnRows::row_agrees))]
    fn same_row(&self, other: &Rows, row: usize) -> bool
        requires dtype { (row_data other.now).dtype ≡ (row_data self.now).dtype }
        requires inside { row < length (row_data self.now).values }
        requires other_inside { row < length (row_data other.now).values }
        ensures { IsTrue result ↔ (slice_get (row_data self.now).values row ≡ slice_get (row_data other.now).values row) }
    {
        let (one, place) = self.value_of(row);
        let (two, second) = other.value_of(row);
        one.same_row(place, two, second)
    }

    /// Whether the values are the same, row by row.
    fn same_rows(&self, other: &Rows) -> bool
        requires { (row_data other.now).dtype ≡ (row_data self.now).dtype }
        ensures { IsTrue result ↔ ((row_data self.now).values ≡ (row_data other.now).values) }
    {
        if self.len() != other.len() {
            return false;
        }
        for row in 0..self.len() {
            if !self.same_row(other, row) {
                return false;
            }
        }
        true
    }

    /// Whether the values are the same, in the same order: of packed leaves, what lies in memory. It takes
    /// no memory.
    pub(crate) fn same(&self, other: &Rows) -> bool
        requires { (row_data other.now).dtype ≡ (row_data self.now).dtype }
        ensures { IsTrue result ↔ ((row_data self.now).values ≡ (row_data other.now).values) }
    {
        match (self.laid(), other.laid()) {
            (Laid::Packed(ones), Laid::Packed(others)) => ones.same(others),
            _ => self.same_rows(other),
        }
    }
}
