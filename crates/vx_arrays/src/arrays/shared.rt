//! Arrays behind handles, so that columns and structs of columns can have the same rows. Nothing is ever written to
//! rows that are shared: what is asked of them is answered as of the array, and a range of all of them is another
//! handle.

ghost use Rattle.std.specs.Prelude.{◌≡◌, ◌-◌, ◌≤◌, ◌<◌, ◌↔◌, Some, length, slice_get, IfOk, IsTrue};
ghost use Rattle.vx_types.specs.ValueViews.{datum};
ghost use Rattle.vx_arrays.specs.ArrayRows.{sliced, filtered, joined, picked_at};

use crate::arrays::Array;
use std::alloc::{AllocError, Global};
use std::marker::Model;
use std::ops::Range;
use std::sync::Arc;
use vx_masks::Mask;
use vx_types::Value;

/// An array that several columns, and structs of several columns, can have.
#[cycle(arrays)]
#[derive(Drop)]
pub struct SharedArray {
    array: Arc<Array, Global>,
}

impl Model for SharedArray {
    ghost use Rattle.std.specs.Arc.{arc_value};
    ghost use Rattle.vx_types.specs.Columns.{ColumnData};
    ghost use Rattle.vx_types.specs.Codes.{coded_column};
    ghost use Rattle.vx_arrays.specs.ArrayRows.{shared_size};

    ghost Value = { ColumnData };

    ghost coded = { coded_column };

    ghost view = { λ a. arc_value a.array };

    ghost size = { shared_size };

    ghost use Rattle.std.proofs.Common.{arith};

    ghost size_decreases = { λ a h. omega arith };
}

impl SharedArray {
    /// A handle on an array. It moves the array, and takes memory for the handle alone.
    pub fn new(alloc: Global, array: Array) -> Result<SharedArray, AllocError>
        ensures { IfOk result (λ shared. shared ≡ array) }
    {
        let array = Arc::new(alloc, array)?;
        Ok(SharedArray { array })
    }

    /// Another handle on the same array. It takes no memory.
    pub fn share(&self) -> Result<SharedArray, AllocError>
        ensures { IfOk result (λ shared. shared ≡ self.now) }
    {
        let array = Arc::try_clone(&self.array)?;
        Ok(SharedArray { array })
    }

    /// The array. It takes no memory.
    pub fn array(&self) -> &Array
        ensures { result.now ≡ self.now }
    {
        &self.array
    }

    /// The array alone: the array itself where this is the last handle on it, and else a copy.
    #[tactic(auto, using(crate::proofs::SharedArrays::whole_sliced))]
    pub fn into_array(self, alloc: Global) -> Result<Array, AllocError>
        ensures { IfOk result (λ array. array ≡ self) }
    {
        match Arc::try_unwrap(self.array) {
            Ok(array) => Ok(array),
            Err(shared) => {
                let copied = shared.slice(alloc, 0..shared.len())?;
                Ok(copied)
            }
        }
    }

    /// The value of a row, counted from 0, in memory of its own.
    #[cycle(get)]
    pub(crate) fn get(&self, alloc: Global, row: usize) -> Result<Value, AllocError>
        requires { row < length self.now.values }
        ensures { IfOk result (λ value. slice_get self.now.values row ≡ Some (datum value)) }
    {
        self.array().get(alloc, row)
    }

    /// Whether the value of a row is that of another array's second row.
    #[cycle(same_row)]
    pub(crate) fn same_row(&self, row: usize, other: &SharedArray, second: usize) -> bool
        requires dtype { other.now.dtype ≡ self.now.dtype }
        requires inside { row < length self.now.values }
        requires other_inside { second < length other.now.values }
        ensures { IsTrue result ↔ (slice_get self.now.values row ≡ slice_get other.now.values second) }
    {
        self.array().same_row(row, other.array(), second)
    }

    /// The rows of a range: another handle on the array where it is all of them, which takes no memory, and else
    /// copies.
    #[cycle(slice)]
    #[tactic(auto, using(crate::proofs::SharedArrays::whole_sliced))]
    pub fn slice(&self, alloc: Global, rows: Range<usize>) -> Result<SharedArray, AllocError>
        requires forwards { rows.start ≤ rows.end }
        requires inside { rows.end ≤ length self.now.values }
        ensures { IfOk result (λ made. made ≡ sliced rows.start rows.end self.now) }
    {
        let array = self.array();
        if rows.end - rows.start == array.len() {
            let all = self.share()?;
            return Ok(all);
        }
        let copied = array.slice(alloc, rows)?;
        let made = SharedArray::new(alloc, copied)?;
        Ok(made)
    }

    /// The rows that the mask chooses.
    #[cycle(filter)]
    pub(crate) fn filter(&self, alloc: Global, mask: &Mask) -> Result<SharedArray, AllocError>
        requires { length mask.now ≡ length self.now.values }
        ensures { IfOk result (λ made. made ≡ filtered mask.now self.now) }
    {
        let kept = self.array().filter(alloc, mask)?;
        let made = SharedArray::new(alloc, kept)?;
        Ok(made)
    }

    /// The rows at these places, and null at a place past the last row.
    #[cycle(take)]
    pub(crate) fn take(&self, alloc: Global, places: &[usize]) -> Result<SharedArray, AllocError>
        ensures { IfOk result (λ made. made ≡ picked_at places.now self.now) }
    {
        let taken = self.array().take(alloc, places)?;
        let made = SharedArray::new(alloc, taken)?;
        Ok(made)
    }

    /// The rows of the array, and copies of those of another of the same sort behind them. An array with other handles
    /// on it is copied first.
    #[cycle(append)]
    pub(crate) fn append(
        self,
        alloc: Global,
        other: &SharedArray,
    ) -> Result<SharedArray, AllocError>
        requires { other.now.dtype ≡ self.dtype }
        ensures { IfOk result (λ made. made ≡ joined self other.now) }
    {
        let alone = self.into_array(alloc)?;
        let longer = alone.append(alloc, other.array())?;
        let made = SharedArray::new(alloc, longer)?;
        Ok(made)
    }
}
