//! The values of a row.

ghost use Rattle.std.specs.Prelude.{◌≡◌, ◌<◌, length, slice_get, Some, IfOk};
ghost use Rattle.vx_types.specs.Data.{text};
ghost use Rattle.vx_arrays.specs.Cells.{cell_datum};
ghost use Rattle.vx_types.specs.ValueViews.{datum};
ghost use Rattle.vx_arrays.specs.Buffers.{buffer_values};

use crate::arrays::{Array, Buffers, ChildArrays};
use crate::cells::Cell;
use crate::numbers::Numbers;
use crate::texts::Texts;
use std::alloc::{AllocError, Global};
use vx_types::{Text, Value, Values};

impl ChildArrays {
    /// The arrays' values at a row, in memory of their own.
    #[cycle(get)]
    pub fn get(&self, alloc: Global, row: usize) -> Result<Values, AllocError>
        requires { row < length self.now.rows }
        ensures { IfOk result (λ values. slice_get self.now.rows row ≡ Some values) }
    {
        let items = self.arrays.as_slice();
        let mut values = Vec::with_capacity(alloc, items.len())?;
        for array in items {
            let value = array.get(alloc, row)?;
            values.push(value)?;
        }
        Ok(Values::from_vec(values))
    }
}

impl Buffers {
    /// What the slot of a row holds. It takes no memory.
    #[tactic(auto, using(crate::proofs::ArrayRows::struct_there))]
    fn cell(&self, row: usize) -> Cell<'_>
        requires { row < length (buffer_values self.now) }
        ensures { slice_get (buffer_values self.now) row ≡ Some (cell_datum result) }
    {
        match self {
            Buffers::Truths(truths) => Cell::Bool(truths.value(row as u64)),
            Buffers::Numbers(numbers) => Cell::Int(numbers.get(row)),
            Buffers::Texts(texts) => Cell::Text(texts.text(row)),
            Buffers::Structs(arrays) => Cell::Struct(arrays, row),
            Buffers::Lists(blanks) => Cell::Bool(blanks.value(row as u64)),
        }
    }

    /// What the slot of a row holds, in memory of its own.
    #[cycle(get)]
    #[tactic(auto, using(crate::proofs::ArrayRows::get_map))]
    fn get(&self, alloc: Global, row: usize) -> Result<Value, AllocError>
        requires { row < length (buffer_values self.now) }
        ensures { IfOk result (λ value. slice_get (buffer_values self.now) row ≡ Some (datum value)) }
    {
        match self {
            Buffers::Truths(truths) => Ok(Value::Bool(truths.value(row as u64))),
            Buffers::Numbers(numbers) => Ok(Value::Int(numbers.get(row))),
            Buffers::Texts(texts) => {
                let text = String::from_str(alloc, texts.text(row))?;
                Ok(Value::Text(Text::from_string(text)))
            }
            Buffers::Structs(arrays) => {
                let values = arrays.get(alloc, row)?;
                Ok(Value::Struct(values))
            }
            Buffers::Lists(blanks) => Ok(Value::Bool(blanks.value(row as u64))),
        }
    }
}

impl Array {
    /// The value of a row, counted from 0, borrowed. It takes no memory.
    #[tactic(auto, using(crate::proofs::ArrayRanges::array_len))]
    pub fn cell(&self, row: usize) -> Cell<'_>
        requires { row < length self.now.values }
        ensures { slice_get self.now.values row ≡ Some (cell_datum result) }
    {
        if self.validity.value(row as u64) {
            self.buffers.cell(row)
        } else {
            Cell::Null
        }
    }

    /// The value of a row, counted from 0, in memory of its own.
    #[cycle(get)]
    #[tactic(auto, using(crate::proofs::ArrayRanges::array_len))]
    pub fn get(&self, alloc: Global, row: usize) -> Result<Value, AllocError>
        requires { row < length self.now.values }
        ensures { IfOk result (λ value. slice_get self.now.values row ≡ Some (datum value)) }
    {
        if self.validity.value(row as u64) {
            let value = self.buffers.get(alloc, row)?;
            Ok(value)
        } else {
            Ok(Value::Null)
        }
    }
}
