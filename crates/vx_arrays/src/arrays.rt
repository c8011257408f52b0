//! What the rows of a column hold, whatever they are: leaves, and structs of arrays.

ghost use Rattle.std.specs.Prelude.{◌≡◌, ◌<◌, [], false, pos, length, map, replicate, IfOk};
ghost use Rattle.vx_types.specs.ColumnCalls.{IsBool, IsUnsigned};
ghost use Rattle.vx_types.specs.Data.{bool_type, int_type, utf8_type, struct_type, list_type, null, truth, number, text, structure};
ghost use Rattle.vx_types.specs.declared.dtypes.Nullability.TheVariants.{NonNullable};
ghost use Rattle.vx_types.specs.Slots.{where_valid, is_value, truth_in};
ghost use Rattle.vx_arrays.specs.LookUps.{code_places};
ghost use Rattle.vx_arrays.specs.Numbers.{kind_in, numbers_in};
ghost use Rattle.vx_arrays.specs.ArrayRows.{HaveRows, struct_rows};
ghost use Rattle.vx_masks.specs.Rows.{NullsHold};

mod appended;
mod compared;
mod picked;
mod shared;
mod shown;
mod views;
mod written;

use crate::numbers::Numbers;
use crate::texts::Texts;
pub use shared::SharedArray;
use std::alloc::{AllocError, Global};
use std::marker::Model;
pub use views::ArrayView;
use vx_masks::Mask;
use vx_types::Value;

/// The arrays of structs, one for each field, with that many rows, which a struct of no arrays has too. Other structs
/// and columns can have the same arrays.
#[cycle(arrays)]
#[derive(Drop)]
pub struct ChildArrays {
    rows: usize,
    arrays: Vec<SharedArray>,
}

impl Model for ChildArrays {
    ghost use Rattle.vx_arrays.specs.ArrayRows.{StructRows, coded_rows, struct_rows, struct_size, HaveRows};

    ghost Value = { StructRows };

    ghost coded = { coded_rows };

    ghost view = { λ a. struct_rows a.rows a.arrays.items };

    ghost invariant = { λ a. HaveRows a.rows a.arrays.items };

    ghost size = { struct_size };

    ghost use Rattle.std.proofs.Common.{arith};
    ghost use Rattle.vx_arrays.specs.ArrayFalls.{arrays_fall};

    ghost size_decreases = { λ a h. omega (arith, arrays_fall a.rows a.arrays.items) };
}

/// Which rows are valid, and what all rows hold.
#[cycle(arrays)]
pub struct Array {
    validity: Mask,
    buffers: Buffers,
}

impl Drop for Array {
    #[cycle(arrays_let_go)]
    fn drop(self) {
        let Array {
            validity: _,
            buffers: _,
        } = self;
    }
}

impl Model for Array {
    ghost use Rattle.vx_types.specs.Columns.{ColumnData};
    ghost use Rattle.vx_types.specs.Codes.{coded_column};
    ghost use Rattle.vx_arrays.specs.ArrayRows.{array_size};

    ghost Value = { ColumnData };

    ghost coded = { coded_column };

    ghost use Rattle.vx_arrays.specs.Buffers.{array_column, IsArray};

    ghost view = { λ a. array_column a.validity a.buffers };

    ghost invariant = { λ a. IsArray a.validity a.buffers };

    ghost size = { array_size };

    ghost use Rattle.std.proofs.Common.{arith};
    ghost use Rattle.vx_arrays.specs.ArrayFalls.{buffers_fall};

    ghost size_decreases = { λ a h. omega (arith, buffers_fall a.validity a.buffers) };
}

/// What rows hold, one slot for each, whether or not they are valid. A list has no buffers but such as no
/// list dtype takes.
#[cycle(arrays)]
#[derive(Drop)]
pub enum Buffers {
    Truths(Mask),
    Numbers(Numbers),
    Texts(Texts),
    Structs(ChildArrays),
    Lists(Mask),
}

impl ChildArrays {
    /// The structs of these arrays, with that many rows. It takes no memory.
    pub fn of(rows: usize, arrays: Vec<SharedArray>) -> ChildArrays
        requires { HaveRows rows arrays.items }
        ensures { result ≡ struct_rows rows arrays.items }
    {
        ChildArrays { rows, arrays }
    }

    /// How many rows there are.
    #[tactic(auto, using(crate::proofs::ArrayRows::struct_len))]
    pub fn len(&self) -> usize
        ensures { result ≡ length self.now.rows }
    {
        self.rows
    }
}

impl Array {
    /// Truth values that are valid where a mask says so. It takes no memory.
    pub fn of_truths(validity: Mask, truths: Mask) -> Array
        requires rows { length validity ≡ length truths }
        requires held { NullsHold false validity truths }
        ensures dtype { result.dtype ≡ bool_type NonNullable }
        ensures values { result.values ≡ where_valid validity (map truth truths) }
    {
        Array {
            validity,
            buffers: Buffers::Truths(truths),
        }
    }

    /// Numbers that are valid where a mask says so. It takes no memory.
    pub fn of_numbers(validity: Mask, numbers: Numbers) -> Array
        requires rows { length validity ≡ length (numbers_in numbers) }
        requires held { NullsHold (pos 0) validity (numbers_in numbers) }
        ensures dtype { result.dtype ≡ int_type (kind_in numbers) NonNullable }
        ensures values { result.values ≡ where_valid validity (map number (numbers_in numbers)) }
    {
        Array {
            validity,
            buffers: Buffers::Numbers(numbers),
        }
    }

    /// Texts that are valid where a mask says so. It takes no memory.
    pub fn of_texts(validity: Mask, texts: Texts) -> Array
        requires rows { length validity ≡ length texts }
        requires held { NullsHold [] validity texts }
        ensures dtype { result.dtype ≡ utf8_type NonNullable }
        ensures values { result.values ≡ where_valid validity (map text texts) }
    {
        Array {
            validity,
            buffers: Buffers::Texts(texts),
        }
    }

    /// Structs that are valid where a mask says so, whatever the arrays hold elsewhere. It takes no memory.
    pub fn of_structs(validity: Mask, arrays: ChildArrays) -> Array
        requires { length validity ≡ length arrays.rows }
        ensures dtype { result.dtype ≡ struct_type arrays.members NonNullable }
        ensures values { result.values ≡ where_valid validity (map structure arrays.rows) }
    {
        Array {
            validity,
            buffers: Buffers::Structs(arrays),
        }
    }

    /// Which rows are valid. It takes no memory.
    #[tactic(auto, using(crate::proofs::ArrayRanges::array_validity))]
    pub fn validity(&self) -> &Mask
        ensures { result.now ≡ map is_value self.now.values }
    {
        &self.validity
    }

    /// The numbers as places of so many rows, and the place past the last one where there is none.
    pub fn places(&self, alloc: Global, past: usize) -> Result<Vec<usize>, AllocError>
        requires { IsUnsigned self.now.dtype }
        ensures { IfOk result (λ places. places.items ≡ code_places past self.now.values) }
    {
        match &self.buffers {
            Buffers::Numbers(numbers) => numbers.places(alloc, &self.validity, past),
            _ => unreachable!(),
        }
    }

    /// The rows whose value is true: a null is not.
    pub fn truth(&self, alloc: Global) -> Result<Mask, AllocError>
        requires { IsBool self.now.dtype }
        ensures { IfOk result (λ mask. mask ≡ map truth_in self.now.values) }
    {
        match &self.buffers {
            Buffers::Truths(truths) => truths.copy(alloc),
            _ => unreachable!(),
        }
    }

    /// How many rows there are.
    #[tactic(auto, using(crate::proofs::ArrayRanges::array_len))]
    pub fn len(&self) -> usize
        ensures { result ≡ length self.now.values }
    {
        self.validity.len() as usize
    }

    /// That many lists, none of which is valid.
    pub fn of_nulls(alloc: Global, rows: u64) -> Result<Array, AllocError>
        ensures dtype { IfOk result (λ array. array.dtype ≡ list_type (bool_type NonNullable) NonNullable) }
        ensures values { IfOk result (λ array. array.values ≡ replicate rows null) }
    {
        let validity = Mask::new_false(alloc, rows)?;
        let blanks = Mask::new_false(alloc, rows)?;
        Ok(Array {
            validity,
            buffers: Buffers::Lists(blanks),
        })
    }
}
