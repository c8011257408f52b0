//! Arrays one behind the other.

ghost use Rattle.std.specs.Prelude.{◌≡◌, ◌<◌, ◌+◌, ◌++◌, length, Some, IfOk};
ghost use Rattle.vx_arrays.specs.ArrayRows.{joined};
ghost use Rattle.vx_arrays.specs.Buffers.{buffer_type, buffer_values};

use crate::arrays::{Array, Buffers, ChildArrays};
use crate::numbers::Numbers;
use crate::texts::Texts;
use std::alloc::{AllocError, Global};

impl ChildArrays {
    /// These structs and copies of others of the same members behind them, which are that many rows together.
    #[cycle(append)]
    fn append(
        self,
        alloc: Global,
        other: &ChildArrays,
        rows: usize,
    ) -> Result<ChildArrays, AllocError>
        requires members { other.now.members ≡ self.members }
        requires rows { rows ≡ length self.rows + length other.now.rows }
        ensures members { IfOk result (λ arrays. arrays.members ≡ self.members) }
        ensures rows { IfOk result (λ arrays. arrays.rows ≡ self.rows ++ other.now.rows) }
    {
        let ones = self.arrays;
        let mut others = other.arrays.as_slice();
        let mut arrays = Vec::with_capacity(alloc, ones.len())?;
        for one in ones {
            match others.split_first() {
                Some((two, rest)) => {
                    let made = one.append(alloc, two)?;
                    arrays.push(made)?;
                    others = rest;
                }
                None => unreachable!(),
            }
        }
        Ok(ChildArrays { rows, arrays })
    }
}

impl Buffers {
    /// These buffers and copies of others of the same sort behind them, which are that many rows together.
    #[cycle(append)]
    #[tactic(auto, using(crate::proofs::MappedRows::map_joined))]
    fn append(self, alloc: Global, other: &Buffers, rows: usize) -> Result<Buffers, AllocError>
        requires dtype { buffer_type other.now ≡ buffer_type self }
        requires rows { rows ≡ length (buffer_values self) + length (buffer_values other.now) }
        ensures dtype { IfOk result (λ buffers. buffer_type buffers ≡ buffer_type self) }
        ensures values { IfOk result (λ buffers. buffer_values buffers ≡ buffer_values self ++ buffer_values other.now) }
    {
        match (self, other) {
            (Buffers::Truths(ones), Buffers::Truths(others)) => {
                ones.append(others).map(Buffers::Truths)
            }
            (Buffers::Numbers(mut ones), Buffers::Numbers(others)) => {
                ones.append(others)?;
                Ok(Buffers::Numbers(ones))
            }
            (Buffers::Texts(ones), Buffers::Texts(others)) => {
                ones.append(others).map(Buffers::Texts)
            }
            (Buffers::Structs(ones), Buffers::Structs(others)) => {
                ones.append(alloc, others, rows).map(Buffers::Structs)
            }
            (Buffers::Lists(ones), Buffers::Lists(others)) => {
                ones.append(others).map(Buffers::Lists)
            }
            _ => unreachable!(),
        }
    }
}

impl Array {
    /// The rows of this array, and copies of those of another of the same sort behind them. Room that this array has is
    /// used: it takes no memory for rows where there is room for them, but a list of the arrays of structs.
    #[cycle(append)]
    pub fn append(self, alloc: Global, other: &Array) -> Result<Array, AllocError>
        requires { other.now.dtype ≡ self.dtype }
        ensures { IfOk result (λ array. array ≡ joined self other.now) }
    {
        let Array { validity, buffers } = self;
        let validity = validity.append(&other.validity)?;
        let rows = validity.len() as usize;
        let buffers = buffers.append(alloc, &other.buffers, rows)?;
        Ok(Array { validity, buffers })
    }
}
