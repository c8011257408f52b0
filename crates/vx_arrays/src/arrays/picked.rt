//! Rows that are picked out of arrays: a range, those that a mask chooses, and those at given places.

ghost use Rattle.std.specs.Prelude.{◌≡◌, ◌-◌, ◌≤◌, ◌<◌, length, slice_range, IfOk};
ghost use Rattle.vx_types.specs.Data.{null};
ghost use Rattle.vx_masks.specs.Masks.{chosen};
ghost use Rattle.vx_arrays.specs.ArrayRows.{sliced, filtered, picked_at};
ghost use Rattle.vx_arrays.specs.Buffers.{buffer_type, buffer_values, blank_in, nulls_for};
ghost use Rattle.vx_masks.specs.Rows.{taken};

use crate::arrays::{Array, Buffers, ChildArrays};
use crate::numbers::Numbers;
use crate::texts::Texts;
use std::alloc::{AllocError, Global};
use std::ops::Range;
use vx_masks::Mask;

impl ChildArrays {
    /// The rows of a range.
    #[cycle(slice)]
    fn slice(&self, alloc: Global, rows: Range<usize>) -> Result<ChildArrays, AllocError>
        requires forwards { rows.start ≤ rows.end }
        requires inside { rows.end ≤ length self.now.rows }
        ensures members { IfOk result (λ arrays. arrays.members ≡ self.now.members) }
        ensures rows { IfOk result (λ arrays. arrays.rows ≡ slice_range self.now.rows rows.start rows.end) }
    {
        let items = self.arrays.as_slice();
        let mut arrays = Vec::with_capacity(alloc, items.len())?;
        for array in items {
            let made = array.slice(alloc, rows.start..rows.end)?;
            arrays.push(made)?;
        }
        Ok(ChildArrays {
            rows: rows.end - rows.start,
            arrays,
        })
    }

    /// The rows that the mask chooses.
    #[cycle(filter)]
    fn filter(&self, alloc: Global, mask: &Mask) -> Result<ChildArrays, AllocError>
        requires { length mask.now ≡ length self.now.rows }
        ensures members { IfOk result (λ arrays. arrays.members ≡ self.now.members) }
        ensures rows { IfOk result (λ arrays. arrays.rows ≡ chosen mask.now self.now.rows) }
    {
        let items = self.arrays.as_slice();
        let mut arrays = Vec::with_capacity(alloc, items.len())?;
        for array in items {
            let made = array.filter(alloc, mask)?;
            arrays.push(made)?;
        }
        let rows = mask.true_count() as usize;
        Ok(ChildArrays { rows, arrays })
    }

    /// The rows at these places, and structs of nulls at a place past the last row.
    #[cycle(take)]
    fn take(&self, alloc: Global, places: &[usize]) -> Result<ChildArrays, AllocError>
        ensures members { IfOk result (λ arrays. arrays.members ≡ self.now.members) }
        ensures rows { IfOk result (λ arrays. arrays.rows ≡ taken (nulls_for self.now.members) self.now.rows places.now) }
    {
        let items = self.arrays.as_slice();
        let mut arrays = Vec::with_capacity(alloc, items.len())?;
        for array in items {
            let made = array.take(alloc, places)?;
            arrays.push(made)?;
        }
        Ok(ChildArrays {
            rows: places.len(),
            arrays,
        })
    }
}

impl Buffers {
    /// The buffers of a range of rows.
    #[cycle(slice)]
    #[tactic(auto, using(crate::proofs::MappedRows::map_range))]
    fn slice(&self, alloc: Global, rows: Range<usize>) -> Result<Buffers, AllocError>
        requires forwards { rows.start ≤ rows.end }
        requires inside { rows.end ≤ length (buffer_values self.now) }
        ensures dtype { IfOk result (λ buffers. buffer_type buffers ≡ buffer_type self.now) }
        ensures values { IfOk result (λ buffers. buffer_values buffers ≡ slice_range (buffer_values self.now) rows.start rows.end) }
    {
        match self {
            Buffers::Truths(bits) => bits
                .slice(alloc, rows.start as u64..rows.end as u64)
                .map(Buffers::Truths),
            Buffers::Numbers(numbers) => numbers.slice(alloc, rows).map(Buffers::Numbers),
            Buffers::Texts(texts) => texts.slice(alloc, rows).map(Buffers::Texts),
            Buffers::Structs(arrays) => arrays.slice(alloc, rows).map(Buffers::Structs),
            Buffers::Lists(bits) => bits
                .slice(alloc, rows.start as u64..rows.end as u64)
                .map(Buffers::Lists),
        }
    }

    /// The buffers that the mask chooses.
    #[cycle(filter)]
    #[tactic(auto, using(crate::proofs::MappedRows::map_chosen))]
    fn filter(&self, alloc: Global, mask: &Mask) -> Result<Buffers, AllocError>
        requires { length mask.now ≡ length (buffer_values self.now) }
        ensures dtype { IfOk result (λ buffers. buffer_type buffers ≡ buffer_type self.now) }
        ensures values { IfOk result (λ buffers. buffer_values buffers ≡ chosen mask.now (buffer_values self.now)) }
    {
        match self {
            Buffers::Truths(truths) => truths.filter(alloc, mask).map(Buffers::Truths),
            Buffers::Numbers(numbers) => numbers.filter(alloc, mask).map(Buffers::Numbers),
            Buffers::Texts(texts) => texts.filter(alloc, mask).map(Buffers::Texts),
            Buffers::Structs(arrays) => arrays.filter(alloc, mask).map(Buffers::Structs),
            Buffers::Lists(blanks) => blanks.filter(alloc, mask).map(Buffers::Lists),
        }
    }

    /// The buffers of a range of rows that the mask chooses of them. Numbers are gone over once.
    #[tactic(auto, using(crate::proofs::MappedRows::map_range_chosen))]
    fn filter_range(
        &self,
        alloc: Global,
        rows: Range<usize>,
        mask: &Mask,
    ) -> Result<Buffers, AllocError>
        requires forwards { rows.start ≤ rows.end }
        requires inside { rows.end ≤ length (buffer_values self.now) }
        requires masked { length mask.now ≡ rows.end - rows.start }
        ensures dtype { IfOk result (λ buffers. buffer_type buffers ≡ buffer_type self.now) }
        ensures values { IfOk result (λ buffers. buffer_values buffers ≡ chosen mask.now (slice_range (buffer_values self.now) rows.start rows.end)) }
    {
        match self {
            Buffers::Numbers(numbers) => numbers
                .filter_range(alloc, rows, mask)
                .map(Buffers::Numbers),
            _ => {
                let range = self.slice(alloc, rows)?;
                range.filter(alloc, mask)
            }
        }
    }

    /// The buffers at these places, and the blank at a place past the last row.
    #[cycle(take)]
    #[tactic(auto, using(crate::proofs::MappedRows::map_taken))]
    fn take(&self, alloc: Global, places: &[usize]) -> Result<Buffers, AllocError>
        ensures dtype { IfOk result (λ buffers. buffer_type buffers ≡ buffer_type self.now) }
        ensures values { IfOk result (λ buffers. buffer_values buffers ≡ taken (blank_in (buffer_type self.now)) (buffer_values self.now) places.now) }
    {
        match self {
            Buffers::Truths(truths) => truths.take(alloc, places).map(Buffers::Truths),
            Buffers::Numbers(numbers) => numbers.take(alloc, places).map(Buffers::Numbers),
            Buffers::Texts(texts) => texts.take(alloc, places).map(Buffers::Texts),
            Buffers::Structs(arrays) => arrays.take(alloc, places).map(Buffers::Structs),
            Buffers::Lists(blanks) => blanks.take(alloc, places).map(Buffers::Lists),
        }
    }
}

impl Array {
    /// The rows of a range.
    #[cycle(slice)]
    #[tactic(auto, using(crate::proofs::ArrayRanges::array_len))]
    pub fn slice(&self, alloc: Global, rows: Range<usize>) -> Result<Array, AllocError>
        requires forwards { rows.start ≤ rows.end }
        requires inside { rows.end ≤ length self.now.values }
        ensures { IfOk result (λ array. array ≡ sliced rows.start rows.end self.now) }
    {
        let validity = self
            .validity
            .slice(alloc, rows.start as u64..rows.end as u64)?;
        let buffers = self.buffers.slice(alloc, rows)?;
        Ok(Array { validity, buffers })
    }

    /// The rows that the mask chooses.
    #[cycle(filter)]
    #[tactic(auto, using(crate::proofs::ArrayRanges::array_len))]
    pub fn filter(&self, alloc: Global, mask: &Mask) -> Result<Array, AllocError>
        requires { length mask.now ≡ length self.now.values }
        ensures { IfOk result (λ array. array ≡ filtered mask.now self.now) }
    {
        let validity = self.validity.filter(alloc, mask)?;
        let buffers = self.buffers.filter(alloc, mask)?;
        Ok(Array { validity, buffers })
    }

    /// The rows of a range that the mask chooses of them.
    #[tactic(auto, using(crate::proofs::ArrayRanges::array_len))]
    pub fn filter_range(
        &self,
        alloc: Global,
        rows: Range<usize>,
        mask: &Mask,
    ) -> Result<Array, AllocError>
        requires forwards { rows.start ≤ rows.end }
        requires inside { rows.end ≤ length self.now.values }
        requires masked { length mask.now ≡ rows.end - rows.start }
        ensures { IfOk result (λ array. array ≡ filtered mask.now (sliced rows.start rows.end self.now)) }
    {
        let range = self
            .validity
            .slice(alloc, rows.start as u64..rows.end as u64)?;
        let validity = range.filter(alloc, mask)?;
        let buffers = self.buffers.filter_range(alloc, rows, mask)?;
        Ok(Array { validity, buffers })
    }

    /// The rows at these places, and null at a place past the last row.
    #[cycle(take)]
    pub fn take(&self, alloc: Global, places: &[usize]) -> Result<Array, AllocError>
        ensures { IfOk result (λ array. array ≡ picked_at places.now self.now) }
    {
        let validity = self.validity.take(alloc, places)?;
        let buffers = self.buffers.take(alloc, places)?;
        Ok(Array { validity, buffers })
    }
}
