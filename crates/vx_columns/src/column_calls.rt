//! Columns that are made of columns row by row, of the same dtype.

ghost use Rattle.std.specs.Prelude.{◌≡◌, ◌≤◌, ◌↔◌, ◌-◌, length, map, slice_range, IsTrue, IfOk};
ghost use Rattle.std.specs.List.{AllByRecursion, flat_map};
ghost use Rattle.vx_masks.specs.Masks.{chosen};
ghost use Rattle.vx_types.specs.declared.dtypes.IntKind.TheVariants.{U64};
ghost use Rattle.vx_types.specs.declared.dtypes.Nullability.TheVariants.{NonNullable};
ghost use Rattle.vx_types.specs.Data.{int_type};
ghost use Rattle.vx_types.specs.Views.{data_type};
ghost use Rattle.vx_types.specs.ColumnCalls.{natural, IsBool};
ghost use Rattle.vx_types.specs.Slots.{truth_in};

use crate::columns::Column;
use std::alloc::{AllocError, Global};
use std::ops::Range;
use vx_arrays::{Array, Numbers, Primitive};
use vx_masks::Mask;
use vx_types::{DType, IntKind, Nullability};

impl Column {
    /// The column of these numbers, which takes no nulls. It moves them.
    pub fn from_numbers(alloc: Global, numbers: Vec<u64>) -> Result<Column, AllocError>
        ensures dtype { IfOk result (λ column. column.dtype ≡ int_type U64 NonNullable) }
        ensures values { IfOk result (λ column. column.values ≡ map natural numbers.items) }
    {
        let validity = Mask::new_true(alloc, numbers.len() as u64)?;
        let numbers = Numbers::U64(Primitive::of(numbers));
        let _inside = numbers.len();
        let array = Array::of_numbers(validity, numbers);
        let dtype = DType::Int(IntKind::U64, Nullability::NonNullable);
        Ok(Column::of_array(dtype, array))
    }

    /// The rows of a range. All rows of a column that shares them are shared again, and none is copied. Rows that lie
    /// in runs stay in runs: those of the range alone are copied, after two binary searches.
    pub fn slice(&self, alloc: Global, rows: Range<u64>) -> Result<Column, AllocError>
        requires forwards { rows.start ≤ rows.end }
        requires inside { rows.end ≤ length self.now.values }
        ensures dtype { IfOk result (λ column. column.dtype ≡ self.now.dtype) }
        ensures values { IfOk result (λ column. column.values ≡ slice_range self.now.values rows.start rows.end) }
    {
        let dtype = self.dtype().copy(alloc)?;
        let made = self
            .rows()
            .slice(alloc, rows.start as usize..rows.end as usize)?;
        Ok(Column::of_rows(dtype, made))
    }

    /// The rows that the mask chooses. Rows that lie in runs stay in runs: the chosen rows of each are counted, and only
    /// the runs that have some are copied.
    pub fn filter(&self, alloc: Global, mask: &Mask) -> Result<Column, AllocError>
        requires { length mask.now ≡ length self.now.values }
        ensures dtype { IfOk result (λ column. column.dtype ≡ self.now.dtype) }
        ensures values { IfOk result (λ column. column.values ≡ chosen mask.now self.now.values) }
    {
        let dtype = self.dtype().copy(alloc)?;
        let made = self.rows().filter(alloc, mask)?;
        Ok(Column::of_rows(dtype, made))
    }

    /// The rows of a range that the mask chooses of them, in one pass over the chosen rows; of rows in runs, the runs of
    /// the range are filtered.
    pub fn filter_range(
        &self,
        alloc: Global,
        rows: Range<u64>,
        mask: &Mask,
    ) -> Result<Column, AllocError>
        requires forwards { rows.start ≤ rows.end }
        requires inside { rows.end ≤ length self.now.values }
        requires masked { length mask.now ≡ rows.end - rows.start }
        ensures dtype { IfOk result (λ column. column.dtype ≡ self.now.dtype) }
        ensures values { IfOk result (λ column. column.values ≡ chosen mask.now (slice_range self.now.values rows.start rows.end)) }
    {
        let range = rows.start as usize..rows.end as usize;
        let dtype = self.dtype().copy(alloc)?;
        let made = self.rows().filter_range(alloc, range, mask)?;
        Ok(Column::of_rows(dtype, made))
    }

    /// The rows whose value is true: a null is not.
    #[tactic(auto, using(vx_arrays::proofs::PackedRows::bool_bare))]
    pub fn truth(&self, alloc: Global) -> Result<Mask, AllocError>
        requires { IsBool self.now.dtype }
        ensures { IfOk result (λ mask. mask ≡ map truth_in self.now.values) }
    {
        let rows = self.rows();
        rows.truth(alloc)
    }

    /// The same column in memory of its own, but for rows that are shared: those are shared again.
    #[tactic(auto, using(vx_arrays::proofs::PackedRows::same_column))]
    pub fn copy(&self, alloc: Global) -> Result<Column, AllocError>
        ensures { IfOk result (λ column. column ≡ self.now) }
    {
        self.slice(alloc, 0..self.len())
    }

    /// Whether the columns have the same dtype and the same values, in the same order. It takes no
    /// memory.
    pub fn same(&self, other: &Column) -> bool
        ensures { IsTrue result ↔ (self.now ≡ other.now) }
    {
        if !self.dtype().same(other.dtype()) {
            return false;
        }
        self.rows().same(other.rows())
    }
}
