//! Columns that are made of several columns: one behind the other, values that are looked up by their
//! codes, and structs of parts.

ghost use Rattle.std.specs.Prelude.{◌≡◌, ◌++◌, [], ◌∷◌, length, map, IfOk, OnOk, MatchResult};
ghost use Rattle.std.specs.List.{AllByRecursion, flat_map, range_with_len};
ghost use Rattle.std.specs.Option.{ForSome};
ghost use Rattle.vx_types.specs.Data.{struct_type};
ghost use Rattle.vx_types.specs.Fits.{Fits, nullability_of};
ghost use Rattle.vx_types.specs.ColumnCalls.{IsUnsigned, IsCodeBelow, value_at, nullable_where, ArePartsOf, nullability_with, is_valid, packed_at, IsFitting};
ghost use Rattle.vx_types.specs.Views.{data_type};
ghost use Rattle.vx_arrays.specs.LookUps.{code_places};
ghost use Rattle.vx_arrays.specs.PackedColumns.{bare_column, IsColumn};

use crate::columns::Column;
use std::alloc::{AllocError, Global};
use vx_arrays::{Array, ChildArrays, SharedArray};
use vx_masks::Mask;
use vx_types::{DType, Fields, Nullability};

/// How many rows the columns have together, or the most that a `usize` holds.
fn rows_in(parts: &[Column]) -> usize {
    let mut rows: usize = 0;
    for part in parts {
        rows = rows.saturating_add(part.len() as usize);
    }
    rows
}

/// The only one of the columns; the columns, where there are none or more.
fn only_of(parts: Vec<Column>) -> Result<Column, Vec<Column>>
    ensures { MatchResult result (λ part. parts.items ≡ part ∷ []) (λ same. same.items ≡ parts.items) }
{
    let mut parts = parts;
    if parts.len() != 1 {
        return Err(parts);
    }
    match parts.pop() {
        Some(part) => Ok(part),
        None => unreachable!(),
    }
}

/// The rows of all parts, one part after another.
fn joined_rows(alloc: Global, dtype: &DType, parts: Vec<Column>) -> Result<Array, AllocError>
    requires { AllByRecursion (λ part. part.dtype ≡ data_type dtype.now) parts.items }
    ensures column { IfOk result (λ rows. IsColumn (data_type dtype.now) rows) }
    ensures values { IfOk result (λ rows. rows.values ≡ flat_map (λ part. part.values) parts.items) }
{
    let mut joined = Array::with_room(alloc, dtype, rows_in(&parts))?;
    for part in parts {
        let longer = part.append_to(alloc, joined);
        drop(part);
        joined = longer?;
    }
    Ok(joined)
}

/// The dtype of values that are looked up: it takes nulls also where the codes do.
fn looked_up_dtype(alloc: Global, codes: &DType, values: &DType) -> Result<DType, AllocError>
    ensures { IfOk result (λ dtype. data_type dtype ≡ nullable_where (nullability_of (data_type codes.now)) (data_type values.now)) }
{
    if codes.is_nullable() {
        values.as_nullable(alloc)
    } else {
        values.copy(alloc)
    }
}

/// The rows of a part, packed and behind a handle.
fn shared_rows(alloc: Global, part: Column) -> Result<SharedArray, AllocError>
    ensures rows { IfOk result (λ rows. rows ≡ bare_column part) }
    ensures fit { IsFitting part }
{
    let _fit = part.len();
    let rows = part.into_shared(alloc)?;
    Ok(rows)
}

/// The rows of each part. It moves those that are packed, and copies none that are shared.
fn all_shared_rows(alloc: Global, parts: Vec<Column>) -> Result<Vec<SharedArray>, AllocError>
    ensures rows { IfOk result (λ rows. rows.items ≡ map bare_column parts.items) }
    ensures fit { OnOk result (AllByRecursion IsFitting parts.items) }
{
    let mut rows = Vec::with_capacity(alloc, parts.len())?;
    for part in parts {
        let shared = shared_rows(alloc, part)?;
        rows.push(shared)?;
    }
    Ok(rows)
}

/// Nullable exactly where a validity is given.
fn nullability_for(validity: &Option<Mask>) -> Nullability
    ensures { result ≡ nullability_with validity.now }
{
    match validity {
        Some(_) => Nullability::Nullable,
        None => Nullability::NonNullable,
    }
}

/// The rows that are valid: each row is where no validity is given.
#[tactic(auto, using(vx_arrays::proofs::PackedArrays::mask_valid, vx_arrays::proofs::PackedArrays::all_rows_valid))]
fn valid_rows(alloc: Global, validity: Option<Mask>, rows: u64) -> Result<Mask, AllocError>
    requires { ForSome validity (λ mask. length mask ≡ rows) }
    ensures rows { IfOk result (λ mask. length mask ≡ rows) }
    ensures valid { IfOk result (λ mask. mask ≡ map (is_valid validity) (range_with_len 0 rows)) }
{
    match validity {
        Some(mask) => Ok(mask),
        None => {
            let mask = Mask::new_true(alloc, rows)?;
            Ok(mask)
        }
    }
}

impl Column {
    /// The rows of an array that a column of the same dtype can have, and copies of this column's behind them.
    fn append_to(&self, alloc: Global, array: Array) -> Result<Array, AllocError>
        requires { IsColumn self.now.dtype array }
        ensures column { IfOk result (λ made. IsColumn self.now.dtype made) }
        ensures values { IfOk result (λ made. made.values ≡ array.values ++ self.now.values) }
    {
        let rows = self.rows();
        rows.append_to(alloc, array)
    }

    /// The values of all parts, one part after another. It copies them into memory that it takes once, and rows in runs
    /// are spread there; one part alone is given as it is.
    pub fn concat(alloc: Global, dtype: DType, parts: Vec<Column>) -> Result<Column, AllocError>
        requires { AllByRecursion (λ part. part.dtype ≡ data_type dtype) parts.items }
        ensures dtype { IfOk result (λ column. column.dtype ≡ data_type dtype) }
        ensures values { IfOk result (λ column. column.values ≡ flat_map (λ part. part.values) parts.items) }
    {
        match only_of(parts) {
            Ok(part) => Ok(part),
            Err(parts) => {
                let rows = joined_rows(alloc, &dtype, parts)?;
                Ok(Column::of_array(dtype, rows))
            }
        }
    }

    /// The values at the codes: a code gives the value at it, and a null gives null. The dtype is that
    /// of the values, which takes nulls also where the codes do. Values that lie in runs are not spread.
    pub fn look_up(alloc: Global, codes: &Column, values: &Column) -> Result<Column, AllocError>
        requires unsigned { IsUnsigned codes.now.dtype }
        requires below { AllByRecursion (IsCodeBelow (length values.now.values)) codes.now.values }
        ensures dtype { IfOk result (λ column. column.dtype ≡ nullable_where (nullability_of codes.now.dtype) values.now.dtype) }
        ensures values { IfOk result (λ column. column.values ≡ map (value_at values.now.values) codes.now.values) }
    {
        let _codes_fit = codes.len();
        let found = values.rows();
        let places = codes.places(alloc, found.len())?;
        let dtype = looked_up_dtype(alloc, codes.dtype(), values.dtype())?;
        let rows = found.take(alloc, places.as_slice())?;
        Ok(Column::of_array(dtype, rows))
    }

    /// The codes as places of so many rows, and the place past the last one where there is none.
    #[tactic(auto, using(vx_arrays::proofs::PackedRows::unsigned_bare))]
    fn places(&self, alloc: Global, past: usize) -> Result<Vec<usize>, AllocError>
        requires { IsUnsigned self.now.dtype }
        ensures { IfOk result (λ places. places.items ≡ code_places past self.now.values) }
    {
        let rows = self.rows();
        rows.places(alloc, past)
    }

    /// The structs of the parts' values, with that many rows, which a struct of no parts has too. A row
    /// that is not valid is null, and the dtype takes nulls exactly where a validity is given. It moves
    /// the parts, copies none of their rows but those that lie in runs, and takes memory for a handle on each.
    pub fn pack(
        alloc: Global,
        fields: Fields,
        parts: Vec<Column>,
        validity: Option<Mask>,
        rows: u64,
    ) -> Result<Column, AllocError>
        requires parts { ArePartsOf fields parts.items rows }
        requires validity { ForSome validity (λ mask. length mask ≡ rows) }
        ensures dtype { IfOk result (λ column. column.dtype ≡ struct_type fields (nullability_with validity)) }
        ensures values { IfOk result (λ column. column.values ≡ map (packed_at validity parts.items) (range_with_len 0 rows)) }
    {
        let nullability = nullability_for(&validity);
        let parts = all_shared_rows(alloc, parts)?;
        let structs = ChildArrays::of(rows as usize, parts);
        let validity = valid_rows(alloc, validity, rows)?;
        let packed = Array::of_structs(validity, structs);
        Ok(Column::of_array(DType::Struct(fields, nullability), packed))
    }
}
