//! Rows that a dtype takes as an array of that dtype, wherever they are held. What is packed already is moved.

ghost use Rattle.std.specs.Prelude.{◌≡◌, ◌≤◌, ◌++◌, ◌∷◌, [], map, length, replicate, take, IfOk, IfSome, IsTrue, OnOk};
ghost use Rattle.std.specs.List.{AllByRecursion};
ghost use Rattle.vx_base.specs.Fits.{Fits};
ghost use Rattle.vx_base.specs.ValueViews.{datum};
ghost use Rattle.vx_base.specs.Views.{data_type, fields_in};
ghost use Rattle.vx_operators.specs.ColumnarValues.{scalar_datum, columnar_rows};
ghost use Rattle.vx_expr.specs.Packs.{rows_along, struct_row, typed_columns, FitEach, IsStructOf};
ghost use Rattle.vx_expr.specs.Steps.{row_value_datum};
ghost use Rattle.vx_arrays.specs.Buffers.{bare};

use crate::evaluated::own_row_values;
use crate::packing::{fewest_rows, rows_of_columnar, struct_row_values};
use crate::row_values::RowValue;
use std::alloc::{AllocError, Global};
use vx_arrays::{Array, ArrayView, ChildArrays, SharedArray};
use vx_base::{DType, Fields, Value};
use vx_masks::Mask;
use vx_operators::{ColumnarValue, Scalar};

/// The values of the row values, in memory of their own.
fn values_of(alloc: Global, row_values: Vec<RowValue<'_>>) -> Result<Vec<Value>, AllocError>
    ensures { IfOk result (λ values. map datum values.items ≡ map row_value_datum row_values.entry.items) }
{
    let mut values = Vec::with_capacity(alloc, row_values.len())?;
    for cell in row_values {
        values.push(cell.into_value(alloc)?)?;
    }
    Ok(values)
}

/// Whether the rows of an array are those of a leaf dtype, but for nulls.
fn is_leaf_of(dtype: &DType, array: &Array) -> bool
    ensures { IsTrue result → array.now.dtype ≡ bare (data_type dtype.now) }
{
    match (dtype, array.array_view()) {
        (DType::Bool(_), ArrayView::Truths(_, _)) => true,
        (DType::Int(kind, _), ArrayView::Numbers(_, numbers)) => *kind == numbers.kind(),
        (DType::Utf8(_), ArrayView::Texts(_, _)) => true,
        _ => false,
    }
}

/// The array of values that are handed over row by row.
#[tactic(auto, using(vx_arrays::proofs::PackedRows::all_nullable))]
pub(crate) fn row_value_array(
    alloc: Global,
    dtype: &DType,
    row_values: Vec<RowValue<'_>>,
) -> Result<Array, AllocError>
    requires { AllByRecursion (Fits (data_type dtype.now)) (map row_value_datum row_values.items) }
    ensures dtype { IfOk result (λ array. array.dtype ≡ bare (data_type dtype.now)) }
    ensures values { IfOk result (λ array. array.values ≡ map row_value_datum row_values.entry.items) }
{
    let values = values_of(alloc, row_values)?;
    Array::of_values(alloc, dtype, values.as_slice())
}

/// The same rows as an array of the dtype. It moves them where the dtype is a leaf.
fn fitting_array(alloc: Global, dtype: &DType, array: Array) -> Result<Array, AllocError>
    requires { AllByRecursion (Fits (data_type dtype.now)) array.values }
    ensures dtype { IfOk result (λ fitting. fitting.dtype ≡ bare (data_type dtype.now)) }
    ensures values { IfOk result (λ fitting. fitting.values ≡ array.values) }
{
    if is_leaf_of(dtype, &array) {
        Ok(array)
    } else {
        let row_values = own_row_values(alloc, &array);
        drop(array);
        let fitting = row_value_array(alloc, dtype, row_values?)?;
        Ok(fitting)
    }
}

/// The rows of an array, in memory of their own.
#[tactic(auto, using(vx_arrays::proofs::PackedRows::whole_range))]
fn array_copy(alloc: Global, array: &Array) -> Result<Array, AllocError>
    ensures { IfOk result (λ copied. copied.values ≡ array.now.values) }
{
    let copied = array.slice(alloc, 0..array.len())?;
    Ok(copied)
}

/// The value as an array of one row.
fn scalar_array(alloc: Global, dtype: &DType, scalar: &Scalar<'_>) -> Result<Array, AllocError>
    requires { AllByRecursion (Fits (data_type dtype.now)) (scalar_datum scalar.now ∷ []) }
    ensures dtype { IfOk result (λ array. array.dtype ≡ bare (data_type dtype.now)) }
    ensures values { IfOk result (λ array. array.values ≡ scalar_datum scalar.now ∷ []) }
{
    let row_values = vec![in alloc; RowValue::scalar(scalar)]?;
    row_value_array(alloc, dtype, row_values)
}

/// The same value at each of so many rows.
fn fitting_scalar(
    alloc: Global,
    dtype: &DType,
    scalar: &Scalar<'_>,
    rows: usize,
) -> Result<Array, AllocError>
    requires { AllByRecursion (Fits (data_type dtype.now)) (replicate rows (scalar_datum scalar.now)) }
    ensures dtype { IfOk result (λ array. array.dtype ≡ bare (data_type dtype.now)) }
    ensures values { IfOk result (λ array. array.values ≡ replicate rows (scalar_datum scalar.now)) }
{
    if rows == 0 {
        return Array::with_room(alloc, dtype, 0);
    }
    let one = scalar_array(alloc, dtype, scalar)?;
    let places = vec![in alloc; 0; rows]?;
    one.take(alloc, places.as_slice())
}

/// The first rows of a columnar value as an array of the dtype.
pub(crate) fn fitting_columnar(
    alloc: Global,
    dtype: &DType,
    columnar: ColumnarValue<'_>,
    rows: usize,
) -> Result<Array, AllocError>
    requires inside { rows ≤ length (columnar_rows columnar) }
    requires fit { AllByRecursion (Fits (data_type dtype.now)) (take rows (columnar_rows columnar)) }
    ensures dtype { IfOk result (λ array. array.dtype ≡ bare (data_type dtype.now)) }
    ensures values { IfOk result (λ array. array.values ≡ take rows (columnar_rows columnar.entry)) }
{
    match columnar.first(alloc, rows)? {
        ColumnarValue::Lent(array) => {
            let copied = array_copy(alloc, array)?;
            let fitting = fitting_array(alloc, dtype, copied)?;
            Ok(fitting)
        }
        ColumnarValue::Made(array) => {
            let fitting = fitting_array(alloc, dtype, array)?;
            Ok(fitting)
        }
        ColumnarValue::Same(scalar, rows) => {
            let fitting = fitting_scalar(alloc, dtype, &scalar, rows)?;
            Ok(fitting)
        }
    }
}

/// Adds the first rows of a columnar value as an array of the dtype, which can be shared.
fn push_fitting(
    alloc: Global,
    dtype: &DType,
    columnar: ColumnarValue<'_>,
    rows: usize,
    parts: &mut Vec<SharedArray>,
) -> Result<(), AllocError>
    requires inside { rows ≤ length (columnar_rows columnar) }
    requires fit { AllByRecursion (Fits (data_type dtype.now)) (take rows (columnar_rows columnar)) }
    ensures { OnOk result (parts.new.items ≡ parts.old.items ++ (record { dtype = bare (data_type dtype.now); values = take rows (columnar_rows columnar.entry) } ∷ [])) }
{
    let array = fitting_columnar(alloc, dtype, columnar, rows)?;
    let shared = SharedArray::new(alloc, array)?;
    parts.push(shared)?;
    Ok(())
}

/// The first rows of each columnar value as an array of the dtype of its field.
fn fitting_columnar_values(
    alloc: Global,
    fields: &Fields,
    columnar_values: Vec<ColumnarValue<'_>>,
    rows: usize,
) -> Result<Vec<SharedArray>, AllocError>
    requires { FitEach rows fields.now (map columnar_rows columnar_values.items) }
    ensures { IfOk result (λ parts. parts.items ≡ typed_columns rows fields.now (map columnar_rows columnar_values.entry.items)) }
{
    let members = fields.items();
    let mut rest = columnar_values.into_iter();
    let mut parts = Vec::with_capacity(alloc, members.len())?;
    for field in members {
        match rest.next() {
            Some(columnar) => {
                push_fitting(alloc, &field.dtype, columnar, rows, &mut parts)?;
            }
            None => return Ok(parts),
        }
    }
    Ok(parts)
}

/// The fields of the structs of a dtype, where there are so many. None elsewhere.
fn fields_of(dtype: &DType, count: usize) -> Option<&Fields>
    ensures structs { IfSome result (λ fields. IsStructOf (data_type dtype.now) fields.now) }
    ensures count { IfSome result (λ fields. length (fields_in fields.now) ≡ count) }
{
    match dtype {
        DType::Struct(fields, _) => {
            if fields.len() == count {
                Some(fields)
            } else {
                None
            }
        }
        _ => None,
    }
}

/// The structs of the first rows of columnar values, one for each field.
fn fitting_fields(
    alloc: Global,
    dtype: &DType,
    fields: &Fields,
    rows: usize,
    columnar_values: Vec<ColumnarValue<'_>>,
) -> Result<Array, AllocError>
    requires structs { IsStructOf (data_type dtype.now) fields.now }
    requires count { length (fields_in fields.now) ≡ length columnar_values.items }
    requires fit { AllByRecursion (Fits (data_type dtype.now)) (map struct_row (rows_along rows (map columnar_rows columnar_values.items))) }
    ensures dtype { IfOk result (λ array. array.dtype ≡ bare (data_type dtype.now)) }
    ensures values { IfOk result (λ array. array.values ≡ map struct_row (rows_along rows (map columnar_rows columnar_values.entry.items))) }
{
    let count = fewest_rows(rows, columnar_values.as_slice());
    let parts = fitting_columnar_values(alloc, fields, columnar_values, count)?;
    let validity = Mask::new_true(alloc, count as u64)?;
    Ok(Array::of_structs(validity, ChildArrays::of(count, parts)))
}

/// The structs of columnar values as an array of the dtype. It moves what the columnar values hold.
pub(crate) fn fitting_structs(
    alloc: Global,
    dtype: &DType,
    rows: usize,
    columnar_values: Vec<ColumnarValue<'_>>,
) -> Result<Array, AllocError>
    requires { AllByRecursion (Fits (data_type dtype.now)) (map struct_row (rows_along rows (map columnar_rows columnar_values.items))) }
    ensures dtype { IfOk result (λ array. array.dtype ≡ bare (data_type dtype.now)) }
    ensures values { IfOk result (λ array. array.values ≡ map struct_row (rows_along rows (map columnar_rows columnar_values.entry.items))) }
{
    match fields_of(dtype, columnar_values.len()) {
        Some(fields) => {
            let array = fitting_fields(alloc, dtype, fields, rows, columnar_values)?;
            Ok(array)
        }
        None => {
            let made = rows_of_columnar(alloc, rows, columnar_values)?;
            let row_values = struct_row_values(alloc, made)?;
            let array = row_value_array(alloc, dtype, row_values)?;
            Ok(array)
        }
    }
}
