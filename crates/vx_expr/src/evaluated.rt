//! What an expression is worth at each row: packed, or row by row where no operator goes over the values
//! as a whole.

ghost use Rattle.std.specs.Prelude.{◌≡◌, ◌≤◌, Some, length, map, replicate, IfOk, IfSome};
ghost use Rattle.vx_base.specs.Data.{Datum};
ghost use Rattle.vx_base.specs.ValueViews.{datum};
ghost use Rattle.vx_operators.specs.ColumnarValues.{scalar_datum, columnar_rows};
ghost use Rattle.vx_expr.specs.Rows.{along, front};
ghost use Rattle.vx_expr.specs.Steps.{row_value_datum, evaluated_rows, item_at, one_step, two_step};

use crate::packing::{fewest_rows, rows_of_columnar, struct_row_values};
use crate::row_values::RowValue;
use crate::steps::{OneStep, TwoStep, one, two};
use crate::struct_steps::derived_of_structs;
use std::alloc::{AllocError, Global};
use vx_arrays::{Array, ArrayView};
use vx_base::{DType, Value};
use vx_operators::{
    ColumnarValue, Scalar, and_columnar, compare_columnar, join_columnar, not_columnar, null_test,
    or_columnar, value_test,
};

/// What an expression is worth at each row.
#[derive(Drop)]
pub(crate) enum Evaluated<'a> {
    Packed(ColumnarValue<'a>),
    /// Structs of a columnar value for each field, as far as each of them has rows, and of so many rows at most.
    Structs(usize, Vec<ColumnarValue<'a>>),
    RowValues(Vec<RowValue<'a>>),
}

/// The rows of an array, row by row: texts stay where they are.
fn lent_row_values<'a>(alloc: Global, array: &'a Array) -> Result<Vec<RowValue<'a>>, AllocError>
    ensures { IfOk result (λ row_values. map row_value_datum row_values.items ≡ array.now.values) }
{
    let rows = array.len();
    let mut row_values = Vec::with_capacity(alloc, rows)?;
    for row in 0..rows {
        let cell = RowValue::of_row(alloc, array.cell(row))?;
        row_values.push(cell)?;
    }
    Ok(row_values)
}

/// The rows of an array that goes, row by row.
pub(crate) fn own_row_values<'a>(
    alloc: Global,
    array: &Array,
) -> Result<Vec<RowValue<'a>>, AllocError>
    ensures { IfOk result (λ row_values. map row_value_datum row_values.items ≡ array.now.values) }
{
    let rows = array.len();
    let mut row_values = Vec::with_capacity(alloc, rows)?;
    for row in 0..rows {
        let value = array.get(alloc, row)?;
        row_values.push(RowValue::owned(value))?;
    }
    Ok(row_values)
}

/// The same value at each row, row by row.
fn same_row_values<'a>(
    alloc: Global,
    scalar: &Scalar<'a>,
    rows: usize,
) -> Result<Vec<RowValue<'a>>, AllocError>
    ensures { IfOk result (λ row_values. map row_value_datum row_values.items ≡ replicate rows (scalar_datum scalar.now)) }
{
    let mut row_values = Vec::with_capacity(alloc, rows)?;
    for _row in 0..rows {
        row_values.push(RowValue::scalar(scalar))?;
    }
    Ok(row_values)
}

/// The same value of a literal at each row, row by row.
fn literal_row_values<'a>(
    alloc: Global,
    value: &'a Value,
    rows: usize,
) -> Result<Vec<RowValue<'a>>, AllocError>
    ensures { IfOk result (λ row_values. map row_value_datum row_values.items ≡ replicate rows (datum value.now)) }
{
    let mut row_values = Vec::with_capacity(alloc, rows)?;
    for _row in 0..rows {
        row_values.push(RowValue::of(value))?;
    }
    Ok(row_values)
}

/// The same value of a literal at each row, which is not spread.
pub(crate) fn literal<'a>(
    alloc: Global,
    value: &'a Value,
    dtype: &DType,
    rows: usize,
) -> Result<Evaluated<'a>, AllocError>
    ensures { IfOk result (λ made. evaluated_rows made ≡ replicate rows (datum value.now)) }
{
    let scalar = match (value, dtype) {
        (Value::Bool(truth), _) => Scalar::Truth(Some(*truth)),
        (Value::Int(number), DType::Int(kind, _)) => Scalar::Number(*kind, Some(*number)),
        (Value::Text(text), _) => Scalar::Text(Some(text.as_str())),
        (Value::Null, DType::Bool(_)) => Scalar::Truth(None),
        (Value::Null, DType::Int(kind, _)) => Scalar::Number(*kind, None),
        (Value::Null, _) => Scalar::Text(None),
        _ => {
            let row_values = literal_row_values(alloc, value, rows)?;
            return Ok(Evaluated::RowValues(row_values));
        }
    };
    Ok(Evaluated::Packed(ColumnarValue::Same(scalar, rows)))
}

/// The values of a columnar value, row by row.
pub(crate) fn columnar_row_values<'a>(
    alloc: Global,
    columnar: ColumnarValue<'a>,
) -> Result<Vec<RowValue<'a>>, AllocError>
    ensures { IfOk result (λ row_values. map row_value_datum row_values.items ≡ columnar_rows columnar.entry) }
{
    match columnar {
        ColumnarValue::Lent(array) => lent_row_values(alloc, array),
        ColumnarValue::Made(array) => {
            let row_values = own_row_values(alloc, &array);
            drop(array);
            row_values
        }
        ColumnarValue::Same(scalar, rows) => same_row_values(alloc, &scalar, rows),
    }
}

impl<'a> Evaluated<'a> {
    /// How many rows there are.
    pub(crate) fn len(&self) -> usize
        ensures { result ≡ length (evaluated_rows self.now) }
    {
        match self {
            Evaluated::Packed(columnar) => columnar.len(),
            Evaluated::Structs(rows, columnar_values) => fewest_rows(
                *rows,
                columnar_values.as_slice(),
            ),
            Evaluated::RowValues(row_values) => row_values.len(),
        }
    }

    /// The values, row by row.
    pub(crate) fn into_row_values(self, alloc: Global) -> Result<Vec<RowValue<'a>>, AllocError>
        ensures { IfOk result (λ row_values. map row_value_datum row_values.items ≡ evaluated_rows self.entry) }
    {
        match self {
            Evaluated::Packed(columnar) => columnar_row_values(alloc, columnar),
            Evaluated::Structs(rows, columnar_values) => {
                let made = rows_of_columnar(alloc, rows, columnar_values)?;
                let row_values = struct_row_values(alloc, made)?;
                Ok(row_values)
            }
            Evaluated::RowValues(row_values) => Ok(row_values),
        }
    }
}

/// The step with each value before the first fault.
fn one_each<'a>(
    alloc: Global,
    step: OneStep,
    row_values: &[RowValue<'a>],
) -> Result<Vec<RowValue<'a>>, AllocError>
    ensures { IfOk result (λ made. map row_value_datum made.items ≡ front (map (one_step step) (map row_value_datum row_values.now))) }
{
    let mut made = Vec::with_capacity(alloc, row_values.len())?;
    for cell in row_values {
        match one(alloc, step, cell)? {
            Some(cell) => made.push(cell)?,
            None => return Ok(made),
        }
    }
    Ok(made)
}

/// The step with the values of each row before the first fault.
fn two_each<'a>(
    alloc: Global,
    step: TwoStep,
    lefts: &[RowValue<'_>],
    rights: &[RowValue<'_>],
) -> Result<Vec<RowValue<'a>>, AllocError>
    requires { length rights.now ≤ length lefts.now }
    ensures { IfOk result (λ made. map row_value_datum made.items ≡ front (along (two_step step) (map row_value_datum lefts.now) (map row_value_datum rights.now))) }
{
    let mut made = Vec::with_capacity(alloc, rights.len())?;
    for (row, right) in rights.iter().enumerate() {
        match two(step, &lefts[row], right) {
            Some(cell) => made.push(cell)?,
            None => return Ok(made),
        }
    }
    Ok(made)
}

/// The step with the values of each row before the first fault, row by row.
fn two_rows<'a>(
    alloc: Global,
    step: TwoStep,
    lefts: Vec<RowValue<'_>>,
    rights: Vec<RowValue<'_>>,
) -> Result<Evaluated<'a>, AllocError>
    requires { length rights.items ≤ length lefts.items }
    ensures { IfOk result (λ made. evaluated_rows made ≡ front (along (two_step step) (map row_value_datum lefts.entry.items) (map row_value_datum rights.entry.items))) }
{
    let made = two_each(alloc, step, &lefts, &rights)?;
    Ok(Evaluated::RowValues(made))
}

/// The array of a struct at a place, where it stands. None where there is none, or where some struct is
/// null.
fn field_array(array: &Array, place: usize) -> Option<&Array>
    ensures { IfSome result (λ found. found.now.values ≡ front (map (item_at (Some place)) array.now.values)) }
{
    match array.array_view() {
        ArrayView::Structs(validity, parts) => {
            if validity.all_true() {
                parts.array(place)
            } else {
                None
            }
        }
        _ => None,
    }
}

/// The step with the values of a columnar value, as a whole. None where there is no operator for it.
fn whole_one(
    alloc: Global,
    step: OneStep,
    columnar: &ColumnarValue<'_>,
) -> Result<Option<Array>, AllocError>
    ensures { IfOk result (λ made. IfSome made (λ array. array.values ≡ front (map (one_step step) (columnar_rows columnar.now)))) }
{
    match step {
        OneStep::Not => not_columnar(alloc, columnar),
        OneStep::IsNull => null_test(alloc, columnar),
        OneStep::IsNotNull => value_test(alloc, columnar),
        OneStep::Field(_) => Ok(None),
        OneStep::AtMostBound => Ok(None),
    }
}

/// The step with the values of a columnar value.
fn one_of_columnar<'a>(
    alloc: Global,
    step: OneStep,
    columnar: ColumnarValue<'a>,
) -> Result<Evaluated<'a>, AllocError>
    ensures { IfOk result (λ made. evaluated_rows made ≡ front (map (one_step step) (columnar_rows columnar.entry))) }
{
    match whole_one(alloc, step, &columnar) {
        Ok(Some(array)) => {
            drop(columnar);
            Ok(Evaluated::Packed(ColumnarValue::Made(array)))
        }
        Ok(None) => {
            let row_values = columnar_row_values(alloc, columnar)?;
            let made = one_each(alloc, step, &row_values)?;
            Ok(Evaluated::RowValues(made))
        }
        Err(error) => {
            drop(columnar);
            Err(error)
        }
    }
}

/// The item at a place of the structs of a columnar value.
fn item_of_columnar<'a>(
    alloc: Global,
    place: usize,
    columnar: ColumnarValue<'a>,
) -> Result<Evaluated<'a>, AllocError>
    ensures { IfOk result (λ made. evaluated_rows made ≡ front (map (item_at (Some place)) (columnar_rows columnar.entry))) }
{
    match columnar {
        ColumnarValue::Lent(array) => match field_array(array, place) {
            Some(found) => Ok(Evaluated::Packed(ColumnarValue::Lent(found))),
            None => one_of_columnar(
                alloc,
                OneStep::Field(Some(place)),
                ColumnarValue::Lent(array),
            ),
        },
        _ => one_of_columnar(alloc, OneStep::Field(Some(place)), columnar),
    }
}

/// The step with each value before the first fault, row by row.
pub(crate) fn row_by_row<'a>(
    alloc: Global,
    step: OneStep,
    operand: Evaluated<'a>,
) -> Result<Evaluated<'a>, AllocError>
    ensures { IfOk result (λ made. evaluated_rows made ≡ front (map (one_step step) (evaluated_rows operand.entry))) }
{
    let row_values = operand.into_row_values(alloc)?;
    let made = one_each(alloc, step, &row_values)?;
    Ok(Evaluated::RowValues(made))
}

/// The step with each value before the first fault, wherever the values are held.
pub(crate) fn derived<'a>(
    alloc: Global,
    step: OneStep,
    operand: Evaluated<'a>,
) -> Result<Evaluated<'a>, AllocError>
    ensures { IfOk result (λ made. evaluated_rows made ≡ front (map (one_step step) (evaluated_rows operand.entry))) }
{
    match operand {
        Evaluated::Packed(columnar) => match step {
            OneStep::Field(Some(place)) => item_of_columnar(alloc, place, columnar),
            _ => one_of_columnar(alloc, step, columnar),
        },
        Evaluated::Structs(rows, columnar_values) => {
            derived_of_structs(alloc, step, rows, columnar_values)
        }
        operand => row_by_row(alloc, step, operand),
    }
}

/// The step with the values of two columnar values, as a whole. None where there is no operator for it.
fn whole_two(
    alloc: Global,
    step: TwoStep,
    left: &ColumnarValue<'_>,
    right: &ColumnarValue<'_>,
) -> Result<Option<Array>, AllocError>
    requires { length (columnar_rows right.now) ≡ length (columnar_rows left.now) }
    ensures { IfOk result (λ made. IfSome made (λ array. array.values ≡ front (along (two_step step) (columnar_rows left.now) (columnar_rows right.now)))) }
{
    match step {
        TwoStep::And => and_columnar(alloc, left, right),
        TwoStep::Or => or_columnar(alloc, left, right),
        TwoStep::Compare(op) => compare_columnar(alloc, op, left, right),
        TwoStep::Arith(op, Some(kind)) => join_columnar(alloc, op, kind, left, right),
        TwoStep::Arith(_, None) => Ok(None),
    }
}

/// The step with the values of two columnar values of as many rows.
fn two_of_columnar<'a>(
    alloc: Global,
    step: TwoStep,
    left: ColumnarValue<'a>,
    right: ColumnarValue<'a>,
) -> Result<Evaluated<'a>, AllocError>
    requires { length (columnar_rows right) ≡ length (columnar_rows left) }
    ensures { IfOk result (λ made. evaluated_rows made ≡ front (along (two_step step) (columnar_rows left.entry) (columnar_rows right.entry))) }
{
    match whole_two(alloc, step, &left, &right) {
        Ok(Some(array)) => {
            drop(left);
            drop(right);
            Ok(Evaluated::Packed(ColumnarValue::Made(array)))
        }
        Ok(None) => {
            let lefts = columnar_row_values(alloc, left);
            let rights = columnar_row_values(alloc, right)?;
            two_rows(alloc, step, lefts?, rights)
        }
        Err(error) => {
            drop(left);
            drop(right);
            Err(error)
        }
    }
}

/// The step with the values of both at each row before the first fault, wherever the values are held.
pub(crate) fn paired<'a>(
    alloc: Global,
    step: TwoStep,
    left: Evaluated<'a>,
    right: Evaluated<'a>,
) -> Result<Evaluated<'a>, AllocError>
    requires { length (evaluated_rows right) ≤ length (evaluated_rows left) }
    ensures { IfOk result (λ made. evaluated_rows made ≡ front (along (two_step step) (evaluated_rows left.entry) (evaluated_rows right.entry))) }
{
    match (left, right) {
        (Evaluated::Packed(left), Evaluated::Packed(right)) => {
            let left = left.first(alloc, right.len())?;
            two_of_columnar(alloc, step, left, right)
        }
        (left, right) => {
            let lefts = left.into_row_values(alloc);
            let rights = right.into_row_values(alloc)?;
            two_rows(alloc, step, lefts?, rights)
        }
    }
}
