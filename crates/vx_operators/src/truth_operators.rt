//! Three-valued logic and null tests, wherever the truth values are held.

ghost use Rattle.std.specs.Prelude.{◌≡◌, Some, false, if◌then◌else◌, length, map, replicate, IfOk};
ghost use Rattle.vx_types.specs.declared.dtypes.Nullability.TheVariants.{NonNullable};
ghost use Rattle.vx_types.specs.Data.{bool_type, null, truth};
ghost use Rattle.vx_types.specs.Slots.{where_valid};
ghost use Rattle.vx_masks.specs.Rows.{Holds, NullsHold};
ghost use Rattle.vx_operators.specs.Operators.{and_of, comparison_of, or_of, negated, null_test_of, value_test_of};
ghost use Rattle.vx_operators.specs.Rows.{along, front};
ghost use Rattle.vx_operators.specs.ColumnarValues.{columnar_type, columnar_rows};

use crate::columnar_values::{ColumnarValue, Scalar};
use crate::operators::CompareOp;
use crate::truths::{Truths, and, compare, is_not_null, is_null, not, or};
use std::alloc::{AllocError, Global};
use vx_arrays::{Array, ArrayView};
use vx_masks::Mask;

/// The truth values of an array, in memory of their own.
fn array_truths(alloc: Global, array: &Array) -> Result<Truths, AllocError>
    requires { array.now.dtype ≡ bool_type NonNullable }
    ensures rows { IfOk result (λ truths. length truths.validity ≡ length truths.values) }
    ensures held { IfOk result (λ truths. NullsHold false truths.validity truths.values) }
    ensures values { IfOk result (λ truths. where_valid truths.validity (map truth truths.values) ≡ array.now.values) }
{
    match array.array_view() {
        ArrayView::Truths(validity, values) => {
            let validity = validity.copy(alloc)?;
            let values = values.copy(alloc)?;
            Ok(Truths { validity, values })
        }
        _ => unreachable!(),
    }
}

/// The same bit at each of so many rows.
fn same_bit(alloc: Global, bit: bool, rows: usize) -> Result<Mask, AllocError>
    ensures { IfOk result (λ mask. mask ≡ replicate rows bit) }
{
    if bit {
        Mask::new_true(alloc, rows as u64)
    } else {
        Mask::new_false(alloc, rows as u64)
    }
}

/// The same truth value, or none, at each of so many rows: a bit each.
#[tactic(auto, using(crate::proofs::LogicRows::truths_same, crate::proofs::LogicRows::truths_same_held))]
fn same_truths(alloc: Global, valid: bool, bit: bool, rows: usize) -> Result<Truths, AllocError>
    requires { Holds false valid bit }
    ensures rows { IfOk result (λ truths. length truths.validity ≡ length truths.values) }
    ensures held { IfOk result (λ truths. NullsHold false truths.validity truths.values) }
    ensures values { IfOk result (λ truths. where_valid truths.validity (map truth truths.values) ≡ replicate rows (if valid then truth bit else null)) }
{
    let validity = same_bit(alloc, valid, rows)?;
    let values = same_bit(alloc, bit, rows)?;
    Ok(Truths { validity, values })
}

/// The truth values of a columnar value, in memory of their own.
fn truths_of(alloc: Global, columnar: &ColumnarValue<'_>) -> Result<Truths, AllocError>
    requires { columnar_type columnar.now ≡ bool_type NonNullable }
    ensures rows { IfOk result (λ truths. length truths.validity ≡ length truths.values) }
    ensures held { IfOk result (λ truths. NullsHold false truths.validity truths.values) }
    ensures values { IfOk result (λ truths. where_valid truths.validity (map truth truths.values) ≡ columnar_rows columnar.now) }
{
    match columnar {
        ColumnarValue::Lent(array) => array_truths(alloc, array),
        ColumnarValue::Made(array) => array_truths(alloc, array),
        ColumnarValue::Same(Scalar::Truth(Some(bit)), rows) => {
            same_truths(alloc, true, *bit, *rows)
        }
        ColumnarValue::Same(Scalar::Truth(None), rows) => same_truths(alloc, false, false, *rows),
        ColumnarValue::Same(_, _) => unreachable!(),
    }
}

/// The array of the truth values.
fn array_of(truths: Truths) -> Array
    requires rows { length truths.validity ≡ length truths.values }
    requires held { NullsHold false truths.validity truths.values }
    ensures dtype { result.dtype ≡ bool_type NonNullable }
    ensures values { result.values ≡ where_valid truths.validity (map truth truths.values) }
{
    let Truths { validity, values } = truths;
    Array::of_truths(validity, values)
}

/// Whether both are true, row by row.
#[tactic(auto, using(crate::proofs::LogicRows::truths_count))]
pub(crate) fn and_truths(
    alloc: Global,
    left: &ColumnarValue<'_>,
    right: &ColumnarValue<'_>,
) -> Result<Array, AllocError>
    requires left { columnar_type left.now ≡ bool_type NonNullable }
    requires right { columnar_type right.now ≡ bool_type NonNullable }
    requires rows { length (columnar_rows right.now) ≡ length (columnar_rows left.now) }
    ensures dtype { IfOk result (λ array. array.dtype ≡ bool_type NonNullable) }
    ensures values { IfOk result (λ array. map Some array.values ≡ along and_of (columnar_rows left.now) (columnar_rows right.now)) }
{
    let left = truths_of(alloc, left)?;
    let right = truths_of(alloc, right)?;
    let made = and(alloc, &left, &right)?;
    Ok(array_of(made))
}

/// Whether one is true, row by row.
#[tactic(auto, using(crate::proofs::LogicRows::truths_count))]
pub(crate) fn or_truths(
    alloc: Global,
    left: &ColumnarValue<'_>,
    right: &ColumnarValue<'_>,
) -> Result<Array, AllocError>
    requires left { columnar_type left.now ≡ bool_type NonNullable }
    requires right { columnar_type right.now ≡ bool_type NonNullable }
    requires rows { length (columnar_rows right.now) ≡ length (columnar_rows left.now) }
    ensures dtype { IfOk result (λ array. array.dtype ≡ bool_type NonNullable) }
    ensures values { IfOk result (λ array. map Some array.values ≡ along or_of (columnar_rows left.now) (columnar_rows right.now)) }
{
    let left = truths_of(alloc, left)?;
    let right = truths_of(alloc, right)?;
    let made = or(alloc, &left, &right)?;
    Ok(array_of(made))
}

/// How the truth values of both compare, row by row.
#[tactic(auto, using(crate::proofs::LogicRows::truths_count))]
pub(crate) fn compare_truths(
    alloc: Global,
    op: CompareOp,
    left: &ColumnarValue<'_>,
    right: &ColumnarValue<'_>,
) -> Result<Array, AllocError>
    requires left { columnar_type left.now ≡ bool_type NonNullable }
    requires right { columnar_type right.now ≡ bool_type NonNullable }
    requires rows { length (columnar_rows right.now) ≡ length (columnar_rows left.now) }
    ensures dtype { IfOk result (λ array. array.dtype ≡ bool_type NonNullable) }
    ensures values { IfOk result (λ array. array.values ≡ front (along (comparison_of op) (columnar_rows left.now) (columnar_rows right.now))) }
{
    let left = truths_of(alloc, left)?;
    let right = truths_of(alloc, right)?;
    let made = compare(alloc, op, &left, &right)?;
    Ok(array_of(made))
}

/// The opposite of each truth value.
pub(crate) fn not_truths(alloc: Global, columnar: &ColumnarValue<'_>) -> Result<Array, AllocError>
    requires { columnar_type columnar.now ≡ bool_type NonNullable }
    ensures dtype { IfOk result (λ array. array.dtype ≡ bool_type NonNullable) }
    ensures values { IfOk result (λ array. map Some array.values ≡ map negated (columnar_rows columnar.now)) }
{
    let truths = truths_of(alloc, columnar)?;
    let made = not(alloc, &truths)?;
    Ok(array_of(made))
}

/// Which rows of an array have no value.
pub(crate) fn null_rows(alloc: Global, array: &Array) -> Result<Array, AllocError>
    ensures dtype { IfOk result (λ made. made.dtype ≡ bool_type NonNullable) }
    ensures values { IfOk result (λ made. map Some made.values ≡ map null_test_of array.now.values) }
{
    let made = is_null(alloc, array.validity())?;
    Ok(array_of(made))
}

/// Which rows of an array have a value.
pub(crate) fn value_rows(alloc: Global, array: &Array) -> Result<Array, AllocError>
    ensures dtype { IfOk result (λ made. made.dtype ≡ bool_type NonNullable) }
    ensures values { IfOk result (λ made. map Some made.values ≡ map value_test_of array.now.values) }
{
    let made = is_not_null(alloc, array.validity())?;
    Ok(array_of(made))
}
