//! Comparison and arithmetic over the numbers of one kind, one loop each. The first row that is a fault ends
//! it.

ghost use Rattle.std.specs.Prelude.{◌≡◌, ◌≤◌, pos, Some, if◌then◌else◌, length, map, option_map, take, IfOk};
ghost use Rattle.vx_types.specs.declared.dtypes.Nullability.{Nullability};
ghost use Rattle.vx_types.specs.declared.dtypes.Nullability.TheVariants.{NonNullable};
ghost use Rattle.vx_types.specs.Data.{bool_type, int_type, number};
ghost use Rattle.vx_types.specs.Slots.{where_valid};
ghost use Rattle.vx_masks.specs.Rows.{NullsHold};
ghost use Rattle.vx_operators.specs.Kernels.{compares, exact_inside, of_two};
ghost use Rattle.vx_operators.specs.Operators.{arithmetic_of, comparison_of};
ghost use Rattle.vx_operators.specs.Rows.{along, front};
ghost use Rattle.vx_operators.specs.Sides.{side_valid, side_numbers, side_rows, IsSide};

use crate::integers::Integer;
use crate::operators::{ArithOp, CompareOp};
use crate::sides::Side;
use crate::tested_rows::tested_array;
use std::alloc::{AllocError, Global};
use vx_arrays::Array;
use vx_masks::Mask;

/// How two numbers compare.
#[inline(always)]
fn test<T: Integer>(op: CompareOp, left: T, right: T) -> bool
    ensures { result ≡ compares op (T.number left) (T.number right) }
{
    op.holds(left.order(right))
}

/// How what the rows of both sides hold compares.
#[inline(always)]
fn compared_rows<T: Integer>(
    alloc: Global,
    op: CompareOp,
    left: Side<'_, T>,
    right: Side<'_, T>,
) -> Result<Vec<bool>, AllocError>
    requires left { IsSide left }
    requires rows { length (side_numbers T.number right) ≡ length (side_numbers T.number left) }
    ensures { IfOk result (λ truths. truths.items ≡ along (compares op) (side_numbers T.number left.entry) (side_numbers T.number right.entry)) }
{
    let rows = left.len();
    let mut truths = Vec::with_capacity(alloc, rows)?;
    for row in 0..rows {
        truths.push(test(op, left.at(row), right.at(row)))?;
    }
    Ok(truths)
}

/// How the numbers of both sides compare.
pub fn compare_numbers<T: Integer>(
    alloc: Global,
    op: CompareOp,
    left: Side<'_, T>,
    right: Side<'_, T>,
) -> Result<Array, AllocError>
    requires left { IsSide left }
    requires right { IsSide right }
    requires rows { length (side_numbers T.number right) ≡ length (side_numbers T.number left) }
    ensures dtype { IfOk result (λ array. array.dtype ≡ bool_type NonNullable) }
    ensures values { IfOk result (λ array. array.values ≡ front (along (comparison_of op) (side_rows T.number left.entry) (side_rows T.number right.entry))) }
{
    let validity = left.both_valid(alloc, &right)?;
    let tests = compared_rows(alloc, op, left, right)?;
    tested_array(alloc, validity, tests)
}

/// The exact result in a row that is valid. A row that is not holds 0. None is a fault.
#[inline(always)]
fn result_of<T: Integer>(op: ArithOp, valid: bool, left: T, right: T) -> Option<T>
    ensures { option_map T.number result ≡ (if valid then exact_inside T.kind op (T.number left) (T.number right) else Some (pos 0)) }
{
    if valid {
        left.joined(op, right)
    } else {
        Some(T::zero())
    }
}

/// The results of what the valid rows of both sides hold, as far as the first fault.
#[inline(always)]
fn joined_rows<T: Integer>(
    alloc: Global,
    op: ArithOp,
    valid: &Mask,
    left: Side<'_, T>,
    right: Side<'_, T>,
) -> Result<Vec<T>, AllocError>
    requires left { IsSide left }
    requires rows { length (side_numbers T.number right) ≡ length (side_numbers T.number left) }
    requires valid { length valid.now ≡ length (side_numbers T.number left) }
    ensures { IfOk result (λ made. map T.number made.items ≡ front (of_two (exact_inside T.kind op) (pos 0) valid.now (side_numbers T.number left.entry) (side_numbers T.number right.entry))) }
{
    let rows = left.len();
    let mut made = Vec::with_capacity(alloc, rows)?;
    for row in 0..rows {
        match result_of(op, valid.value(row as u64), left.at(row), right.at(row)) {
            Some(number) => made.push(number)?,
            None => return Ok(made),
        }
    }
    Ok(made)
}

/// The first rows of a mask.
fn first_rows(alloc: Global, mask: Mask, rows: usize) -> Result<Mask, AllocError>
    requires { rows ≤ length mask }
    ensures { IfOk result (λ first. first ≡ take rows mask) }
{
    if (rows as u64) < mask.len() {
        mask.slice(alloc, 0..rows as u64)
    } else {
        Ok(mask)
    }
}

/// The array of numbers that were made of the first rows of a mask.
fn made_array<T: Integer>(alloc: Global, mask: Mask, made: Vec<T>) -> Result<Array, AllocError>
    requires few { length made.items ≤ length mask }
    requires held { NullsHold (pos 0) (take (length made.items) mask) (map T.number made.items) }
    ensures dtype { IfOk result (λ array. array.dtype ≡ int_type T.kind NonNullable) }
    ensures values { IfOk result (λ array. array.values ≡ where_valid (take (length made.items) mask) (map number (map T.number made.items))) }
{
    let validity = first_rows(alloc, mask, made.as_slice().len())?;
    let numbers = T::as_numbers(made);
    Ok(Array::of_numbers(validity, numbers))
}

/// The results of the numbers of both sides, at the rows before the first fault.
pub fn join_numbers<T: Integer>(
    alloc: Global,
    op: ArithOp,
    left: Side<'_, T>,
    right: Side<'_, T>,
) -> Result<Array, AllocError>
    requires left { IsSide left }
    requires right { IsSide right }
    requires rows { length (side_numbers T.number right) ≡ length (side_numbers T.number left) }
    ensures dtype { IfOk result (λ array. array.dtype ≡ int_type T.kind NonNullable) }
    ensures values { IfOk result (λ array. (n : Nullability) → array.values ≡ front (along (arithmetic_of op (Some (int_type T.kind n))) (side_rows T.number left.entry) (side_rows T.number right.entry))) }
{
    let known = left.both_valid(alloc, &right)?;
    let made = joined_rows(alloc, op, &known, left, right)?;
    made_array(alloc, known, made)
}
