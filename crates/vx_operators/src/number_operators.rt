//! Comparison and arithmetic of numbers, of whichever kind and wherever they are held.

ghost use Rattle.std.specs.Prelude.{◌≡◌, Some, length, IfOk};
ghost use Rattle.vx_types.specs.declared.dtypes.Nullability.{Nullability};
ghost use Rattle.vx_types.specs.declared.dtypes.Nullability.TheVariants.{NonNullable};
ghost use Rattle.vx_types.specs.Data.{bool_type, int_type};
ghost use Rattle.vx_operators.specs.Operators.{arithmetic_of, comparison_of};
ghost use Rattle.vx_operators.specs.Rows.{along, front};
ghost use Rattle.vx_operators.specs.ColumnarValues.{columnar_type, columnar_rows, IsColumnarValue};

use crate::columnar_values::ColumnarValue;
use crate::integers::Integer;
use crate::numbers::{compare_numbers, join_numbers};
use crate::operators::{ArithOp, CompareOp};
use std::alloc::{AllocError, Global};
use vx_arrays::Array;
use vx_types::IntKind;

/// How numbers of one kind compare.
fn compare_of<T: Integer>(
    alloc: Global,
    op: CompareOp,
    left: &ColumnarValue<'_>,
    right: &ColumnarValue<'_>,
) -> Result<Array, AllocError>
    requires left { IsColumnarValue left.now }
    requires right { IsColumnarValue right.now }
    requires left_kind { columnar_type left.now ≡ int_type T.kind NonNullable }
    requires right_kind { columnar_type right.now ≡ int_type T.kind NonNullable }
    requires rows { length (columnar_rows right.now) ≡ length (columnar_rows left.now) }
    ensures dtype { IfOk result (λ array. array.dtype ≡ bool_type NonNullable) }
    ensures values { IfOk result (λ array. array.values ≡ front (along (comparison_of op) (columnar_rows left.now) (columnar_rows right.now))) }
{
    let left = left.side::<T>();
    let right = right.side::<T>();
    compare_numbers(alloc, op, left, right)
}

/// The results of numbers of one kind, at the rows before the first fault.
fn join_of<T: Integer>(
    alloc: Global,
    op: ArithOp,
    left: &ColumnarValue<'_>,
    right: &ColumnarValue<'_>,
) -> Result<Array, AllocError>
    requires left { IsColumnarValue left.now }
    requires right { IsColumnarValue right.now }
    requires left_kind { columnar_type left.now ≡ int_type T.kind NonNullable }
    requires right_kind { columnar_type right.now ≡ int_type T.kind NonNullable }
    requires rows { length (columnar_rows right.now) ≡ length (columnar_rows left.now) }
    ensures dtype { IfOk result (λ array. array.dtype ≡ int_type T.kind NonNullable) }
    ensures values { IfOk result (λ array. (n : Nullability) → array.values ≡ front (along (arithmetic_of op (Some (int_type T.kind n))) (columnar_rows left.now) (columnar_rows right.now))) }
{
    let left = left.side::<T>();
    let right = right.side::<T>();
    join_numbers(alloc, op, left, right)
}

/// How the numbers of two columnar values of one kind compare, row by row.
pub(crate) fn compare_kind(
    alloc: Global,
    op: CompareOp,
    kind: IntKind,
    left: &ColumnarValue<'_>,
    right: &ColumnarValue<'_>,
) -> Result<Array, AllocError>
    requires left { IsColumnarValue left.now }
    requires right { IsColumnarValue right.now }
    requires left_kind { columnar_type left.now ≡ int_type kind NonNullable }
    requires right_kind { columnar_type right.now ≡ int_type kind NonNullable }
    requires rows { length (columnar_rows right.now) ≡ length (columnar_rows left.now) }
    ensures dtype { IfOk result (λ array. array.dtype ≡ bool_type NonNullable) }
    ensures values { IfOk result (λ array. array.values ≡ front (along (comparison_of op) (columnar_rows left.now) (columnar_rows right.now))) }
{
    match kind {
        IntKind::U8 => compare_of::<u8>(alloc, op, left, right),
        IntKind::U16 => compare_of::<u16>(alloc, op, left, right),
        IntKind::U32 => compare_of::<u32>(alloc, op, left, right),
        IntKind::U64 => compare_of::<u64>(alloc, op, left, right),
        IntKind::I8 => compare_of::<i8>(alloc, op, left, right),
        IntKind::I16 => compare_of::<i16>(alloc, op, left, right),
        IntKind::I32 => compare_of::<i32>(alloc, op, left, right),
        IntKind::I64 => compare_of::<i64>(alloc, op, left, right),
    }
}

/// The results of the numbers of two columnar values of one kind, at the rows before the first fault.
pub(crate) fn join_kind(
    alloc: Global,
    op: ArithOp,
    kind: IntKind,
    left: &ColumnarValue<'_>,
    right: &ColumnarValue<'_>,
) -> Result<Array, AllocError>
    requires left { IsColumnarValue left.now }
    requires right { IsColumnarValue right.now }
    requires left_kind { columnar_type left.now ≡ int_type kind NonNullable }
    requires right_kind { columnar_type right.now ≡ int_type kind NonNullable }
    requires rows { length (columnar_rows right.now) ≡ length (columnar_rows left.now) }
    ensures dtype { IfOk result (λ array. array.dtype ≡ int_type kind NonNullable) }
    ensures values { IfOk result (λ array. (n : Nullability) → array.values ≡ front (along (arithmetic_of op (Some (int_type kind n))) (columnar_rows left.now) (columnar_rows right.now))) }
{
    match kind {
        IntKind::U8 => join_of::<u8>(alloc, op, left, right),
        IntKind::U16 => join_of::<u16>(alloc, op, left, right),
        IntKind::U32 => join_of::<u32>(alloc, op, left, right),
        IntKind::U64 => join_of::<u64>(alloc, op, left, right),
        IntKind::I8 => join_of::<i8>(alloc, op, left, right),
        IntKind::I16 => join_of::<i16>(alloc, op, left, right),
        IntKind::I32 => join_of::<i32>(alloc, op, left, right),
        IntKind::I64 => join_of::<i64>(alloc, op, left, right),
    }
}
