//! Comparison of texts, wherever they are held.

ghost use Rattle.std.specs.Prelude.{◌≡◌, length, IfOk};
ghost use Rattle.vx_types.specs.declared.dtypes.Nullability.TheVariants.{NonNullable};
ghost use Rattle.vx_types.specs.Data.{bool_type, utf8_type};
ghost use Rattle.vx_operators.specs.Operators.{comparison_of};
ghost use Rattle.vx_operators.specs.Rows.{along, front};
ghost use Rattle.vx_operators.specs.ColumnarValues.{columnar_type, columnar_rows};

use crate::columnar_values::ColumnarValue;
use crate::operators::CompareOp;
use crate::texts::compare_texts;
use std::alloc::{AllocError, Global};
use vx_arrays::Array;

/// How the texts of both compare, row by row.
pub(crate) fn compare_text_rows(
    alloc: Global,
    op: CompareOp,
    left: &ColumnarValue<'_>,
    right: &ColumnarValue<'_>,
) -> Result<Array, AllocError>
    requires left { columnar_type left.now ≡ utf8_type NonNullable }
    requires right { columnar_type right.now ≡ utf8_type NonNullable }
    requires rows { length (columnar_rows right.now) ≡ length (columnar_rows left.now) }
    ensures dtype { IfOk result (λ array. array.dtype ≡ bool_type NonNullable) }
    ensures values { IfOk result (λ array. array.values ≡ front (along (comparison_of op) (columnar_rows left.now) (columnar_rows right.now))) }
{
    let left = left.text_side();
    let right = right.text_side();
    compare_texts(alloc, op, left, right)
}
