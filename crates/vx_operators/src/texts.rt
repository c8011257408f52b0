//! Comparison of texts, row by row, where they stand.

ghost use Rattle.std.specs.Prelude.{◌≡◌, length, map, IfOk};
ghost use Rattle.vx_types.specs.declared.dtypes.Nullability.TheVariants.{NonNullable};
ghost use Rattle.vx_types.specs.Data.{bool_type};
ghost use Rattle.vx_arrays.specs.Fronts.{front_number};
ghost use Rattle.vx_operators.specs.Kernels.{compares_text};
ghost use Rattle.vx_operators.specs.Operators.{comparison_of};
ghost use Rattle.vx_operators.specs.Rows.{along, front};
ghost use Rattle.vx_operators.specs.TextSides.{text_valid, side_texts, text_rows, IsTextSide};

use crate::operators::CompareOp;
use crate::tested_rows::tested_array;
use crate::text_fronts::order_by_front;
use crate::text_sides::TextSide;
use std::alloc::{AllocError, Global};
use vx_arrays::{Array, Texts, front_of};

/// How two texts compare.
#[inline(always)]
fn test_text(op: CompareOp, left: &str, right: &str) -> bool
    ensures { result ≡ compares_text op left.now right.now }
{
    op.holds(left.cmp(right))
}

/// How what the rows of both sides hold compares, row by row.
fn compared_each(
    alloc: Global,
    op: CompareOp,
    left: TextSide<'_>,
    right: TextSide<'_>,
) -> Result<Vec<bool>, AllocError>
    requires left { IsTextSide left }
    requires rows { length (side_texts right) ≡ length (side_texts left) }
    ensures { IfOk result (λ truths. truths.items ≡ along (compares_text op) (side_texts left.entry) (side_texts right.entry)) }
{
    let rows = left.len();
    let mut truths = Vec::with_capacity(alloc, rows)?;
    for row in 0..rows {
        truths.push(test_text(op, left.at(row), right.at(row)))?;
    }
    Ok(truths)
}

/// Writes how each text of a column compares with one text of this front.
fn mark_column(op: CompareOp, texts: &Texts, text: &str, front: u128, truths: &mut [bool])
    requires front { front ≡ front_number text.now }
    requires rows { length truths.old ≡ length texts.now }
    ensures { truths.new ≡ map (λ t. compares_text op t text.now) texts.now }
{
    for row in 0..texts.len() {
        let order = order_by_front(texts.text(row), texts.front(row), text, front);
        truths[row] = op.holds(order);
    }
}

/// How each text of a column compares with one text.
fn compared_column(
    alloc: Global,
    op: CompareOp,
    texts: &Texts,
    text: &str,
) -> Result<Vec<bool>, AllocError>
    ensures { IfOk result (λ truths. truths.items ≡ map (λ t. compares_text op t text.now) texts.now) }
{
    let rows = texts.len();
    let mut truths = Vec::with_capacity(alloc, rows)?;
    truths.resize(rows, false)?;
    let front = front_of(text.as_bytes());
    mark_column(op, texts, text, front, truths.as_mut_slice());
    Ok(truths)
}

/// How what the rows of both sides hold compares. A column beside one text is gone over by the fronts of its texts.
fn compared_texts(
    alloc: Global,
    op: CompareOp,
    left: TextSide<'_>,
    right: TextSide<'_>,
) -> Result<Vec<bool>, AllocError>
    requires left { IsTextSide left }
    requires rows { length (side_texts right) ≡ length (side_texts left) }
    ensures { IfOk result (λ truths. truths.items ≡ along (compares_text op) (side_texts left.entry) (side_texts right.entry)) }
{
    match (left, right) {
        (TextSide::Rows(_, texts), TextSide::One(text, _)) => {
            let truths = compared_column(alloc, op, texts, text)?;
            Ok(truths)
        }
        _ => compared_each(alloc, op, left, right),
    }
}

/// How the texts of both sides compare.
pub(crate) fn compare_texts(
    alloc: Global,
    op: CompareOp,
    left: TextSide<'_>,
    right: TextSide<'_>,
) -> Result<Array, AllocError>
    requires left { IsTextSide left }
    requires right { IsTextSide right }
    requires rows { length (side_texts right) ≡ length (side_texts left) }
    ensures dtype { IfOk result (λ array. array.dtype ≡ bool_type NonNullable) }
    ensures values { IfOk result (λ array. array.values ≡ front (along (comparison_of op) (text_rows left.entry) (text_rows right.entry))) }
{
    let validity = left.both_valid(alloc, &right)?;
    let tests = compared_texts(alloc, op, left, right)?;
    tested_array(alloc, validity, tests)
}
