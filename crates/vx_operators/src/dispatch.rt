//! Operators over whole columns, wherever the values are held. None exactly where the values are of no sort that is
//! gone over as a whole, which each call names.

ghost use Rattle.std.specs.Prelude.{◌≡◌, ◌↔◌, Some, length, map, IfOk, IfSome, IsSome, IsTrue};
ghost use Rattle.vx_types.specs.declared.dtypes.Nullability.{Nullability};
ghost use Rattle.vx_types.specs.Data.{int_type};
ghost use Rattle.vx_operators.specs.Operators.{and_of, arithmetic_of, comparison_of, negated, null_test_of, or_of, value_test_of};
ghost use Rattle.vx_operators.specs.Rows.{along, front};
ghost use Rattle.vx_operators.specs.ColumnarValues.{columnar_rows, HoldsTruths, HoldsTexts, HoldsNumbers, AreAlike, LiesInRows};
ghost use Rattle.vx_operators.specs.Held.{HoldBoth};

use crate::columnar_values::ColumnarValue;
use crate::number_operators::{compare_kind, join_kind};
use crate::operators::{ArithOp, CompareOp};
use crate::text_operators::compare_text_rows;
use crate::truth_operators::{
    and_truths, compare_truths, not_truths, null_rows, or_truths, value_rows,
};
use std::alloc::{AllocError, Global};
use vx_arrays::Array;
use vx_types::IntKind;

/// Whether both hold truth values, or none.
fn are_truths(left: &ColumnarValue<'_>, right: &ColumnarValue<'_>) -> bool
    ensures { IsTrue result ↔ (HoldsTruths left.now × HoldsTruths right.now) }
{
    left.is_truth() && right.is_truth()
}

/// Whether both hold texts, or none.
fn are_texts(left: &ColumnarValue<'_>, right: &ColumnarValue<'_>) -> bool
    ensures { IsTrue result ↔ (HoldsTexts left.now × HoldsTexts right.now) }
{
    left.is_text() && right.is_text()
}

/// Whether both hold numbers of the kind, or none.
fn are_numbers(kind: IntKind, left: &ColumnarValue<'_>, right: &ColumnarValue<'_>) -> bool
    ensures { IsTrue result ↔ (HoldsNumbers kind left.now × HoldsNumbers kind right.now) }
{
    left.is_of(kind) && right.is_of(kind)
}

/// What both of two columnar values hold.
#[derive(Clone, Copy)]
enum Held {
    Truths,
    Texts,
    Numbers(IntKind),
}

/// What both hold. None where they don't hold the same.
fn alike(left: &ColumnarValue<'_>, right: &ColumnarValue<'_>) -> Option<Held>
    ensures both { IfSome result (λ held. HoldBoth held left.now right.now) }
    ensures alike { IsSome result ↔ AreAlike left.now right.now }
{
    if are_truths(left, right) {
        return Some(Held::Truths);
    }
    if are_texts(left, right) {
        return Some(Held::Texts);
    }
    match left.kind() {
        Some(kind) => {
            if right.is_of(kind) {
                Some(Held::Numbers(kind))
            } else {
                None
            }
        }
        None => None,
    }
}

/// How what both hold compares, row by row.
fn compare_held(
    alloc: Global,
    op: CompareOp,
    held: Held,
    left: &ColumnarValue<'_>,
    right: &ColumnarValue<'_>,
) -> Result<Array, AllocError>
    requires both { HoldBoth held left.now right.now }
    requires rows { length (columnar_rows right.now) ≡ length (columnar_rows left.now) }
    ensures { IfOk result (λ array. array.values ≡ front (along (comparison_of op) (columnar_rows left.now) (columnar_rows right.now))) }
{
    match held {
        Held::Truths => compare_truths(alloc, op, left, right),
        Held::Texts => compare_text_rows(alloc, op, left, right),
        Held::Numbers(kind) => compare_kind(alloc, op, kind, left, right),
    }
}

/// How the truth values, the texts or the numbers of both compare, row by row.
pub fn compare_columnar(
    alloc: Global,
    op: CompareOp,
    left: &ColumnarValue<'_>,
    right: &ColumnarValue<'_>,
) -> Result<Option<Array>, AllocError>
    requires { length (columnar_rows right.now) ≡ length (columnar_rows left.now) }
    ensures values { IfOk result (λ made. IfSome made (λ array. array.values ≡ front (along (comparison_of op) (columnar_rows left.now) (columnar_rows right.now)))) }
    ensures made { IfOk result (λ made. IsSome made ↔ AreAlike left.now right.now) }
{
    match alike(left, right) {
        Some(held) => {
            let array = compare_held(alloc, op, held, left, right)?;
            Ok(Some(array))
        }
        None => Ok(None),
    }
}

/// The results of the numbers of both inside a kind, at the rows before the first fault.
pub fn join_columnar(
    alloc: Global,
    op: ArithOp,
    kind: IntKind,
    left: &ColumnarValue<'_>,
    right: &ColumnarValue<'_>,
) -> Result<Option<Array>, AllocError>
    requires { length (columnar_rows right.now) ≡ length (columnar_rows left.now) }
    ensures values { IfOk result (λ made. IfSome made (λ array. (n : Nullability) → array.values ≡ front (along (arithmetic_of op (Some (int_type kind n))) (columnar_rows left.now) (columnar_rows right.now)))) }
    ensures made { IfOk result (λ made. IsSome made ↔ (HoldsNumbers kind left.now × HoldsNumbers kind right.now)) }
{
    if are_numbers(kind, left, right) {
        let array = join_kind(alloc, op, kind, left, right)?;
        Ok(Some(array))
    } else {
        Ok(None)
    }
}

/// Whether both are true, row by row.
#[tactic(auto, using(crate::proofs::Somes::somes_front))]
pub fn and_columnar(
    alloc: Global,
    left: &ColumnarValue<'_>,
    right: &ColumnarValue<'_>,
) -> Result<Option<Array>, AllocError>
    requires { length (columnar_rows right.now) ≡ length (columnar_rows left.now) }
    ensures values { IfOk result (λ made. IfSome made (λ array. array.values ≡ front (along and_of (columnar_rows left.now) (columnar_rows right.now)))) }
    ensures made { IfOk result (λ made. IsSome made ↔ (HoldsTruths left.now × HoldsTruths right.now)) }
{
    if are_truths(left, right) {
        let array = and_truths(alloc, left, right)?;
        Ok(Some(array))
    } else {
        Ok(None)
    }
}

/// Whether one is true, row by row.
#[tactic(auto, using(crate::proofs::Somes::somes_front))]
pub fn or_columnar(
    alloc: Global,
    left: &ColumnarValue<'_>,
    right: &ColumnarValue<'_>,
) -> Result<Option<Array>, AllocError>
    requires { length (columnar_rows right.now) ≡ length (columnar_rows left.now) }
    ensures values { IfOk result (λ made. IfSome made (λ array. array.values ≡ front (along or_of (columnar_rows left.now) (columnar_rows right.now)))) }
    ensures made { IfOk result (λ made. IsSome made ↔ (HoldsTruths left.now × HoldsTruths right.now)) }
{
    if are_truths(left, right) {
        let array = or_truths(alloc, left, right)?;
        Ok(Some(array))
    } else {
        Ok(None)
    }
}

/// The opposite of each truth value.
#[tactic(auto, using(crate::proofs::Somes::somes_front))]
pub fn not_columnar(
    alloc: Global,
    columnar: &ColumnarValue<'_>,
) -> Result<Option<Array>, AllocError>
    ensures values { IfOk result (λ made. IfSome made (λ array. array.values ≡ front (map negated (columnar_rows columnar.now)))) }
    ensures made { IfOk result (λ made. IsSome made ↔ HoldsTruths columnar.now) }
{
    if columnar.is_truth() {
        let array = not_truths(alloc, columnar)?;
        Ok(Some(array))
    } else {
        Ok(None)
    }
}

/// Which rows have no value.
#[tactic(auto, using(crate::proofs::Somes::somes_front))]
pub fn null_test(alloc: Global, columnar: &ColumnarValue<'_>) -> Result<Option<Array>, AllocError>
    ensures values { IfOk result (λ made. IfSome made (λ array. array.values ≡ front (map null_test_of (columnar_rows columnar.now)))) }
    ensures made { IfOk result (λ made. IsSome made ↔ LiesInRows columnar.now) }
{
    match columnar {
        ColumnarValue::Lent(array) => {
            let made = null_rows(alloc, array)?;
            Ok(Some(made))
        }
        ColumnarValue::Made(array) => {
            let made = null_rows(alloc, array)?;
            Ok(Some(made))
        }
        ColumnarValue::Same(_, _) => Ok(None),
    }
}

/// Which rows have a value.
#[tactic(auto, using(crate::proofs::Somes::somes_front))]
pub fn value_test(alloc: Global, columnar: &ColumnarValue<'_>) -> Result<Option<Array>, AllocError>
    ensures values { IfOk result (λ made. IfSome made (λ array. array.values ≡ front (map value_test_of (columnar_rows columnar.now)))) }
    ensures made { IfOk result (λ made. IsSome made ↔ LiesInRows columnar.now) }
{
    match columnar {
        ColumnarValue::Lent(array) => {
            let made = value_rows(alloc, array)?;
            Ok(Some(made))
        }
        ColumnarValue::Made(array) => {
            let made = value_rows(alloc, array)?;
            Ok(Some(made))
        }
        ColumnarValue::Same(_, _) => Ok(None),
    }
}
