//! Steps: what is done with the values of the parts of an expression at a row.

ghost use Rattle.std.specs.Prelude.{◌≡◌, IfOk, option_map, option_and_then, slice_get};
ghost use Rattle.vx_expr.specs.Meaning.{if_inside, exact, negated, and_of, or_of, comparison_of, arithmetic_of, bound_test_of};
ghost use Rattle.vx_expr.specs.Rows.{no_bound};
ghost use Rattle.vx_expr.specs.Steps.{row_value_datum, seen_datum, one_step, two_step, number_type, item_at};
ghost use Rattle.vx_base.specs.Data.{number};
ghost use Rattle.vx_base.specs.ValueViews.{datum, data_in};
ghost use Rattle.vx_base.specs.declared.dtypes.IntKind.{IntKind};

use crate::row_values::{RowValue, Seen};
use std::alloc::{AllocError, Global};
use vx_base::{IntKind, Value, Values};
use vx_operators::{ArithOp, CompareOp};

/// What is done with the value of one part.
#[derive(Clone, Copy)]
pub(crate) enum OneStep {
    /// The item at that place of a struct.
    Field(Option<usize>),
    Not,
    IsNull,
    IsNotNull,
    AtMostBound,
}

/// What is done with the values of two parts.
#[derive(Clone, Copy)]
pub(crate) enum TwoStep {
    And,
    Or,
    Compare(CompareOp),
    /// Two numbers of that kind, joined.
    Arith(ArithOp, Option<IntKind>),
}

/// The value at a place. None where there is none.
fn value_at(values: &Values, place: usize) -> Option<&Value>
    ensures { option_map (λ value. datum value.now) result ≡ slice_get (data_in values.now) place }
{
    values.items().get(place)
}

/// The item at the place of a struct that stays where it is. None where there is none.
fn lent_item<'a>(place: Option<usize>, value: &'a Value) -> Option<RowValue<'a>>
    ensures { option_map row_value_datum result ≡ item_at place (datum value.now) }
{
    match (place, value) {
        (_, Value::Null) => Some(RowValue::Null),
        (Some(place), Value::Struct(values)) => match value_at(values, place) {
            Some(value) => Some(RowValue::of(value)),
            None => None,
        },
        _ => None,
    }
}

/// The same of a struct that was made, in memory of its own.
fn made_item<'a>(
    alloc: Global,
    place: Option<usize>,
    value: &Value,
) -> Result<Option<RowValue<'a>>, AllocError>
    ensures { IfOk result (λ made. option_map row_value_datum made ≡ item_at place (datum value.now)) }
{
    match lent_item(place, value) {
        Some(cell) => {
            let copied = cell.into_value(alloc)?;
            Ok(Some(RowValue::owned(copied)))
        }
        None => Ok(None),
    }
}

/// The item at the place of a struct. None where there is none.
fn item<'a>(
    alloc: Global,
    place: Option<usize>,
    cell: &RowValue<'a>,
) -> Result<Option<RowValue<'a>>, AllocError>
    ensures { IfOk result (λ made. option_map row_value_datum made ≡ item_at place (row_value_datum cell.now)) }
{
    match cell {
        RowValue::Null => Ok(Some(RowValue::Null)),
        RowValue::Borrowed(value) => Ok(lent_item(place, *value)),
        RowValue::Owned(value) => made_item(alloc, place, value),
        _ => Ok(None),
    }
}

/// The opposite truth value. None where it is no truth value.
fn opposite(seen: Seen<'_>) -> Option<RowValue<'static>>
    ensures { option_map row_value_datum result ≡ negated (seen_datum seen.entry) }
{
    match seen {
        Seen::Null => Some(RowValue::Null),
        Seen::Truth(truth) => Some(RowValue::Truth(!truth)),
        _ => None,
    }
}

/// Whether a number is at most the bound, which is the greatest number of 64 bits.
fn at_most_bound(seen: Seen<'_>) -> Option<RowValue<'static>>
    ensures { option_map row_value_datum result ≡ bound_test_of no_bound (seen_datum seen.entry) }
{
    match seen {
        Seen::Null => Some(RowValue::Null),
        Seen::Number(number) => Some(RowValue::Truth(number <= i128::from(u64::MAX))),
        _ => None,
    }
}

/// The step with a value. None is a fault.
pub(crate) fn one<'a>(
    alloc: Global,
    step: OneStep,
    cell: &RowValue<'a>,
) -> Result<Option<RowValue<'a>>, AllocError>
    ensures { IfOk result (λ made. option_map row_value_datum made ≡ one_step step (row_value_datum cell.now)) }
{
    match step {
        OneStep::Field(place) => item(alloc, place, cell),
        OneStep::Not => Ok(opposite(cell.seen())),
        OneStep::IsNull => Ok(Some(RowValue::Truth(matches!(cell.seen(), Seen::Null)))),
        OneStep::IsNotNull => Ok(Some(RowValue::Truth(!matches!(cell.seen(), Seen::Null)))),
        OneStep::AtMostBound => Ok(at_most_bound(cell.seen())),
    }
}

/// Whether both are true: false where one is false, else null where one is null.
fn both_true(left: Seen<'_>, right: Seen<'_>) -> Option<RowValue<'static>>
    ensures { option_map row_value_datum result ≡ and_of (seen_datum left.entry) (seen_datum right.entry) }
{
    match (left, right) {
        (Seen::Truth(left), Seen::Truth(right)) => Some(RowValue::Truth(left && right)),
        (Seen::Truth(false), Seen::Null) | (Seen::Null, Seen::Truth(false)) => {
            Some(RowValue::Truth(false))
        }
        (Seen::Truth(true), Seen::Null)
        | (Seen::Null, Seen::Truth(true))
        | (Seen::Null, Seen::Null) => Some(RowValue::Null),
        _ => None,
    }
}

/// Whether one is true: true where one is true, else null where one is null.
fn one_true(left: Seen<'_>, right: Seen<'_>) -> Option<RowValue<'static>>
    ensures { option_map row_value_datum result ≡ or_of (seen_datum left.entry) (seen_datum right.entry) }
{
    match (left, right) {
        (Seen::Truth(left), Seen::Truth(right)) => Some(RowValue::Truth(left || right)),
        (Seen::Truth(true), Seen::Null) | (Seen::Null, Seen::Truth(true)) => {
            Some(RowValue::Truth(true))
        }
        (Seen::Truth(false), Seen::Null)
        | (Seen::Null, Seen::Truth(false))
        | (Seen::Null, Seen::Null) => Some(RowValue::Null),
        _ => None,
    }
}

/// How two values compare: null where one is null.
fn compared(op: CompareOp, left: Seen<'_>, right: Seen<'_>) -> Option<RowValue<'static>>
    ensures { option_map row_value_datum result ≡ comparison_of op (seen_datum left.entry) (seen_datum right.entry) }
{
    let order = match (left, right) {
        (Seen::Null, _) | (_, Seen::Null) => return Some(RowValue::Null),
        (Seen::Truth(left), Seen::Truth(right)) => left.cmp(&right),
        (Seen::Number(left), Seen::Number(right)) => left.cmp(&right),
        (Seen::Text(left), Seen::Text(right)) => left.cmp(right),
        _ => return None,
    };
    Some(RowValue::Truth(op.holds(order)))
}

/// The exact result. None where there is none, or where it lies outside each kind.
fn exact_number(op: ArithOp, left: i128, right: i128) -> Option<i128>
    ensures { (kind : IntKind) → option_and_then (if_inside kind) result ≡ option_and_then (if_inside kind) (exact op left right) }
{
    match op {
        ArithOp::Add => left.checked_add(right),
        ArithOp::Sub => left.checked_sub(right),
        ArithOp::Mul => left.checked_mul(right),
        ArithOp::Div => left.checked_div(right),
    }
}

/// The number where it lies inside the kind.
fn if_inside(kind: IntKind, found: i128) -> Option<i128>
    ensures { option_map number result ≡ if_inside kind found }
{
    if kind.least() <= found && found <= kind.greatest() {
        Some(found)
    } else {
        None
    }
}

/// The result inside the kind. None where there is none.
fn exact_inside(op: ArithOp, kind: IntKind, left: i128, right: i128) -> Option<i128>
    ensures { option_map number result ≡ option_and_then (if_inside kind) (exact op left right) }
{
    if_inside(kind, exact_number(op, left, right)?)
}

/// Two numbers joined: null where one is null.
fn joined(
    op: ArithOp,
    kind: Option<IntKind>,
    left: Seen<'_>,
    right: Seen<'_>,
) -> Option<RowValue<'static>>
    ensures { option_map row_value_datum result ≡ arithmetic_of op (number_type kind) (seen_datum left.entry) (seen_datum right.entry) }
{
    match (left, right) {
        (Seen::Null, _) | (_, Seen::Null) => Some(RowValue::Null),
        (Seen::Number(left), Seen::Number(right)) => {
            Some(RowValue::Number(exact_inside(op, kind?, left, right)?))
        }
        _ => None,
    }
}

/// The step with two values. None is a fault.
pub(crate) fn two(
    step: TwoStep,
    left: &RowValue<'_>,
    right: &RowValue<'_>,
) -> Option<RowValue<'static>>
    ensures { option_map row_value_datum result ≡ two_step step (row_value_datum left.now) (row_value_datum right.now) }
{
    let (left, right) = (left.seen(), right.seen());
    match step {
        TwoStep::And => both_true(left, right),
        TwoStep::Or => one_true(left, right),
        TwoStep::Compare(op) => compared(op, left, right),
        TwoStep::Arith(op, kind) => joined(op, kind, left, right),
    }
}
