//! Truth values: which rows have one, and which of them hold true. Three-valued logic is made of whole
//! masks. A row without a truth value holds false.

ghost use Rattle.std.specs.Prelude.{◌≡◌, List, Some, false, length, map, IfOk};
ghost use Rattle.vx_types.specs.Data.{Datum, truth};
ghost use Rattle.vx_types.specs.Slots.{where_valid, is_value};
ghost use Rattle.vx_masks.specs.Masks.{both, either, without};
ghost use Rattle.vx_masks.specs.Rows.{NullsHold};
ghost use Rattle.vx_operators.specs.Operators.{and_of, comparison_of, or_of, negated, null_test_of, value_test_of};
ghost use Rattle.vx_operators.specs.Kernels.{compares_truth, strict_of};
ghost use Rattle.vx_operators.specs.declared.operators.CompareOp.TheVariants.{Ne};
ghost use Rattle.vx_operators.specs.Rows.{along, front};

use crate::operators::CompareOp;
use std::alloc::{AllocError, Global};
use vx_masks::Mask;

/// Truth values of the rows of a column.
#[derive(Drop)]
pub(crate) struct Truths {
    /// The rows that have one.
    pub(crate) validity: Mask,
    /// The rows that hold true.
    pub(crate) values: Mask,
}

/// The rows at which one is false.
#[tactic(auto, using(crate::proofs::LogicRows::without_len))]
fn false_rows(alloc: Global, left: &Truths, right: &Truths) -> Result<Mask, AllocError>
    requires left { length left.now.validity ≡ length left.now.values }
    requires right { length right.now.validity ≡ length right.now.values }
    requires rows { length left.now.validity ≡ length right.now.validity }
    ensures { IfOk result (λ mask. mask ≡ either (without left.now.validity left.now.values) (without right.now.validity right.now.values)) }
{
    let left_false = left.validity.without(alloc, &left.values)?;
    let right_false = right.validity.without(alloc, &right.values)?;
    left_false.either(alloc, &right_false)
}

/// The rows at which it is known whether both are true: both are known, or one is false.
#[tactic(auto, using(crate::proofs::NumberRows::both_len, crate::proofs::LogicRows::either_len, crate::proofs::LogicRows::without_len))]
fn and_known(alloc: Global, left: &Truths, right: &Truths) -> Result<Mask, AllocError>
    requires left { length left.now.validity ≡ length left.now.values }
    requires right { length right.now.validity ≡ length right.now.values }
    requires rows { length left.now.validity ≡ length right.now.validity }
    ensures { IfOk result (λ mask. mask ≡ either (both left.now.validity right.now.validity) (either (without left.now.validity left.now.values) (without right.now.validity right.now.values))) }
{
    let known = left.validity.and(alloc, &right.validity)?;
    let one_false = false_rows(alloc, left, right)?;
    known.either(alloc, &one_false)
}

/// Whether both are true: false where one is false, else null where one is null.
#[tactic(auto, using(crate::proofs::NumberRows::both_len, crate::proofs::LogicRows::either_len, crate::proofs::LogicRows::without_len, crate::proofs::LogicRows::and_rows_again, crate::proofs::LogicRows::and_held))]
pub(crate) fn and(alloc: Global, left: &Truths, right: &Truths) -> Result<Truths, AllocError>
    requires left { length left.now.validity ≡ length left.now.values }
    requires right { length right.now.validity ≡ length right.now.values }
    requires rows { length left.now.validity ≡ length right.now.validity }
    requires left_held { NullsHold false left.now.validity left.now.values }
    requires right_held { NullsHold false right.now.validity right.now.values }
    ensures rows { IfOk result (λ truths. length truths.validity ≡ length truths.values) }
    ensures values { IfOk result (λ truths. map Some (where_valid truths.validity (map truth truths.values)) ≡ along and_of (where_valid left.now.validity (map truth left.now.values)) (where_valid right.now.validity (map truth right.now.values))) }
    ensures held { IfOk result (λ truths. NullsHold false truths.validity truths.values) }
{
    let validity = and_known(alloc, left, right)?;
    let values = left.values.and(alloc, &right.values)?;
    Ok(Truths { validity, values })
}

/// Whether one is true: true where one is true, else null where one is null.
#[tactic(auto, using(crate::proofs::NumberRows::both_len, crate::proofs::LogicRows::either_len, crate::proofs::LogicRows::or_rows_again, crate::proofs::LogicRows::or_held))]
pub(crate) fn or(alloc: Global, left: &Truths, right: &Truths) -> Result<Truths, AllocError>
    requires left { length left.now.validity ≡ length left.now.values }
    requires right { length right.now.validity ≡ length right.now.values }
    requires rows { length left.now.validity ≡ length right.now.validity }
    requires left_held { NullsHold false left.now.validity left.now.values }
    requires right_held { NullsHold false right.now.validity right.now.values }
    ensures rows { IfOk result (λ truths. length truths.validity ≡ length truths.values) }
    ensures values { IfOk result (λ truths. map Some (where_valid truths.validity (map truth truths.values)) ≡ along or_of (where_valid left.now.validity (map truth left.now.values)) (where_valid right.now.validity (map truth right.now.values))) }
    ensures held { IfOk result (λ truths. NullsHold false truths.validity truths.values) }
{
    let known = left.validity.and(alloc, &right.validity)?;
    let values = left.values.either(alloc, &right.values)?;
    let validity = known.either(alloc, &values)?;
    Ok(Truths { validity, values })
}

/// The rows at which both differ.
#[tactic(auto, using(crate::proofs::LogicRows::without_len, crate::proofs::TestedRows::other_bits))]
fn unlike(alloc: Global, left: &Mask, right: &Mask) -> Result<Mask, AllocError>
    requires { length right.now ≡ length left.now }
    ensures { IfOk result (λ bits. bits ≡ along (compares_truth Ne) left.now right.now) }
{
    let less = right.without(alloc, left)?;
    let greater = left.without(alloc, right)?;
    less.either(alloc, &greater)
}

/// How both compare by the operator or its opposite, whichever no value meets beside itself: false stands before true.
#[tactic(auto, using(crate::proofs::TestedRows::less_bits, crate::proofs::TestedRows::greater_bits))]
fn strict_bits(alloc: Global, op: CompareOp, left: &Mask, right: &Mask) -> Result<Mask, AllocError>
    requires { length right.now ≡ length left.now }
    ensures { IfOk result (λ bits. bits ≡ along (compares_truth (strict_of op)) left.now right.now) }
{
    match op {
        CompareOp::Eq | CompareOp::Ne => unlike(alloc, left, right),
        CompareOp::Lt | CompareOp::Ge => right.without(alloc, left),
        CompareOp::Gt | CompareOp::Le => left.without(alloc, right),
    }
}

/// How both compare in the rows that are known, and false in all others.
#[tactic(auto, using(crate::proofs::NumberRows::along_len, crate::proofs::TestedRows::alike_bits, crate::proofs::TestedRows::no_greater_bits, crate::proofs::TestedRows::no_less_bits))]
fn compared_bits(
    alloc: Global,
    op: CompareOp,
    known: &Mask,
    left: &Mask,
    right: &Mask,
) -> Result<Mask, AllocError>
    requires known { length known.now ≡ length left.now }
    requires rows { length right.now ≡ length left.now }
    ensures { IfOk result (λ bits. bits ≡ both known.now (along (compares_truth op) left.now right.now)) }
{
    let bits = strict_bits(alloc, op, left, right)?;
    match op {
        CompareOp::Ne | CompareOp::Lt | CompareOp::Gt => known.and(alloc, &bits),
        CompareOp::Eq | CompareOp::Le | CompareOp::Ge => known.without(alloc, &bits),
    }
}

/// How both compare: null where one is null.
#[tactic(auto, using(crate::proofs::NumberRows::both_len, crate::proofs::NumberRows::along_len, crate::proofs::TestedRows::masked_held))]
pub(crate) fn compare(
    alloc: Global,
    op: CompareOp,
    left: &Truths,
    right: &Truths,
) -> Result<Truths, AllocError>
    requires left { length left.now.validity ≡ length left.now.values }
    requires right { length right.now.validity ≡ length right.now.values }
    requires rows { length right.now.validity ≡ length left.now.validity }
    ensures rows { IfOk result (λ truths. length truths.validity ≡ length truths.values) }
    ensures values { IfOk result (λ truths. where_valid truths.validity (map truth truths.values) ≡ front (along (comparison_of op) (where_valid left.now.validity (map truth left.now.values)) (where_valid right.now.validity (map truth right.now.values)))) }
    ensures held { IfOk result (λ truths. NullsHold false truths.validity truths.values) }
{
    let validity = left.validity.and(alloc, &right.validity)?;
    let values = compared_bits(alloc, op, &validity, &left.values, &right.values)?;
    Ok(Truths { validity, values })
}

/// The opposite truth values.
#[tactic(auto, using(crate::proofs::LogicRows::not_rows_again, crate::proofs::LogicRows::not_held, crate::proofs::LogicRows::without_len))]
pub(crate) fn not(alloc: Global, truths: &Truths) -> Result<Truths, AllocError>
    requires { length truths.now.validity ≡ length truths.now.values }
    ensures rows { IfOk result (λ made. length made.validity ≡ length made.values) }
    ensures values { IfOk result (λ made. map Some (where_valid made.validity (map truth made.values)) ≡ map negated (where_valid truths.now.validity (map truth truths.now.values))) }
    ensures held { IfOk result (λ made. NullsHold false made.validity made.values) }
{
    let values = truths.validity.without(alloc, &truths.values)?;
    let validity = truths.validity.copy(alloc)?;
    Ok(Truths { validity, values })
}

/// Which rows have no value.
#[tactic(auto, using(crate::proofs::LogicRows::null_rows, crate::proofs::LogicRows::full_len, crate::proofs::LogicRows::full_held, crate::proofs::LogicRows::without_len))]
pub(crate) fn is_null(alloc: Global, validity: &Mask) -> Result<Truths, AllocError>
    ensures rows { IfOk result (λ made. length made.validity ≡ length made.values) }
    ensures held { IfOk result (λ made. NullsHold false made.validity made.values) }
    ensures values { IfOk result (λ made. (values : List Datum) → map is_value values ≡ validity.now → map Some (where_valid made.validity (map truth made.values)) ≡ map null_test_of values) }
{
    let all = Mask::new_true(alloc, validity.len())?;
    let values = all.without(alloc, validity)?;
    Ok(Truths {
        validity: all,
        values,
    })
}

/// Which rows have a value.
#[tactic(auto, using(crate::proofs::LogicRows::value_rows, crate::proofs::LogicRows::full_len, crate::proofs::LogicRows::full_held))]
pub(crate) fn is_not_null(alloc: Global, validity: &Mask) -> Result<Truths, AllocError>
    ensures rows { IfOk result (λ made. length made.validity ≡ length made.values) }
    ensures held { IfOk result (λ made. NullsHold false made.validity made.values) }
    ensures values { IfOk result (λ made. (values : List Datum) → map is_value values ≡ validity.now → map Some (where_valid made.validity (map truth made.values)) ≡ map value_test_of values) }
{
    let all = Mask::new_true(alloc, validity.len())?;
    let values = validity.copy(alloc)?;
    Ok(Truths {
        validity: all,
        values,
    })
}
