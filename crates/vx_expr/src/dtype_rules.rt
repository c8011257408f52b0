//! The rules of dtypes: the dtype of each form, by the dtypes of its parts.

ghost use Rattle.std.specs.Prelude.{◌≡◌, option_map};
ghost use Rattle.vx_base.specs.Views.{data_type};
ghost use Rattle.vx_base.specs.ValueViews.{datum};
ghost use Rattle.vx_expr.specs.Typing.{typed_data};
ghost use Rattle.vx_expr.specs.Types.{either_nullable, literal_type, negation_type, logic_type, comparison_type, arithmetic_type, bound_test_type, row_number_type};

use crate::typing::Typed;
use vx_base::{DType, IntKind, Nullability, Value, fits};

/// Nullable where one of the two is.
fn either(left: Nullability, right: Nullability) -> Nullability
    ensures { result ≡ either_nullable left right }
{
    match left {
        Nullability::NonNullable => right,
        Nullability::Nullable => Nullability::Nullable,
    }
}

/// The dtype of a literal: a leaf dtype that the value fits.
pub(crate) fn literal_typed<'a>(value: &Value, dtype: &'a DType) -> Option<Typed<'a>>
    ensures { option_map typed_data result ≡ literal_type (datum value.now) (data_type dtype.now) }
{
    match dtype {
        DType::Struct(_, _) | DType::List(_, _) => None,
        leaf => {
            if fits(leaf, value) {
                Some(Typed::Borrowed(leaf))
            } else {
                None
            }
        }
    }
}

/// The dtype of row numbers: non-nullable `u64`.
pub(crate) fn row_idx_dtype() -> DType
    ensures { data_type result ≡ row_number_type }
{
    DType::Int(IntKind::U64, Nullability::NonNullable)
}

/// The dtype of the opposite of a truth value.
pub(crate) fn negation_typed(dtype: &DType) -> Option<DType>
    ensures { option_map data_type result ≡ negation_type (data_type dtype.now) }
{
    match dtype {
        DType::Bool(nullability) => Some(DType::Bool(*nullability)),
        _ => None,
    }
}

/// The dtype of two truth values joined.
pub(crate) fn logic_typed(left: &DType, right: &DType) -> Option<DType>
    ensures { option_map data_type result ≡ logic_type (data_type left.now) (data_type right.now) }
{
    match (left, right) {
        (DType::Bool(left), DType::Bool(right)) => Some(DType::Bool(either(*left, *right))),
        _ => None,
    }
}

/// The dtype of a comparison: of two truth values, two numbers of one kind, or two texts.
pub(crate) fn comparison_typed(left: &DType, right: &DType) -> Option<DType>
    ensures { option_map data_type result ≡ comparison_type (data_type left.now) (data_type right.now) }
{
    match (left, right) {
        (DType::Bool(left), DType::Bool(right)) | (DType::Utf8(left), DType::Utf8(right)) => {
            Some(DType::Bool(either(*left, *right)))
        }
        (DType::Int(kind, left), DType::Int(other, right)) if kind == other => {
            Some(DType::Bool(either(*left, *right)))
        }
        _ => None,
    }
}

/// The dtype of two numbers of one kind joined.
pub(crate) fn arithmetic_typed(left: &DType, right: &DType) -> Option<DType>
    ensures { option_map data_type result ≡ arithmetic_type (data_type left.now) (data_type right.now) }
{
    match (left, right) {
        (DType::Int(kind, left), DType::Int(other, right)) if kind == other => {
            Some(DType::Int(*kind, either(*left, *right)))
        }
        _ => None,
    }
}

/// The dtype of the test whether a number is at most the bound.
pub(crate) fn bound_test_typed(dtype: &DType) -> Option<DType>
    ensures { option_map data_type result ≡ bound_test_type (data_type dtype.now) }
{
    match dtype {
        DType::Int(IntKind::U64, nullability) => Some(DType::Bool(*nullability)),
        _ => None,
    }
}
