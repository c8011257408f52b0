//! What a part of an expression is worth at each row, and where that is held: rows that stay where they are,
//! rows that were made, or one value for all rows, which is never spread.

ghost use Rattle.std.specs.Prelude.{◌≡◌, ◌≤◌, ◌↔◌, length, take, IfOk, IfSome, IsNone, IsTrue};
ghost use Rattle.vx_types.specs.declared.dtypes.IntKind.{IntKind};
ghost use Rattle.vx_types.specs.declared.dtypes.Nullability.TheVariants.{NonNullable};
ghost use Rattle.vx_types.specs.Fits.{IsInside};
ghost use Rattle.vx_types.specs.Data.{bool_type, int_type, utf8_type};
ghost use Rattle.vx_operators.specs.Operators.{is_null};
ghost use Rattle.vx_operators.specs.Sides.{side_rows, IsSide};
ghost use Rattle.vx_operators.specs.TextSides.{text_rows, IsTextSide};
ghost use Rattle.vx_operators.specs.ColumnarValues.{scalar_datum, scalar_type, whole_in, columnar_type, columnar_rows, IsScalar, IsColumnarValue, HoldsTruths, HoldsTexts, HoldsNumbers};

use crate::integers::Integer;
use crate::sides::Side;
use crate::text_sides::TextSide;
use std::alloc::{AllocError, Global};
use vx_arrays::{Array, ArrayView};
use vx_types::IntKind;

/// One value, or null, of a leaf dtype.
#[derive(Clone, Copy)]
pub enum Scalar<'a> {
    Truth(Option<bool>),
    Number(IntKind, Option<i128>),
    Text(Option<&'a str>),
}

/// What an expression is worth at each row.
#[derive(Drop)]
pub enum ColumnarValue<'a> {
    /// Rows that stay where they are.
    Lent(&'a Array),
    /// Rows that were made.
    Made(Array),
    /// The same value at each of so many rows.
    Same(Scalar<'a>, usize),
}

impl Scalar<'_> {
    /// Whether it is null.
    fn is_null(&self) -> bool
        ensures { result ≡ is_null (scalar_datum self.now) }
    {
        match self {
            Scalar::Truth(value) => value.is_none(),
            Scalar::Number(_, value) => value.is_none(),
            Scalar::Text(value) => value.is_none(),
        }
    }

    /// The number that it is, and 0 where it is none.
    fn whole(&self) -> i128
        ensures { result ≡ whole_in self.now }
    {
        match self {
            Scalar::Number(_, Some(whole)) => *whole,
            _ => 0,
        }
    }
}

impl<'a> Scalar<'a> {
    /// The kind of a number. None where it is no number, or lies outside its kind.
    fn kind(&self) -> Option<IntKind>
        ensures kind { IfSome result (λ kind. scalar_type self.now ≡ int_type kind NonNullable) }
        ensures inside { IfSome result (λ kind. IsScalar self.now) }
        ensures none { IsNone result → (kind : IntKind) → scalar_type self.now ≡ int_type kind NonNullable → IsScalar self.now → ⊥ }
    {
        match self {
            Scalar::Number(kind, None) => Some(*kind),
            Scalar::Number(kind, Some(whole)) => {
                if kind.least() <= *whole && *whole <= kind.greatest() {
                    Some(*kind)
                } else {
                    None
                }
            }
            _ => None,
        }
    }
}

impl<'a> ColumnarValue<'a> {
    /// How many rows there are.
    pub fn len(&self) -> usize
        ensures { result ≡ length (columnar_rows self.now) }
    {
        match self {
            ColumnarValue::Lent(array) => array.len(),
            ColumnarValue::Made(array) => array.len(),
            ColumnarValue::Same(_, rows) => *rows,
        }
    }

    /// The first rows. It copies rows that stay where they are only where there are fewer.
    pub fn first(self, alloc: Global, rows: usize) -> Result<ColumnarValue<'a>, AllocError>
        requires rows { rows ≤ length (columnar_rows self) }
        ensures dtype { IfOk result (λ columnar. columnar_type columnar ≡ columnar_type self.entry) }
        ensures rows { IfOk result (λ columnar. columnar_rows columnar ≡ take rows (columnar_rows self.entry)) }
    {
        if self.len() == rows {
            return Ok(self);
        }
        match self {
            ColumnarValue::Lent(array) => {
                let first = array.slice(alloc, 0..rows)?;
                Ok(ColumnarValue::Made(first))
            }
            ColumnarValue::Made(array) => {
                let first = array.slice(alloc, 0..rows)?;
                Ok(ColumnarValue::Made(first))
            }
            ColumnarValue::Same(scalar, _) => Ok(ColumnarValue::Same(scalar, rows)),
        }
    }

    /// The kind of the numbers. None where they are none, or one that lies outside its kind.
    pub(crate) fn kind(&self) -> Option<IntKind>
        ensures kind { IfSome result (λ kind. columnar_type self.now ≡ int_type kind NonNullable) }
        ensures columnar { IfSome result (λ kind. IsColumnarValue self.now) }
        ensures none { IsNone result → (kind : IntKind) → HoldsNumbers kind self.now → ⊥ }
    {
        match self {
            ColumnarValue::Lent(array) => array_kind(array),
            ColumnarValue::Made(array) => array_kind(array),
            ColumnarValue::Same(scalar, _) => scalar.kind(),
        }
    }

    /// Whether the rows hold numbers of the kind, or none.
    pub(crate) fn is_of(&self, kind: IntKind) -> bool
        ensures { IsTrue result ↔ HoldsNumbers kind self.now }
    {
        match self.kind() {
            Some(found) => found == kind,
            None => false,
        }
    }

    /// Whether the rows hold truth values, or none.
    pub(crate) fn is_truth(&self) -> bool
        ensures { IsTrue result ↔ HoldsTruths self.now }
    {
        match self {
            ColumnarValue::Lent(array) => matches!(array.array_view(), ArrayView::Truths(_, _)),
            ColumnarValue::Made(array) => matches!(array.array_view(), ArrayView::Truths(_, _)),
            ColumnarValue::Same(scalar, _) => matches!(scalar, Scalar::Truth(_)),
        }
    }

    /// Whether the rows hold texts, or none.
    pub(crate) fn is_text(&self) -> bool
        ensures { IsTrue result ↔ HoldsTexts self.now }
    {
        match self {
            ColumnarValue::Lent(array) => matches!(array.array_view(), ArrayView::Texts(_, _)),
            ColumnarValue::Made(array) => matches!(array.array_view(), ArrayView::Texts(_, _)),
            ColumnarValue::Same(scalar, _) => matches!(scalar, Scalar::Text(_)),
        }
    }

    /// The texts, as the side of an operator. It takes no memory.
    #[tactic(auto, using(crate::proofs::SideRows::values_same, crate::proofs::SideRows::nulls_for))]
    pub(crate) fn text_side(&self) -> TextSide<'_>
        requires { columnar_type self.now ≡ utf8_type NonNullable }
        ensures side { IsTextSide result }
        ensures rows { text_rows result ≡ columnar_rows self.now }
    {
        match self {
            ColumnarValue::Lent(array) => array_texts(array),
            ColumnarValue::Made(array) => array_texts(array),
            ColumnarValue::Same(Scalar::Text(Some(text)), rows) => TextSide::One(text, *rows),
            ColumnarValue::Same(Scalar::Text(None), rows) => TextSide::Null(*rows),
            ColumnarValue::Same(_, _) => unreachable!(),
        }
    }

    /// The numbers of this kind, as the side of an operator. It takes no memory.
    pub(crate) fn side<T: Integer>(&self) -> Side<'_, T>
        requires columnar { IsColumnarValue self.now }
        requires kind { columnar_type self.now ≡ int_type T.kind NonNullable }
        ensures side { IsSide result }
        ensures rows { side_rows T.number result ≡ columnar_rows self.now }
    {
        match self {
            ColumnarValue::Lent(array) => array_side(array),
            ColumnarValue::Made(array) => array_side(array),
            ColumnarValue::Same(scalar, rows) => {
                if scalar.is_null() {
                    Side::Null(*rows)
                } else {
                    Side::One(scalar_number(scalar), *rows)
                }
            }
        }
    }
}

/// The number that a scalar is, of this kind.
fn scalar_number<T: Integer>(scalar: &Scalar<'_>) -> T
    requires { IsInside T.kind (whole_in scalar.now) }
    ensures { T.number result ≡ whole_in scalar.now }
{
    T::of_i128(scalar.whole())
}

/// The numbers of the rows of an array, of this kind.
fn array_side<T: Integer>(array: &Array) -> Side<'_, T>
    requires { array.now.dtype ≡ int_type T.kind NonNullable }
    ensures side { IsSide result }
    ensures rows { side_rows T.number result ≡ array.now.values }
{
    match array.array_view() {
        ArrayView::Numbers(validity, numbers) => Side::Rows(validity, T::of_kind(numbers)),
        _ => unreachable!(),
    }
}

/// The texts of the rows of an array.
fn array_texts(array: &Array) -> TextSide<'_>
    requires { array.now.dtype ≡ utf8_type NonNullable }
    ensures side { IsTextSide result }
    ensures rows { text_rows result ≡ array.now.values }
{
    match array.array_view() {
        ArrayView::Texts(validity, texts) => TextSide::Rows(validity, texts),
        _ => unreachable!(),
    }
}

/// The kind of the numbers of an array. None where they are none.
fn array_kind(array: &Array) -> Option<IntKind>
    ensures kind { IfSome result (λ kind. array.now.dtype ≡ int_type kind NonNullable) }
    ensures none { IsNone result → (kind : IntKind) → array.now.dtype ≡ int_type kind NonNullable → ⊥ }
{
    match array.array_view() {
        ArrayView::Numbers(_, numbers) => Some(numbers.kind()),
        _ => None,
    }
}
