//! The sides of an operator: the numbers of a column where they stand, or one number for all rows, which is
//! never spread.

ghost use Rattle.std.specs.Prelude.{◌≡◌, ◌<◌, ⊤, length, map, slice_get, Some, IfOk};
ghost use Rattle.vx_masks.specs.Masks.{both};
ghost use Rattle.vx_operators.specs.Sides.{side_valid, side_numbers, valid_rows, IsSide};

use crate::integers::Integer;
use crate::valid_rows::Valid;
use std::alloc::{AllocError, Global};
use vx_masks::Mask;

/// Numbers of one kind, one for each row or none.
pub enum Side<'a, T: Integer> {
    /// The rows of a column: which of them have a number, and what all of them hold.
    Rows(&'a Mask, &'a [T]),
    /// The same number at each of so many rows.
    One(T, usize),
    /// No number at each of so many rows.
    Null(usize),
}

impl<'a, T: Integer> Clone for Side<'a, T> {
    ghost is_clone = { λ side copied. copied ≡ side };

    ghost is_infallible = { λ _. ⊤ };

    fn clone(&self) -> Result<Side<'a, T>, AllocError> {
        match self {
            Side::Rows(valid, numbers) => Ok(Side::Rows(valid, numbers)),
            Side::One(number, rows) => Ok(Side::One(*number, *rows)),
            Side::Null(rows) => Ok(Side::Null(*rows)),
        }
    }
}

impl<'a, T: Integer> Copy for Side<'a, T> {}

/// The number at a row.
#[inline(always)]
fn row_of<T: Integer>(numbers: &[T], row: usize) -> T
    requires { row < length (map T.number numbers.now) }
    ensures { slice_get (map T.number numbers.now) row ≡ Some (T.number result) }
{
    let _count = numbers.len();
    numbers[row]
}

impl<'a, T: Integer> Side<'a, T> {
    /// How many rows there are.
    #[inline(always)]
    pub(crate) fn len(&self) -> usize
        requires { IsSide self.now }
        ensures valid { result ≡ length (side_valid self.now) }
        ensures numbers { result ≡ length (side_numbers T.number self.now) }
    {
        match self {
            Side::Rows(_, numbers) => numbers.len(),
            Side::One(_, rows) => *rows,
            Side::Null(rows) => *rows,
        }
    }

    /// What the row holds.
    #[inline(always)]
    pub(crate) fn at(&self, row: usize) -> T
        requires { row < length (side_numbers T.number self.now) }
        ensures { slice_get (side_numbers T.number self.now) row ≡ Some (T.number result) }
    {
        match self {
            Side::Rows(_, numbers) => row_of(numbers, row),
            Side::One(number, _) => *number,
            Side::Null(_) => T::zero(),
        }
    }

    /// Which rows have a number. It takes no memory.
    fn valid(&self) -> Valid<'_>
        ensures { valid_rows result ≡ side_valid self.now }
    {
        match self {
            Side::Rows(valid, _) => Valid::Where(valid),
            Side::One(_, rows) => Valid::Everywhere(*rows),
            Side::Null(rows) => Valid::Nowhere(*rows),
        }
    }

    /// The rows at which both have a number.
    pub(crate) fn both_valid(&self, alloc: Global, other: &Side<'_, T>) -> Result<Mask, AllocError>
        requires { length (side_valid other.now) ≡ length (side_valid self.now) }
        ensures { IfOk result (λ mask. mask ≡ both (side_valid self.now) (side_valid other.now)) }
    {
        self.valid().both(alloc, &other.valid())
    }
}
