//! The sides of an operator on texts: the texts of a column where they stand, or one text for all rows, which
//! is never spread.

ghost use Rattle.std.specs.Prelude.{◌≡◌, ◌<◌, length, slice_get, Some, IfOk};
ghost use Rattle.vx_masks.specs.Masks.{both};
ghost use Rattle.vx_operators.specs.Sides.{valid_rows};
ghost use Rattle.vx_operators.specs.TextSides.{text_valid, side_texts, IsTextSide};

use crate::valid_rows::Valid;
use std::alloc::{AllocError, Global};
use vx_arrays::Texts;
use vx_masks::Mask;

/// Texts, one for each row or none.
#[derive(Clone, Copy)]
pub(crate) enum TextSide<'a> {
    /// The rows of a column: which of them have a text, and what all of them hold.
    Rows(&'a Mask, &'a Texts),
    /// The same text at each of so many rows.
    One(&'a str, usize),
    /// No text at each of so many rows.
    Null(usize),
}

impl<'a> TextSide<'a> {
    /// How many rows there are.
    #[inline(always)]
    pub(crate) fn len(&self) -> usize
        requires { IsTextSide self.now }
        ensures valid { result ≡ length (text_valid self.now) }
        ensures texts { result ≡ length (side_texts self.now) }
    {
        match self {
            TextSide::Rows(_, texts) => texts.len(),
            TextSide::One(_, rows) => *rows,
            TextSide::Null(rows) => *rows,
        }
    }

    /// What the row holds. It takes no memory.
    #[inline(always)]
    pub(crate) fn at(&self, row: usize) -> &str
        requires { row < length (side_texts self.now) }
        ensures { slice_get (side_texts self.now) row ≡ Some result.now }
    {
        match self {
            TextSide::Rows(_, texts) => texts.text(row),
            TextSide::One(text, _) => text,
            TextSide::Null(_) => "",
        }
    }

    /// Which rows have a text. It takes no memory.
    fn valid(&self) -> Valid<'_>
        ensures { valid_rows result ≡ text_valid self.now }
    {
        match self {
            TextSide::Rows(valid, _) => Valid::Where(valid),
            TextSide::One(_, rows) => Valid::Everywhere(*rows),
            TextSide::Null(rows) => Valid::Nowhere(*rows),
        }
    }

    /// The rows at which both have a text.
    pub(crate) fn both_valid(&self, alloc: Global, other: &TextSide<'_>) -> Result<Mask, AllocError>
        requires { length (text_valid other.now) ≡ length (text_valid self.now) }
        ensures { IfOk result (λ mask. mask ≡ both (text_valid self.now) (text_valid other.now)) }
    {
        self.valid().both(alloc, &other.valid())
    }
}
