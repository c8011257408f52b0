//! Which rows of a side of an operator have a value: those that a mask says, all, or none.

ghost use Rattle.std.specs.Prelude.{◌≡◌, length, IfOk};
ghost use Rattle.vx_masks.specs.Masks.{both};
ghost use Rattle.vx_operators.specs.Sides.{valid_rows};

use std::alloc::{AllocError, Global};
use vx_masks::Mask;

/// Which rows have a value.
#[derive(Clone, Copy)]
pub(crate) enum Valid<'a> {
    /// Those that a mask says.
    Where(&'a Mask),
    /// Each of so many.
    Everywhere(usize),
    /// None of so many.
    Nowhere(usize),
}

impl Valid<'_> {
    /// The rows that have a value.
    fn mask(&self, alloc: Global) -> Result<Mask, AllocError>
        ensures { IfOk result (λ mask. mask ≡ valid_rows self.now) }
    {
        match self {
            Valid::Where(valid) => valid.copy(alloc),
            Valid::Everywhere(rows) => Mask::new_true(alloc, *rows as u64),
            Valid::Nowhere(rows) => Mask::new_false(alloc, *rows as u64),
        }
    }

    /// The rows at which both have a value.
    pub(crate) fn both(&self, alloc: Global, other: &Valid<'_>) -> Result<Mask, AllocError>
        requires { length (valid_rows other.now) ≡ length (valid_rows self.now) }
        ensures { IfOk result (λ mask. mask ≡ both (valid_rows self.now) (valid_rows other.now)) }
    {
        match (self, other) {
            (Valid::Where(valid), Valid::Where(other_valid)) => valid.and(alloc, other_valid),
            (Valid::Where(valid), Valid::Everywhere(_)) => valid.copy(alloc),
            (Valid::Where(_), Valid::Nowhere(rows)) => Mask::new_false(alloc, *rows as u64),
            (Valid::Everywhere(_), _) => other.mask(alloc),
            (Valid::Nowhere(rows), _) => Mask::new_false(alloc, *rows as u64),
        }
    }
}
