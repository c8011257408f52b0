//! Rows that are picked out of a list by their places, and masks that leave none out.

ghost use Rattle.std.specs.Prelude.{◌≡◌, length, IsTrue, IfOk};
ghost use Rattle.vx_masks.specs.Masks.{true_count};
ghost use Rattle.vx_masks.specs.Rows.{taken};

use std::alloc::{AllocError, Global};
use vx_masks::Mask;

/// The rows at these places, and the blank at a place past the last row.
pub(crate) fn taken_rows<T: Copy>(
    alloc: Global,
    rows: &[T],
    places: &[usize],
    blank: T,
) -> Result<Vec<T>, AllocError>
    ensures { IfOk result (λ found. found.items ≡ taken blank rows.now places.now) }
{
    let mut found = Vec::with_capacity(alloc, places.len())?;
    for place in places {
        let value = if *place < rows.len() {
            rows[*place]
        } else {
            blank
        };
        found.push(value)?;
    }
    Ok(found)
}

/// Whether the mask leaves no row out.
pub(crate) fn leaves_none(mask: &Mask) -> bool
    ensures { IsTrue result → true_count mask.now ≡ length mask.now }
{
    mask.true_count() == mask.len()
}
