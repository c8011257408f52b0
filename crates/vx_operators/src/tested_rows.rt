//! The array that a test of all rows makes: how it came out where the row is valid, and null elsewhere.

ghost use Rattle.std.specs.Prelude.{◌≡◌, length, map, IfOk};
ghost use Rattle.vx_types.specs.declared.dtypes.Nullability.TheVariants.{NonNullable};
ghost use Rattle.vx_types.specs.Data.{bool_type, truth};
ghost use Rattle.vx_types.specs.Slots.{where_valid};
ghost use Rattle.vx_masks.specs.Masks.{both};

use std::alloc::{AllocError, Global};
use vx_arrays::Array;
use vx_masks::Mask;

/// How a test came out at each row, where the row is valid.
#[tactic(auto, using(crate::proofs::NumberRows::both_len, crate::proofs::TestedRows::masked_held))]
pub(crate) fn tested_array(
    alloc: Global,
    validity: Mask,
    tests: Vec<bool>,
) -> Result<Array, AllocError>
    requires { length tests.items ≡ length validity }
    ensures dtype { IfOk result (λ array. array.dtype ≡ bool_type NonNullable) }
    ensures values { IfOk result (λ array. array.values ≡ where_valid validity (map truth (both validity tests.items))) }
{
    let tests = Mask::of(alloc, tests)?;
    let values = validity.and(alloc, &tests)?;
    Ok(Array::of_truths(validity, values))
}
