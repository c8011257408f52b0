//! Encoding: the bytes of a segment that spell the values of a column.

ghost use Rattle.std.specs.Prelude.{◌≡◌, ◌++◌, length, OnOk, IfOk};
ghost use Rattle.std.specs.List.{AllByRecursion};
ghost use Rattle.vx_types.specs.Fits.{nullability_of};
ghost use Rattle.vx_types.specs.Leaf.{IsLeaf};
ghost use Rattle.vx_types.specs.Slots.{IsShort};
ghost use Rattle.vx_segments.specs.Segment.{Spells, plain_bytes, validity_bytes};

use std::alloc::{AllocError, Global};
use vx_columns::Column;

/// Writes the validity, where the dtype takes nulls.
fn push_validity(alloc: Global, bytes: &mut Vec<u8>, column: &Column) -> Result<(), AllocError>
    ensures { OnOk result (bytes.new.items ≡ bytes.old.items ++ validity_bytes (nullability_of column.now.dtype) column.now.values) }
{
    if column.dtype().is_nullable() {
        let valid = column.validity(alloc)?;
        valid.append_bytes(bytes)
    } else {
        Ok(())
    }
}

/// Writes the plain spelling of the values of a leaf dtype.
pub(crate) fn append_plain(
    alloc: Global,
    bytes: &mut Vec<u8>,
    column: &Column,
) -> Result<(), AllocError>
    requires leaf { IsLeaf column.now.dtype }
    requires short { AllByRecursion IsShort column.now.values }
    ensures { OnOk result (bytes.new.items ≡ bytes.old.items ++ plain_bytes column.now.dtype column.now.values) }
{
    push_validity(alloc, bytes, column)?;
    column.write_slots(alloc, bytes)
}

/// The bytes of a segment that spell the values of a column of a leaf dtype. They are one list of
/// values' alone, which `decode` reads again.
pub fn encode(alloc: Global, column: &Column) -> Result<Vec<u8>, AllocError>
    requires leaf { IsLeaf column.now.dtype }
    requires short { AllByRecursion IsShort column.now.values }
    ensures { IfOk result (λ bytes. Spells column.now.dtype (length column.now.values) bytes.items column.now.values) }
{
    let _fit = column.len();
    let size = column.size();
    let mut bytes = Vec::with_capacity(alloc, size)?;
    append_plain(alloc, &mut bytes, column)?;
    Ok(bytes)
}
