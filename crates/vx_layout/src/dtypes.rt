//! What the rules ask of a dtype by itself.

ghost use Rattle.std.specs.Prelude.{◌≤◌, ◌↔◌, IsTrue};
ghost use Rattle.vx_base.specs.Views.{data_type, members_of};
ghost use Rattle.vx_rows.specs.TypeForms.{IsOffsets};
ghost use Rattle.vx_layout.specs.Depths.{dtype_depth, members_depth};

use vx_base::{DType, Field, Nullability};

/// Whether the dtype has at most so many levels. It looks no deeper than that.
#[cycle(within)]
pub fn is_within(dtype: &DType, levels: u32) -> bool
    ensures { IsTrue result ↔ (dtype_depth (data_type dtype.now) ≤ levels) }
{
    if levels == 0 {
        return false;
    }
    match dtype {
        DType::Bool(_) | DType::Int(_, _) | DType::Utf8(_) => true,
        DType::Struct(fields, _) => are_within(fields.items(), levels - 1),
        DType::List(element, _) => is_within(element.dtype(), levels - 1),
    }
}

/// Whether each field's dtype has at most so many levels.
#[cycle(within)]
fn are_within(fields: &[Field], levels: u32) -> bool
    ensures { IsTrue result ↔ (members_depth (members_of fields.now) ≤ levels) }
{
    for field in fields {
        if !is_within(&field.dtype, levels) {
            return false;
        }
    }
    true
}

/// Whether the dtype is a non-nullable Int.
pub fn is_offsets(dtype: &DType) -> bool
    ensures { IsTrue result ↔ IsOffsets (data_type dtype.now) }
{
    matches!(dtype, DType::Int(_, Nullability::NonNullable))
}
