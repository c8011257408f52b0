//! Which kind of dtype it is.

ghost use Rattle.std.specs.Prelude.{◌↔◌, IsTrue};
ghost use Rattle.vx_types.specs.ColumnCalls.{IsUnsigned};
ghost use Rattle.vx_types.specs.Leaf.{IsLeaf};
ghost use Rattle.vx_types.specs.Views.{data_type};

use crate::dtypes::{DType, IntKind};

/// Whether the dtype is that of a leaf, which has segments of its own.
pub fn is_leaf(dtype: &DType) -> bool
    ensures { IsTrue result ↔ IsLeaf (data_type dtype.now) }
{
    matches!(dtype, DType::Bool(_) | DType::Int(_, _) | DType::Utf8(_))
}

/// Whether the dtype is an unsigned Int.
pub fn is_unsigned(dtype: &DType) -> bool
    ensures { IsTrue result ↔ IsUnsigned (data_type dtype.now) }
{
    match dtype {
        DType::Int(IntKind::U8 | IntKind::U16 | IntKind::U32 | IntKind::U64, _) => true,
        _ => false,
    }
}
