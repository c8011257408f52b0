//! Structs from a column for each of their fields.

ghost use Rattle.std.specs.Prelude.{◌≡◌, map, None, IfOk};
ghost use Rattle.std.specs.List.{range_with_len};
ghost use Rattle.vx_base.specs.ColumnCalls.{packed_at, ArePartsOf};
ghost use Rattle.vx_base.specs.Views.{data_type};
ghost use Rattle.vx_layout.specs.Rows.{struct_members};
ghost use Rattle.vx_reads.specs.Fielded.{IsBareStruct};

use std::alloc::{AllocError, Global};
use vx_base::{Column, DType};

/// So many structs of a dtype that takes no nulls.
pub(crate) fn structs(
    alloc: Global,
    dtype: &DType,
    columns: Vec<Column>,
    rows: u64,
) -> Result<Column, AllocError>
    requires bare { IsBareStruct (data_type dtype.now) }
    requires columns { ArePartsOf (struct_members (data_type dtype.now)) columns.items rows }
    ensures dtype { IfOk result (λ column. column.dtype ≡ data_type dtype.now) }
    ensures values { IfOk result (λ column. column.values ≡ map (packed_at None columns.items) (range_with_len 0 rows)) }
{
    match dtype {
        DType::Struct(fields, _) => match fields.copy(alloc) {
            Ok(fields) => Column::pack(alloc, fields, columns, None, rows),
            Err(error) => {
                drop(columns);
                Err(error)
            }
        },
        _ => unreachable!(),
    }
}
