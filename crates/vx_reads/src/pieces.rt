//! A column in pieces: its rows lie in several columns, one behind another. Whoever wants one column joins them; whoever
//! cuts it anew takes them as they are.

ghost use Rattle.std.specs.Prelude.{◌≡◌, IfOk};
ghost use Rattle.std.specs.List.{AllByRecursion};
ghost use Rattle.vx_base.specs.Views.{data_type};
ghost use Rattle.vx_reads.specs.Computed.{values_in};

use std::alloc::{AllocError, Global};
use std::marker::Model;
use vx_base::{Column, DType};

/// A column whose rows lie in columns of its dtype, one behind another.
pub struct ColumnPieces {
    dtype: DType,
    parts: Vec<Column>,
}

impl Drop for ColumnPieces {
    fn drop(self) {
        let ColumnPieces { dtype: _, parts: _ } = self;
    }
}

impl Model for ColumnPieces {
    ghost use Rattle.std.specs.Prelude.{◌≡◌};
    ghost use Rattle.std.specs.List.{AllByRecursion};
    ghost use Rattle.vx_base.specs.Codes.{coded_column};
    ghost use Rattle.vx_base.specs.Columns.{ColumnData};
    ghost use Rattle.vx_base.specs.Views.{data_type};
    ghost use Rattle.vx_reads.specs.Computed.{values_in};

    ghost Value = { ColumnData };

    ghost coded = { coded_column };

    ghost view = { λ a. record { dtype = data_type a.dtype; values = values_in a.parts.items } };

    ghost invariant = { λ a. AllByRecursion (λ (part : ColumnData). part.dtype ≡ data_type a.dtype) a.parts.items };
}

impl ColumnPieces {
    /// The column whose rows lie in these columns. It takes no memory.
    pub(crate) fn of(dtype: DType, parts: Vec<Column>) -> ColumnPieces
        requires { AllByRecursion (λ part. part.dtype ≡ data_type dtype) parts.items }
        ensures dtype { result.dtype ≡ data_type dtype }
        ensures values { result.values ≡ values_in parts.items }
    {
        ColumnPieces { dtype, parts }
    }

    /// A column in one piece.
    pub(crate) fn whole(alloc: Global, column: Column) -> Result<ColumnPieces, AllocError>
        ensures { IfOk result (λ pieces. pieces ≡ column) }
    {
        let dtype = column.dtype().copy(alloc)?;
        let mut parts = Vec::new(alloc);
        parts.push(column)?;
        Ok(ColumnPieces { dtype, parts })
    }

    /// The same rows in one column. Those of one piece alone are given as they are, others are copied.
    pub fn into_column(self, alloc: Global) -> Result<Column, AllocError>
        ensures { IfOk result (λ column. column ≡ self) }
    {
        let ColumnPieces { dtype, parts } = self;
        let column = Column::concat(alloc, dtype, parts)?;
        Ok(column)
    }

    /// The dtype, and the columns in which the rows lie. It takes no memory.
    pub fn into_parts(self) -> (DType, Vec<Column>)
        ensures dtype { data_type result.0 ≡ self.dtype }
        ensures dtypes { AllByRecursion (λ part. part.dtype ≡ self.dtype) result.1.items }
        ensures values { values_in result.1.items ≡ self.values }
    {
        let ColumnPieces { dtype, parts } = self;
        (dtype, parts)
    }
}
