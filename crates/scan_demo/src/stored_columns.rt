//! The values that the demo file stores: those of its columns chunk by chunk, and the names of its dictionary.

ghost use Rattle.std.specs.Prelude.{◌≡◌, ◌<◌, ◌≤◌, IfOk, map};
ghost use Rattle.vx_base.specs.Views.{data_type};
ghost use Rattle.vx_base.specs.ValueViews.{datum};
ghost use Rattle.scan_demo.specs.DemoRows.{most_demo_rows, name_at};
ghost use Rattle.scan_demo.specs.Flats.{chunk_count, chunk_flat, chunk_rows, column_type, name_flat, stored_value};

use std::alloc::{AllocError, Global};
use vx_base::{Column, DType, IntKind, Nullability, Text, Value};

/// The most rows of a chunk.
pub(crate) const CHUNK_ROWS: u64 = 8192;
/// How many names there are.
const NAMES: u64 = 16;

/// A column that lies in chunks.
#[derive(Clone, Copy, Debug, PartialEq, Eq)]
pub(crate) enum StoredColumn {
    /// The number of each row.
    Ids,
    /// The code of each row's name, which may be lacking.
    Codes,
    /// A truth value for each row.
    Flags,
}

impl StoredColumn {
    /// The dtype of the column. It takes no memory.
    pub(crate) fn dtype(self) -> DType
        ensures { data_type result ≡ column_type self }
    {
        match self {
            StoredColumn::Ids => DType::Int(IntKind::I64, Nullability::NonNullable),
            StoredColumn::Codes => DType::Int(IntKind::U8, Nullability::Nullable),
            StoredColumn::Flags => DType::Bool(Nullability::NonNullable),
        }
    }

    /// The value of a row of a file of so many rows. It takes no memory.
    fn value(self, number: u64, row: u64) -> Value
        requires few { number ≤ most_demo_rows }
        requires inside { row < number }
        ensures { datum result ≡ stored_value self number row }
    {
        match self {
            StoredColumn::Ids => Value::Int(i128::from((31 * row + number) % 1000)),
            StoredColumn::Codes => {
                if row % 7 == 3 {
                    Value::Null
                } else {
                    Value::Int(i128::from(row % NAMES))
                }
            }
            StoredColumn::Flags => Value::Bool(row % 3 == 0),
        }
    }

    /// The values of a chunk of a file of so many rows.
    fn chunk_values(self, alloc: Global, number: u64, chunk: u64) -> Result<Vec<Value>, AllocError>
        requires few { number ≤ most_demo_rows }
        requires inside { chunk < chunk_count number }
        ensures { IfOk result (λ values. map datum values.items ≡ map (stored_value self number) (chunk_rows number chunk)) }
    {
        let start = chunk * CHUNK_ROWS;
        let end = number.min(start + CHUNK_ROWS);
        let mut values = Vec::with_capacity(alloc, CHUNK_ROWS as usize)?;
        for row in start..end {
            values.push(self.value(number, row))?;
        }
        Ok(values)
    }

    /// A chunk of the column of a file of so many rows.
    #[tactic(auto, using(crate::proofs::StoredValues::stored_fit))]
    pub(crate) fn chunk(self, alloc: Global, number: u64, chunk: u64) -> Result<Column, AllocError>
        requires few { number ≤ most_demo_rows }
        requires inside { chunk < chunk_count number }
        ensures { IfOk result (λ column. column ≡ chunk_flat self number chunk) }
    {
        let values = self.chunk_values(alloc, number, chunk)?;
        Column::of_fitting(alloc, self.dtype(), values)
    }
}

/// The name of a code.
fn name(alloc: Global, code: u64) -> Result<Value, AllocError>
    ensures { IfOk result (λ value. datum value ≡ name_at code) }
{
    let text = format!(in alloc; "n{code}")?;
    Ok(Value::Text(Text::from_string(text)))
}

/// The names that the codes stand for.
#[tactic(auto, using(crate::proofs::StoredValues::names_fit))]
pub(crate) fn names(alloc: Global) -> Result<Column, AllocError>
    ensures { IfOk result (λ column. column ≡ name_flat) }
{
    let mut values = Vec::with_capacity(alloc, NAMES as usize)?;
    for code in 0..NAMES {
        values.push(name(alloc, code)?)?;
    }
    let dtype = DType::Utf8(Nullability::NonNullable);
    Column::of_fitting(alloc, dtype, values)
}
