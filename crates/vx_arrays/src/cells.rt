//! A row's value, borrowed from its column.

ghost use Rattle.std.specs.Prelude.{◌≡◌, IfOk};
ghost use Rattle.vx_types.specs.ValueViews.{datum};
ghost use Rattle.vx_arrays.specs.Cells.{cell_datum, struct_at};

use crate::arrays::ChildArrays;
use std::alloc::{AllocError, Global};
use vx_types::{Text, Value};

/// The value of a row, borrowed where it is a text.
#[derive(Clone, Copy)]
pub enum Cell<'a> {
    /// No value.
    Null,
    /// A truth value.
    Bool(bool),
    /// A whole number.
    Int(i128),
    /// A text.
    Text(&'a str),
    /// The struct of a row, and no value where there is no such row.
    Struct(&'a ChildArrays, usize),
}

/// The struct of a row in memory of its own, and no value where there is no such row.
#[tactic(auto, using(crate::proofs::ArrayRows::struct_here, crate::proofs::ArrayRows::struct_past))]
fn struct_value(alloc: Global, arrays: &ChildArrays, row: usize) -> Result<Value, AllocError>
    ensures { IfOk result (λ value. datum value ≡ struct_at arrays.now.rows row) }
{
    if row < arrays.len() {
        let values = arrays.get(alloc, row)?;
        Ok(Value::Struct(values))
    } else {
        Ok(Value::Null)
    }
}

impl Cell<'_> {
    /// The value in memory of its own.
    pub fn to_value(self, alloc: Global) -> Result<Value, AllocError>
        ensures { IfOk result (λ value. datum value ≡ cell_datum self.entry) }
    {
        match self {
            Cell::Null => Ok(Value::Null),
            Cell::Bool(truth) => Ok(Value::Bool(truth)),
            Cell::Int(number) => Ok(Value::Int(number)),
            Cell::Struct(arrays, row) => struct_value(alloc, arrays, row),
            Cell::Text(text) => {
                let copied = String::from_str(alloc, text)?;
                Ok(Value::Text(Text::from_string(copied)))
            }
        }
    }
}
