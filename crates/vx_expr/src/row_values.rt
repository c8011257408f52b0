//! Row values: the value of an expression at one row, borrowed where it stands in a column or a literal.

ghost use Rattle.std.specs.Prelude.{◌≡◌, IfOk};
ghost use Rattle.vx_base.specs.ValueViews.{datum};
ghost use Rattle.vx_expr.specs.Steps.{row_value_datum, seen_datum};
ghost use Rattle.vx_operators.specs.ColumnarValues.{scalar_datum};
ghost use Rattle.vx_arrays.specs.Cells.{cell_datum as row_datum};

use std::alloc::{AllocError, Global};
use vx_arrays::Cell as Row;
use vx_base::{Text, Value};
use vx_operators::Scalar;

/// The value of an expression at one row.
pub(crate) enum RowValue<'a> {
    Null,
    Truth(bool),
    Number(i128),
    /// A text of a column.
    Text(&'a str),
    /// A value of a literal.
    Borrowed(&'a Value),
    /// A value that was made.
    Owned(Value),
}

impl<'a> Drop for RowValue<'a> {
    fn drop(self) {
        match self {
            RowValue::Null => {}
            RowValue::Truth(_) => {}
            RowValue::Number(_) => {}
            RowValue::Text(_) => {}
            RowValue::Borrowed(_) => {}
            RowValue::Owned(_) => {}
        }
    }
}

/// The same value as it is looked at, wherever it stands.
#[derive(Clone, Copy)]
pub(crate) enum Seen<'a> {
    Null,
    Truth(bool),
    Number(i128),
    Text(&'a str),
    Struct(&'a [Value]),
}

impl<'a> Seen<'a> {
    /// A value as it is looked at.
    fn of(value: &'a Value) -> Seen<'a>
        ensures { seen_datum result ≡ datum value.now }
    {
        match value {
            Value::Null => Seen::Null,
            Value::Bool(truth) => Seen::Truth(*truth),
            Value::Int(number) => Seen::Number(*number),
            Value::Text(text) => Seen::Text(text.as_str()),
            Value::Struct(values) => Seen::Struct(values.items()),
        }
    }
}

impl<'a> RowValue<'a> {
    /// The row value of a value that stays where it is.
    pub(crate) fn of(value: &'a Value) -> RowValue<'a>
        ensures { row_value_datum result ≡ datum value.now }
    {
        match value {
            Value::Null => RowValue::Null,
            Value::Bool(truth) => RowValue::Truth(*truth),
            Value::Int(number) => RowValue::Number(*number),
            _ => RowValue::Borrowed(value),
        }
    }

    /// The row value of a row of a column: a text stays where it is.
    pub(crate) fn of_row(alloc: Global, row: Row<'a>) -> Result<RowValue<'a>, AllocError>
        ensures { IfOk result (λ cell. row_value_datum cell ≡ row_datum row.entry) }
    {
        match row {
            Row::Null => Ok(RowValue::Null),
            Row::Bool(truth) => Ok(RowValue::Truth(truth)),
            Row::Int(number) => Ok(RowValue::Number(number)),
            Row::Text(text) => Ok(RowValue::Text(text)),
            Row::Struct(parts, place) => {
                let value = Row::Struct(parts, place).to_value(alloc)?;
                Ok(RowValue::Owned(value))
            }
        }
    }

    /// The row value of a value that is handed over.
    pub(crate) fn owned(value: Value) -> RowValue<'a>
        ensures { row_value_datum result ≡ datum value }
    {
        match value {
            Value::Null => RowValue::Null,
            Value::Bool(truth) => RowValue::Truth(truth),
            Value::Int(number) => RowValue::Number(number),
            _ => RowValue::Owned(value),
        }
    }

    /// The row value of a single value.
    pub(crate) fn scalar(scalar: &Scalar<'a>) -> RowValue<'a>
        ensures { row_value_datum result ≡ scalar_datum scalar.now }
    {
        match scalar {
            Scalar::Truth(None) => RowValue::Null,
            Scalar::Truth(Some(truth)) => RowValue::Truth(*truth),
            Scalar::Number(_, None) => RowValue::Null,
            Scalar::Number(_, Some(number)) => RowValue::Number(*number),
            Scalar::Text(None) => RowValue::Null,
            Scalar::Text(Some(text)) => RowValue::Text(text),
        }
    }

    /// The row value as it is looked at.
    pub(crate) fn seen(&self) -> Seen<'_>
        ensures { seen_datum result ≡ row_value_datum self.now }
    {
        match self {
            RowValue::Null => Seen::Null,
            RowValue::Truth(truth) => Seen::Truth(*truth),
            RowValue::Number(number) => Seen::Number(*number),
            RowValue::Text(text) => Seen::Text(text),
            RowValue::Borrowed(value) => Seen::of(value),
            RowValue::Owned(value) => Seen::of(value),
        }
    }

    /// The value, in memory of its own.
    pub(crate) fn into_value(self, alloc: Global) -> Result<Value, AllocError>
        ensures { IfOk result (λ value. datum value ≡ row_value_datum self.entry) }
    {
        match self {
            RowValue::Null => Ok(Value::Null),
            RowValue::Truth(truth) => Ok(Value::Bool(truth)),
            RowValue::Number(number) => Ok(Value::Int(number)),
            RowValue::Text(text) => {
                let copied = String::from_str(alloc, text)?;
                Ok(Value::Text(Text::from_string(copied)))
            }
            RowValue::Borrowed(value) => value.copy(alloc),
            RowValue::Owned(value) => Ok(value),
        }
    }
}
