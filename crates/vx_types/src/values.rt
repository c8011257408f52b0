//! Values: what stands in the rows of a column, and which values a dtype takes.

ghost use Rattle.std.specs.Prelude.{◌≡◌, ◌↔◌, IsTrue, IfOk};
ghost use Rattle.vx_types.specs.Fits.{Fits, EachFits};
ghost use Rattle.vx_types.specs.Views.{data_type};
ghost use Rattle.vx_types.specs.ValueViews.{datum, items_of};

use crate::dtypes::{DType, Fields};
use crate::texts::Text;
use std::alloc::{AllocError, Global};
use std::marker::Model;

/// The value of a row.
#[cycle(values)]
#[derive(Debug, Drop)]
pub enum Value {
    /// No value.
    Null,
    /// A truth value.
    Bool(bool),
    /// A whole number.
    Int(i128),
    /// A text.
    Text(Text),
    /// One value for each field of a struct, in order.
    Struct(Values),
}

/// The values of a struct's fields, in order, seen as its items.
#[cycle(values)]
#[derive(Debug, Drop)]
pub struct Values {
    values: Vec<Value>,
}

impl Model for Values {
    ghost use Rattle.vx_types.specs.Data.{Items};
    ghost use Rattle.vx_types.specs.Codes.{coded_items};
    ghost use Rattle.vx_types.specs.Sizes.{items_size};

    ghost Value = { Items };

    ghost coded = { coded_items };

    ghost use Rattle.vx_types.specs.ValueViews.{items_of};

    ghost view = { λ a. items_of a.values.items };

    ghost size = { items_size };

    ghost use Rattle.std.proofs.Common.{arith};
    ghost use Rattle.vx_types.specs.ValueFalls.{most_le_items_size};

    ghost size_decreases = { λ a h. omega (arith, most_le_items_size a.values.items) };
}

impl Values {
    /// Values in the order of the list. It takes no memory.
    pub fn from_vec(items: Vec<Value>) -> Values
        ensures { result ≡ items_of items.items }
    {
        Values { values: items }
    }

    /// The values, in order. It takes no memory.
    pub fn items(&self) -> &[Value]
        ensures { items_of result.now ≡ self.now }
    {
        self.values.as_slice()
    }

    /// Whether the values are the same, in the same order.
    #[cycle(same)]
    pub fn same(&self, other: &Values) -> bool
        ensures { IsTrue result ↔ (self.now ≡ other.now) }
    {
        let ones = self.items();
        let others = other.items();
        if ones.len() != others.len() {
            return false;
        }
        for (place, one) in ones.iter().enumerate() {
            let two = &others[place];
            if !one.same(two) {
                return false;
            }
        }
        true
    }

    /// The same values in memory of their own.
    #[cycle(copy)]
    pub fn copy(&self, alloc: Global) -> Result<Values, AllocError>
        ensures { IfOk result (λ copied. copied ≡ self.now) }
    {
        let items = self.items();
        let mut values = Vec::with_capacity(alloc, items.len())?;
        for value in items {
            let copied = value.copy(alloc)?;
            values.push(copied)?;
        }
        Ok(Values { values })
    }
}

impl Value {
    /// Whether the values are the same.
    #[cycle(same)]
    pub fn same(&self, other: &Value) -> bool
        ensures { IsTrue result ↔ (datum self.now ≡ datum other.now) }
    {
        match (self, other) {
            (Value::Null, Value::Null) => true,
            (Value::Bool(one), Value::Bool(two)) => one == two,
            (Value::Int(one), Value::Int(two)) => one == two,
            (Value::Text(one), Value::Text(two)) => one.as_str() == two.as_str(),
            (Value::Struct(one), Value::Struct(two)) => one.same(two),
            _ => false,
        }
    }

    /// The same value in memory of its own.
    #[cycle(copy)]
    pub fn copy(&self, alloc: Global) -> Result<Value, AllocError>
        ensures { IfOk result (λ copied. datum copied ≡ datum self.now) }
    {
        match self {
            Value::Null => Ok(Value::Null),
            Value::Bool(truth) => Ok(Value::Bool(*truth)),
            Value::Int(number) => Ok(Value::Int(*number)),
            Value::Text(text) => {
                let copied = text.copy(alloc)?;
                Ok(Value::Text(copied))
            }
            Value::Struct(values) => {
                let copied = values.copy(alloc)?;
                Ok(Value::Struct(copied))
            }
        }
    }
}

/// Whether the dtype takes the value: a null where the dtype is nullable, a number inside its kind, a
/// text, and a struct with one value for each field that the field's dtype takes. A list dtype takes
/// nulls alone.
#[cycle(fits)]
pub fn fits(dtype: &DType, value: &Value) -> bool
    ensures { IsTrue result ↔ Fits (data_type dtype.now) (datum value.now) }
{
    match (dtype, value) {
        (_, Value::Null) => dtype.is_nullable(),
        (DType::Bool(_), Value::Bool(_)) => true,
        (DType::Int(kind, _), Value::Int(number)) => {
            kind.least() <= *number && *number <= kind.greatest()
        }
        (DType::Utf8(_), Value::Text(text)) => {
            // The characters of a text are well-formed.
            let _characters = text.as_str();
            true
        }
        (DType::Struct(fields, _), Value::Struct(values)) => each_fits(fields, values),
        _ => false,
    }
}

/// Whether there is one value for each field, which the field's dtype takes.
#[cycle(fits)]
fn each_fits(fields: &Fields, values: &Values) -> bool
    ensures { IsTrue result ↔ EachFits fields.now values.now }
{
    let members = fields.items();
    let items = values.items();
    if members.len() != items.len() {
        return false;
    }
    for (place, field) in members.iter().enumerate() {
        let value = &items[place];
        if !fits(&field.dtype, value) {
            return false;
        }
    }
    true
}
