//! What rows hold, made of a list of values.

ghost use Rattle.std.specs.Prelude.{◌≡◌, [], length, map, IfOk};
ghost use Rattle.std.specs.List.{AllByRecursion};
ghost use Rattle.vx_types.specs.ColumnCalls.{made_nullable};
ghost use Rattle.vx_types.specs.Data.{struct_type, structure};
ghost use Rattle.vx_types.specs.declared.dtypes.Nullability.TheVariants.{Nullable};
ghost use Rattle.vx_types.specs.Fits.{Fits, IsInside};
ghost use Rattle.vx_types.specs.Slots.{is_value, truth_in, number_in, text_in};
ghost use Rattle.vx_types.specs.Views.{data_type};
ghost use Rattle.vx_types.specs.ValueViews.{datum, items_of};
ghost use Rattle.vx_arrays.specs.Fields.{field_at, columns_for};
ghost use Rattle.vx_arrays.specs.Numbers.{kind_in, numbers_in};
ghost use Rattle.vx_arrays.specs.ArrayRows.{struct_rows};
ghost use Rattle.vx_arrays.specs.Buffers.{bare};

use crate::arrays::{Array, ChildArrays, SharedArray};
use crate::kinds::Kind;
use crate::numbers::Numbers;
use crate::primitives::Primitive;
use crate::texts::Texts;
use std::alloc::{AllocError, Global};
use vx_masks::Mask;
use vx_types::{DType, Fields, IntKind, Value};

/// The rows that have a value.
fn validity_of(alloc: Global, values: &[Value]) -> Result<Mask, AllocError>
    ensures { IfOk result (λ mask. mask ≡ map is_value (map datum values.now)) }
{
    let mut bits = Vec::with_capacity(alloc, values.len())?;
    for value in values {
        bits.push(!matches!(value, Value::Null))?;
    }
    Mask::of(alloc, bits)
}

/// The truth values, false where there is none.
fn truths_of(alloc: Global, values: &[Value]) -> Result<Mask, AllocError>
    ensures { IfOk result (λ mask. mask ≡ map truth_in (map datum values.now)) }
{
    let mut bits = Vec::with_capacity(alloc, values.len())?;
    for value in values {
        bits.push(matches!(value, Value::Bool(true)))?;
    }
    Mask::of(alloc, bits)
}

/// The number of a row, 0 where it has none.
fn number_of(value: &Value) -> i128
    ensures { result ≡ number_in (datum value.now) }
{
    match value {
        Value::Int(number) => *number,
        _ => 0,
    }
}

/// The number of a row as one of its kind.
fn kind_number_of<T: Kind>(value: &Value) -> T
    requires { IsInside T.kind (number_in (datum value.now)) }
    ensures { T.number result ≡ number_in (datum value.now) }
{
    T::of_i128(number_of(value))
}

/// The numbers of a kind, 0 where there is none.
fn kind_numbers_of<T: Kind>(alloc: Global, values: &[Value]) -> Result<Primitive<T>, AllocError>
    requires { AllByRecursion (IsInside T.kind) (map number_in (map datum values.now)) }
    ensures { IfOk result (λ numbers. numbers ≡ map number_in (map datum values.now)) }
{
    let mut numbers = Vec::with_capacity(alloc, values.len())?;
    for value in values {
        numbers.push(kind_number_of::<T>(value))?;
    }
    Ok(Primitive::of(numbers))
}

/// The numbers, 0 where there is none.
fn numbers_of(alloc: Global, kind: IntKind, values: &[Value]) -> Result<Numbers, AllocError>
    requires { AllByRecursion (IsInside kind) (map number_in (map datum values.now)) }
    ensures kind { IfOk result (λ numbers. kind_in numbers ≡ kind) }
    ensures numbers { IfOk result (λ numbers. numbers_in numbers ≡ map number_in (map datum values.now)) }
{
    match kind {
        IntKind::U8 => kind_numbers_of(alloc, values).map(Numbers::U8),
        IntKind::U16 => kind_numbers_of(alloc, values).map(Numbers::U16),
        IntKind::U32 => kind_numbers_of(alloc, values).map(Numbers::U32),
        IntKind::U64 => kind_numbers_of(alloc, values).map(Numbers::U64),
        IntKind::I8 => kind_numbers_of(alloc, values).map(Numbers::I8),
        IntKind::I16 => kind_numbers_of(alloc, values).map(Numbers::I16),
        IntKind::I32 => kind_numbers_of(alloc, values).map(Numbers::I32),
        IntKind::I64 => kind_numbers_of(alloc, values).map(Numbers::I64),
    }
}

/// The text of a row, empty where it has none.
fn text_of(value: &Value) -> &str
    ensures { result.now ≡ text_in (datum value.now) }
{
    match value {
        Value::Text(text) => text.as_str(),
        _ => "",
    }
}

/// The texts, empty where there is none.
fn texts_of(alloc: Global, values: &[Value]) -> Result<Texts, AllocError>
    ensures { IfOk result (λ texts. texts ≡ map text_in (map datum values.now)) }
{
    let mut texts = Texts::new(alloc);
    for value in values {
        texts = texts.pushed(text_of(value))?;
    }
    Ok(texts)
}

/// The item at a place in memory of its own, and null past the last one.
fn item_of(alloc: Global, items: &[Value], place: usize) -> Result<Value, AllocError>
    ensures { IfOk result (λ found. datum found ≡ field_at place (structure (items_of items.now))) }
{
    if place < items.len() {
        items[place].copy(alloc)
    } else {
        Ok(Value::Null)
    }
}

/// A struct's item at a place in memory of its own, and null where it has none.
fn field_of(alloc: Global, value: &Value, place: usize) -> Result<Value, AllocError>
    ensures { IfOk result (λ found. datum found ≡ field_at place (datum value.now)) }
{
    match value {
        Value::Struct(values) => item_of(alloc, values.items(), place),
        _ => Ok(Value::Null),
    }
}

/// The structs' items at a place.
fn fields_of(alloc: Global, values: &[Value], place: usize) -> Result<Vec<Value>, AllocError>
    ensures { IfOk result (λ found. map datum found.items ≡ map (field_at place) (map datum values.now)) }
{
    let mut found = Vec::with_capacity(alloc, values.len())?;
    for value in values {
        found.push(field_of(alloc, value, place)?)?;
    }
    Ok(found)
}

impl Array {
    /// The rows of these values, each of which is null or one that the dtype takes.
    #[cycle(of_values)]
    pub fn of_values(alloc: Global, dtype: &DType, values: &[Value]) -> Result<Array, AllocError>
        requires { AllByRecursion (Fits (made_nullable (data_type dtype.now))) (map datum values.now) }
        ensures dtype { IfOk result (λ array. array.dtype ≡ bare (data_type dtype.now)) }
        ensures values { IfOk result (λ array. array.values ≡ map datum values.now) }
    {
        let validity = validity_of(alloc, values)?;
        match dtype {
            DType::Bool(_) => {
                let truths = truths_of(alloc, values)?;
                Ok(Array::of_truths(validity, truths))
            }
            DType::Int(kind, _) => {
                let numbers = numbers_of(alloc, *kind, values)?;
                Ok(Array::of_numbers(validity, numbers))
            }
            DType::Utf8(_) => {
                let texts = texts_of(alloc, values)?;
                Ok(Array::of_texts(validity, texts))
            }
            DType::Struct(fields, _) => {
                let arrays = ChildArrays::of_values(alloc, fields, values)?;
                Ok(Array::of_structs(validity, arrays))
            }
            DType::List(_, _) => {
                let nulls = Array::of_nulls(alloc, values.len() as u64)?;
                Ok(nulls)
            }
        }
    }
}

impl ChildArrays {
    /// The arrays of these structs, nulls where a row has no struct.
    #[cycle(of_values)]
    fn of_values(
        alloc: Global,
        fields: &Fields,
        values: &[Value],
    ) -> Result<ChildArrays, AllocError>
        requires { AllByRecursion (Fits (struct_type fields.now Nullable)) (map datum values.now) }
        ensures { IfOk result (λ arrays. arrays ≡ struct_rows (length values.now) (columns_for 0 fields.now (map datum values.now))) }
    {
        let members = fields.items();
        let mut arrays = Vec::with_capacity(alloc, members.len())?;
        for (place, field) in members.iter().enumerate() {
            let column = fields_of(alloc, values, place)?;
            let array = Array::of_values(alloc, &field.dtype, column.as_slice())?;
            let shared = SharedArray::new(alloc, array)?;
            arrays.push(shared)?;
        }
        Ok(ChildArrays::of(values.len(), arrays))
    }
}

impl Array {
    /// No rows, with room for so many.
    #[cycle(with_room)]
    pub fn with_room(alloc: Global, dtype: &DType, rows: usize) -> Result<Array, AllocError>
        ensures dtype { IfOk result (λ array. array.dtype ≡ bare (data_type dtype.now)) }
        ensures values { IfOk result (λ array. array.values ≡ []) }
    {
        let validity = Mask::with_room(alloc, rows as u64)?;
        match dtype {
            DType::Bool(_) => {
                let truths = Mask::with_room(alloc, rows as u64)?;
                Ok(Array::of_truths(validity, truths))
            }
            DType::Int(kind, _) => {
                let numbers = Numbers::with_room(alloc, *kind, rows)?;
                Ok(Array::of_numbers(validity, numbers))
            }
            DType::Utf8(_) => {
                let texts = Texts::with_room(alloc, rows)?;
                Ok(Array::of_texts(validity, texts))
            }
            DType::Struct(fields, _) => {
                let arrays = ChildArrays::with_room(alloc, fields, rows)?;
                Ok(Array::of_structs(validity, arrays))
            }
            DType::List(_, _) => {
                let nulls = Array::of_nulls(alloc, 0)?;
                Ok(nulls)
            }
        }
    }
}

impl ChildArrays {
    /// No structs, with room for so many.
    #[cycle(with_room)]
    fn with_room(alloc: Global, fields: &Fields, rows: usize) -> Result<ChildArrays, AllocError>
        ensures { IfOk result (λ arrays. arrays ≡ struct_rows 0 (columns_for 0 fields.now [])) }
    {
        let members = fields.items();
        let mut arrays = Vec::with_capacity(alloc, members.len())?;
        for field in members {
            let array = Array::with_room(alloc, &field.dtype, rows)?;
            let shared = SharedArray::new(alloc, array)?;
            arrays.push(shared)?;
        }
        Ok(ChildArrays::of(0, arrays))
    }
}
