//! What one statistic tells of each zone, where it stands.

ghost use Rattle.std.specs.Prelude.{◌≡◌, map, IfOk, IfSome};
ghost use Rattle.vx_base.specs.Data.{structure};
ghost use Rattle.vx_base.specs.ValueViews.{datum, items_of};
ghost use Rattle.vx_arrays.specs.Fields.{field_at};
ghost use Rattle.vx_zones.specs.Tables.{told_at};
ghost use Rattle.vx_zones.specs.Tellings.{told_values};

use std::alloc::{AllocError, Global};
use vx_arrays::{Array, ArrayView};
use vx_base::{Column, ColumnParts, Value};

/// What one statistic tells of each zone.
#[derive(Drop)]
pub(crate) enum Told<'a> {
    /// Packed, where it stands.
    Packed(&'a Array),
    /// One value for each zone.
    Values(Vec<Value>),
    /// Nothing, of so many zones.
    Nothing(usize),
}

/// The packed rows of a field of structs, where they stand. None where the structs lie otherwise.
fn field_array(zones: &Column, place: usize) -> Option<&Array>
    ensures { IfSome result (λ array. array.now.values ≡ map (field_at place) zones.now.values) }
{
    match zones.parts() {
        ColumnParts::Packed(array) => match array.array_view() {
            ArrayView::Structs(validity, structs) => {
                if validity.all_true() {
                    structs.array(place)
                } else {
                    None
                }
            }
            _ => None,
        },
        ColumnParts::Runs(_, _) => None,
    }
}

/// The item at a place in memory of its own, and null past the last one.
fn item_of(alloc: Global, items: &[Value], place: usize) -> Result<Value, AllocError>
    ensures { IfOk result (λ found. datum found ≡ field_at place (structure (items_of items.now))) }
{
    if place < items.len() {
        let found = items[place].copy(alloc)?;
        Ok(found)
    } else {
        Ok(Value::Null)
    }
}

/// A struct's item at a place in memory of its own, and null where it has none.
fn field_of(alloc: Global, value: &Value, place: usize) -> Result<Value, AllocError>
    ensures { IfOk result (λ found. datum found ≡ field_at place (datum value.now)) }
{
    match value {
        Value::Struct(values) => item_of(alloc, values.items(), place),
        _ => Ok(Value::Null),
    }
}

/// The structs' items at a place, one by one.
fn fields_of(alloc: Global, zones: &Column, place: usize) -> Result<Vec<Value>, AllocError>
    ensures { IfOk result (λ found. map datum found.items ≡ map (field_at place) zones.now.values) }
{
    let values = zones.to_values(alloc)?;
    let mut found = Vec::with_capacity(alloc, values.len())?;
    for value in values.as_slice() {
        found.push(field_of(alloc, value, place)?)?;
    }
    Ok(found)
}

/// What the statistic at a place tells of each zone.
pub(crate) fn told_of<'a>(
    alloc: Global,
    zones: &'a Column,
    place: Option<usize>,
) -> Result<Told<'a>, AllocError>
    ensures { IfOk result (λ told. told_values told ≡ map (told_at place) zones.now.values) }
{
    match place {
        Some(place) => match field_array(zones, place) {
            Some(array) => Ok(Told::Packed(array)),
            None => {
                let values = fields_of(alloc, zones, place)?;
                Ok(Told::Values(values))
            }
        },
        None => Ok(Told::Nothing(zones.len() as usize)),
    }
}
