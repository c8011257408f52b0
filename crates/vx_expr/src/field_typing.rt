//! Typing of fields: the dtype of the field of a struct that an expression gets.

ghost use Rattle.std.specs.Prelude.{◌≡◌, ℕ, List, Some, IfOk, IfErr, option_map};
ghost use Rattle.std.specs.List.{position};
ghost use Rattle.std.specs.Str.{bytes_eq};
ghost use Rattle.vx_base.specs.ColumnCalls.{nullable_where};
ghost use Rattle.vx_base.specs.Views.{data_type, fields_in};
ghost use Rattle.vx_expr.specs.Finds.{place_found};
ghost use Rattle.vx_expr.specs.Typing.{typed_data, GivesField};
ghost use Rattle.vx_expr.specs.Types.{type_in, type_of};

use crate::binding::BindError;
use crate::expressions::{Expr, Operand};
use crate::indexed_roots::IndexedRoot;
use crate::typing::Typed;
use std::alloc::Global;
use vx_base::{DType, Fields, Nullability, Text};

/// The dtype of the field of that name, nullable also where the struct is. `place` is the number of the
/// expression that gets it.
pub(crate) fn field_typed<'a>(
    alloc: Global,
    operand: &Typed<'a>,
    found: Option<usize>,
    name: &Text,
    place: u64,
) -> Result<Typed<'a>, BindError>
    requires { found ≡ place_found (Some (typed_data operand.now)) name.now }
    ensures { GivesField (typed_data operand.now) name.now place result }
{
    match operand {
        Typed::Borrowed(dtype) => field_of_lent(alloc, *dtype, found, name, place),
        Typed::Owned(dtype) => field_of_made(alloc, dtype, found, name, place),
    }
}

/// The same of a dtype that stays where it is.
fn field_of_lent<'a>(
    alloc: Global,
    dtype: &'a DType,
    found: Option<usize>,
    name: &Text,
    place: u64,
) -> Result<Typed<'a>, BindError>
    requires { found ≡ place_found (Some (data_type dtype.now)) name.now }
    ensures { GivesField (data_type dtype.now) name.now place result }
{
    match dtype {
        DType::Struct(fields, nullability) => match field_at(fields, found) {
            Some(field) => nullable_field(alloc, field, *nullability),
            None => Err(BindError::NoField(name.copy(alloc)?)),
        },
        _ => Err(BindError::TypeMismatch(place)),
    }
}

/// The same of a dtype that was made.
fn field_of_made<'a>(
    alloc: Global,
    dtype: &DType,
    found: Option<usize>,
    name: &Text,
    place: u64,
) -> Result<Typed<'a>, BindError>
    requires { found ≡ place_found (Some (data_type dtype.now)) name.now }
    ensures { GivesField (data_type dtype.now) name.now place result }
{
    match dtype {
        DType::Struct(fields, nullability) => match field_at(fields, found) {
            Some(field) => owned_field(alloc, field, *nullability),
            None => Err(BindError::NoField(name.copy(alloc)?)),
        },
        _ => Err(BindError::TypeMismatch(place)),
    }
}

/// The dtype of the field at the place where a name was found.
fn field_at(fields: &Fields, place: Option<usize>) -> Option<&DType>
    ensures { (name : List ℕ) → place ≡ position (λ field. bytes_eq field.name name) (fields_in fields.now) → option_map (λ found. data_type found.now) result ≡ type_in fields.now name }
{
    match place {
        Some(place) => match fields.get(place) {
            Some(field) => Some(&field.dtype),
            None => None,
        },
        None => None,
    }
}

/// The place of the field of that name in the dtype of an operand. None where there is none. The fields of
/// the root are not searched.
pub(crate) fn place_named(
    root: &IndexedRoot<'_>,
    operand: &Operand,
    dtype: &DType,
    name: &Text,
) -> Option<usize>
    requires { type_of root.now operand.now ≡ Some (data_type dtype.now) }
    ensures { result ≡ place_found (Some (data_type dtype.now)) name.now }
{
    match operand.expr() {
        Expr::Root => root.find(name),
        _ => match dtype {
            DType::Struct(fields, _) => fields.find(name.as_str()),
            _ => None,
        },
    }
}

/// The dtype of a field of a struct that stays where it is.
fn nullable_field<'a>(
    alloc: Global,
    dtype: &'a DType,
    nullability: Nullability,
) -> Result<Typed<'a>, BindError>
    ensures ok { IfOk result (λ typed. typed_data typed ≡ nullable_where nullability (data_type dtype.now)) }
    ensures err { IfErr result (λ error. error ≡ BindError.Memory) }
{
    match nullability {
        Nullability::NonNullable => Ok(Typed::Borrowed(dtype)),
        Nullability::Nullable => match dtype.as_nullable(alloc) {
            Ok(dtype) => Ok(Typed::Owned(dtype)),
            Err(_) => Err(BindError::Memory),
        },
    }
}

/// The dtype of a field of a struct that was made.
fn owned_field<'a>(
    alloc: Global,
    dtype: &DType,
    nullability: Nullability,
) -> Result<Typed<'a>, BindError>
    ensures ok { IfOk result (λ typed. typed_data typed ≡ nullable_where nullability (data_type dtype.now)) }
    ensures err { IfErr result (λ error. error ≡ BindError.Memory) }
{
    let copied = match nullability {
        Nullability::NonNullable => dtype.copy(alloc),
        Nullability::Nullable => dtype.as_nullable(alloc),
    };
    match copied {
        Ok(dtype) => Ok(Typed::Owned(dtype)),
        Err(_) => Err(BindError::Memory),
    }
}
