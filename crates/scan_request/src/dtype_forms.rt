//! The form of dtypes: the name of a leaf dtype, or an object of one member, with a `?` at the end of the
//! name where nulls are taken.

ghost use Rattle.std.specs.Prelude.{◌≡◌, ◌<◌, Some, None, Err, length, IfOk, OnOk, option_map};
ghost use Rattle.vx_base.specs.Views.{data_type, field_data, members_from};
ghost use Rattle.std.specs.Map.{lookup};
ghost use Rattle.std.specs.Str.{bytes_eq};
ghost use Rattle.scan_json.specs.Forms.{each_form};
ghost use Rattle.scan_json.specs.Reading.{read_items, read_members, read_value, reads, reads_items, reads_members};
ghost use Rattle.scan_request.specs.DtypeForms.{dtype_form, nested_form, nested_value, fields_form, field_form, field_from as made_field, field_items, leaf_form, kind_names, unmarked as without_mark};
ghost use Rattle.scan_json.specs.Singles.{only_one, with_single};
ghost use Rattle.scan_request.specs.DtypeViews.{nested_told};

use json::Reader;
use scan_json::{Head, Unread, joined, list_begins, list_ends, next_head, pass, pass_items, text};
use std::alloc::{AllocError, Global};
use vx_base::{DType, Element, Field, Fields, IntKind, Nullability, Text};

/// A name without the `?` at its end, and whether nulls are taken.
fn unmarked(name: &str) -> (&str, Nullability)
    ensures name { result.0.now ≡ (without_mark name.now).0 }
    ensures nullability { result.1 ≡ (without_mark name.now).1 }
{
    match name.strip_suffix("?") {
        Some(stem) => (stem, Nullability::Nullable),
        None => (name, Nullability::NonNullable),
    }
}

/// The kind of whole numbers of that name.
fn kind_named(name: &str) -> Option<IntKind>
    ensures { result ≡ lookup (bytes_eq name.now) kind_names }
{
    match name {
        "u8" => Some(IntKind::U8),
        "u16" => Some(IntKind::U16),
        "u32" => Some(IntKind::U32),
        "u64" => Some(IntKind::U64),
        "i8" => Some(IntKind::I8),
        "i16" => Some(IntKind::I16),
        "i32" => Some(IntKind::I32),
        "i64" => Some(IntKind::I64),
        _ => None,
    }
}

/// The leaf dtype of that name.
fn leaf_of(name: &str) -> Option<DType>
    ensures { option_map data_type result ≡ leaf_form name.now }
{
    let (name, nullability) = unmarked(name);
    match name {
        "bool" => Some(DType::Bool(nullability)),
        "utf8" => Some(DType::Utf8(nullability)),
        _ => Some(DType::Int(kind_named(name)?, nullability)),
    }
}

/// A dtype, which nests as deep as the value does.
#[cycle(dtypes)]
pub(crate) fn dtype_of(
    alloc: Global,
    reader: &mut Reader<'_>,
    depth: usize,
) -> Result<Option<DType>, Unread>
    ensures ok { IfOk result (λ dtype. reads dtype_form depth reader.old ≡ Some (option_map data_type dtype, reader.new)) }
    ensures shorter { OnOk result (length reader.new < length reader.old) }
    ensures refused { result ≡ Err Unread.Invalid → read_value depth reader.old ≡ None }
{
    match next_head(reader, depth)? {
        Head::String(name) => Ok(leaf_of(name)),
        Head::Object => nested_in(alloc, reader, depth - 1),
        Head::List => {
            pass_items(reader, depth - 1)?;
            Ok(None)
        }
        _ => Ok(None),
    }
}

/// What the members of an object tell of a dtype.
#[derive(Drop)]
enum Nested<'a> {
    /// There are none yet.
    Nothing,
    /// All have that name, and the last of them is that dtype, if it is one.
    One(&'a str, Option<DType>),
    /// There are two names.
    Many,
}

/// What they tell with one more member.
fn with_member<'a>(told: Nested<'a>, name: &'a str, dtype: Option<DType>) -> Nested<'a>
    ensures { nested_told result ≡ with_single name.now (option_map data_type dtype) (nested_told told.entry) }
{
    match told {
        Nested::Nothing => Nested::One(name, dtype),
        Nested::One(first, earlier) => {
            drop(earlier);
            if first == name {
                Nested::One(name, dtype)
            } else {
                drop(dtype);
                Nested::Many
            }
        }
        Nested::Many => {
            drop(dtype);
            Nested::Many
        }
    }
}

fn dtype_told(told: Nested<'_>) -> Option<DType>
    ensures { option_map data_type result ≡ only_one (nested_told told.entry) }
{
    match told {
        Nested::One(_, dtype) => dtype,
        _ => None,
    }
}

/// The dtype that an object of exactly one member is.
#[cycle(dtypes)]
fn nested_in(alloc: Global, reader: &mut Reader<'_>, depth: usize) -> Result<Option<DType>, Unread>
    ensures ok { IfOk result (λ dtype. reads_members nested_form depth reader.old ≡ Some (option_map data_type dtype, reader.new)) }
    ensures shorter { OnOk result (length reader.new < length reader.old) }
    ensures refused { result ≡ Err Unread.Invalid → read_members depth reader.old ≡ None }
{
    let mut told = Nested::Nothing;
    'members: while let Some(name) = reader.next_key()? {
        let dtype = nested_named(alloc, name, reader, depth)?;
        told = with_member(told, name, dtype);
    }
    Ok(dtype_told(told))
}

/// The struct or list of that name, with what is inside.
#[cycle(dtypes)]
fn nested_named(
    alloc: Global,
    name: &str,
    reader: &mut Reader<'_>,
    depth: usize,
) -> Result<Option<DType>, Unread>
    ensures ok { IfOk result (λ dtype. reads (nested_value name.now) depth reader.old ≡ Some (option_map data_type dtype, reader.new)) }
    ensures shorter { OnOk result (length reader.new < length reader.old) }
    ensures refused { result ≡ Err Unread.Invalid → read_value depth reader.old ≡ None }
{
    let (name, nullability) = unmarked(name);
    match name {
        "struct" => match fields_of(alloc, reader, depth)? {
            Some(fields) => Ok(Some(DType::Struct(fields, nullability))),
            None => Ok(None),
        },
        "list" => match dtype_of(alloc, reader, depth)? {
            Some(dtype) => Ok(Some(DType::List(Element::of(alloc, dtype)?, nullability))),
            None => Ok(None),
        },
        _ => {
            pass(reader, depth)?;
            Ok(None)
        }
    }
}

#[cycle(dtypes)]
fn fields_of(alloc: Global, reader: &mut Reader<'_>, depth: usize) -> Result<Option<Fields>, Unread>
    ensures ok { IfOk result (λ fields. reads (λ d. option_map members_from (fields_form d)) depth reader.old ≡ Some (fields, reader.new)) }
    ensures shorter { OnOk result (length reader.new < length reader.old) }
    ensures refused { result ≡ Err Unread.Invalid → read_value depth reader.old ≡ None }
{
    if list_begins(reader, depth)? {
        fields_in(alloc, reader, depth - 1)
    } else {
        Ok(None)
    }
}

/// The fields of a struct, in order.
#[cycle(dtypes)]
fn fields_in(alloc: Global, reader: &mut Reader<'_>, depth: usize) -> Result<Option<Fields>, Unread>
    ensures ok { IfOk result (λ fields. reads_items (λ ds. option_map members_from (each_form field_form ds)) depth reader.old ≡ Some (fields, reader.new)) }
    ensures shorter { OnOk result (length reader.new < length reader.old) }
    ensures refused { result ≡ Err Unread.Invalid → read_items depth reader.old ≡ None }
{
    let mut made = Some(Vec::new(alloc));
    'items: while !reader.take_end_array() {
        let item = field_of(alloc, reader, depth)?;
        made = joined(made, item)?;
    }
    match made {
        Some(fields) => Ok(Some(Fields::from_vec(fields))),
        None => Ok(None),
    }
}

/// A field, which is a list of its name and its dtype.
#[cycle(dtypes)]
fn field_of(alloc: Global, reader: &mut Reader<'_>, depth: usize) -> Result<Option<Field>, Unread>
    ensures ok { IfOk result (λ field. reads field_form depth reader.old ≡ Some (option_map field_data field, reader.new)) }
    ensures shorter { OnOk result (length reader.new < length reader.old) }
    ensures refused { result ≡ Err Unread.Invalid → read_value depth reader.old ≡ None }
{
    if list_begins(reader, depth)? {
        field_in(alloc, reader, depth - 1)
    } else {
        Ok(None)
    }
}

#[cycle(dtypes)]
fn field_in(alloc: Global, reader: &mut Reader<'_>, depth: usize) -> Result<Option<Field>, Unread>
    ensures ok { IfOk result (λ field. reads_items field_items depth reader.old ≡ Some (option_map field_data field, reader.new)) }
    ensures shorter { OnOk result (length reader.new < length reader.old) }
    ensures refused { result ≡ Err Unread.Invalid → read_items depth reader.old ≡ None }
{
    if reader.take_end_array() {
        return Ok(None);
    }
    let name = text(reader, depth)?;
    if reader.take_end_array() {
        return Ok(None);
    }
    let dtype = dtype_of(alloc, reader, depth)?;
    match list_ends(reader, depth) {
        Ok(true) => Ok(field_from(alloc, name, dtype)?),
        Ok(false) => {
            drop(dtype);
            Ok(None)
        }
        Err(error) => {
            drop(dtype);
            Err(Unread::from(error))
        }
    }
}

/// The field of that name and dtype, where both are there.
fn field_from(
    alloc: Global,
    name: Option<&str>,
    dtype: Option<DType>,
) -> Result<Option<Field>, AllocError>
    ensures { IfOk result (λ field. option_map field_data field ≡ made_field (option_map (λ s. s.now) name.entry) (option_map data_type dtype)) }
{
    match (name, dtype) {
        (Some(name), Some(dtype)) => {
            let name = Text::from_string(String::from_str(alloc, name)?);
            Ok(Some(Field { name, dtype }))
        }
        _ => Ok(None),
    }
}
