//! The text of a value: JSON without spaces.

ghost use Rattle.std.specs.Prelude.{◌≡◌, ◌++◌, if◌then◌else◌, codes, OnOk, OnErr};
ghost use Rattle.std.specs.Fmt.{signed_decimal};
ghost use Rattle.vx_arrays.specs.Fields.{field_at};
ghost use Rattle.scan_output.specs.RowText.{fields_text, lead, row_text as text_of_row};
ghost use Rattle.vx_base.specs.Data.{structure};
ghost use Rattle.vx_base.specs.Views.{data_type};
ghost use Rattle.vx_base.specs.ValueViews.{datum, items_of};

use crate::json_strings::append_string;
use itoa::Buffer;
use std::alloc::{AllocError, Global};
use vx_base::{DType, Fields, Value, Values};

/// Appends a truth value.
pub(crate) fn append_truth(out: &mut Vec<u8>, truth: bool) -> Result<(), AllocError>
    ensures { OnOk result (out.new.items ≡ out.old.items ++ (if truth then codes "true" else codes "false")) }
{
    if truth {
        out.extend_from_slice(b"true")
    } else {
        out.extend_from_slice(b"false")
    }
}

/// Appends a number in decimal.
pub(crate) fn append_number(out: &mut Vec<u8>, number: i128) -> Result<(), AllocError>
    ensures { OnOk result (out.new.items ≡ out.old.items ++ signed_decimal number) }
{
    let mut digits = Buffer::new();
    out.extend_from_slice(digits.format(number).as_bytes())
}

/// Appends what stands before the value of the field at a place.
pub(crate) fn append_lead(out: &mut Vec<u8>, place: usize, name: &str) -> Result<(), AllocError>
    ensures { OnOk result (out.new.items ≡ out.old.items ++ lead place name.now) }
{
    if place != 0 {
        out.push(b',')?;
    }
    append_string(out, name.as_bytes())?;
    out.push(b':')?;
    Ok(())
}

/// Appends the item at a place of a struct, which is null past the last item.
#[cycle(texts)]
#[tactic(auto, using(vx_arrays::proofs::ValueRows::field_here, vx_arrays::proofs::ValueRows::field_past))]
pub(crate) fn append_item(
    dtype: &DType,
    items: &[Value],
    place: usize,
    out: &mut Vec<u8>,
) -> Result<(), AllocError>
    ensures { OnOk result (out.new.items ≡ out.old.items ++ text_of_row (data_type dtype.now) (field_at place (structure (items_of items.now)))) }
{
    if place < items.len() {
        append_value(dtype, &items[place], out)
    } else {
        out.extend_from_slice(b"null")
    }
}

/// Appends the fields of a struct, in order.
#[cycle(texts)]
#[tactic(auto, using(crate::proofs::RowTexts::field_more, crate::proofs::RowTexts::fields_done))]
fn append_fields(fields: &Fields, values: &Values, out: &mut Vec<u8>) -> Result<(), AllocError>
    ensures { OnOk result (out.new.items ≡ out.old.items ++ fields_text 0 fields.now (structure values.now)) }
{
    let members = fields.items();
    let items = values.items();
    for (place, field) in members.iter().enumerate() {
        append_lead(out, place, field.name.as_str())?;
        append_item(&field.dtype, items, place, out)?;
    }
    Ok(())
}

/// Appends the text of a value.
#[cycle(texts)]
pub(crate) fn append_value(
    dtype: &DType,
    value: &Value,
    out: &mut Vec<u8>,
) -> Result<(), AllocError>
    ensures { OnOk result (out.new.items ≡ out.old.items ++ text_of_row (data_type dtype.now) (datum value.now)) }
{
    match (dtype, value) {
        (_, Value::Null) => out.extend_from_slice(b"null"),
        (_, Value::Bool(truth)) => append_truth(out, *truth),
        (_, Value::Int(number)) => append_number(out, *number),
        (_, Value::Text(text)) => append_string(out, text.as_str().as_bytes()),
        (DType::Struct(fields, _), Value::Struct(values)) => {
            out.push(b'{')?;
            append_fields(fields, values, out)?;
            out.push(b'}')?;
            Ok(())
        }
        (_, Value::Struct(_)) => Ok(()),
    }
}

/// Appends the text of a value that the dtype takes: all of it, or nothing where memory runs out.
pub fn row_text(
    alloc: Global,
    dtype: &DType,
    value: &Value,
    out: &mut Vec<u8>,
) -> Result<(), AllocError>
    ensures ok { OnOk result (out.new.items ≡ out.old.items ++ text_of_row (data_type dtype.now) (datum value.now)) }
    ensures err { OnErr result (out.new.items ≡ out.old.items) }
{
    let mut text = Vec::new(alloc);
    append_value(dtype, value, &mut text)?;
    out.extend_from_slice(&text)
}
