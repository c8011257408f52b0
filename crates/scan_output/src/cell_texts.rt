//! The text of a row's value where it stands in its column, structs field by field out of their arrays.

ghost use Rattle.std.specs.Prelude.{◌≡◌, ◌<◌, ◌++◌, length, map, OnOk};
ghost use Rattle.vx_arrays.specs.Fields.{field_at};
ghost use Rattle.scan_output.specs.FieldLeads.{lead_data, leads_from, leads_in};
ghost use Rattle.scan_output.specs.RowText.{fields_text, line, row_text};
ghost use Rattle.vx_base.specs.Cells.{cell_datum, struct_at};
ghost use Rattle.vx_base.specs.Views.{data_type};

use crate::field_leads::Lead;
use crate::json_strings::append_string;
use crate::row_texts::{append_item, append_number, append_truth};
use std::alloc::{AllocError, Global};
use vx_arrays::ChildArrays;
use vx_base::{Cell, DType, Fields};

/// Appends the field at a place of a row's struct.
#[cycle(cells)]
#[tactic(auto, using(vx_base::proofs::StructItems::part_inside, vx_base::proofs::StructItems::part_value, vx_base::proofs::StructItems::items_value))]
fn append_field(
    alloc: Global,
    dtype: &DType,
    leads: &[Lead],
    parts: &ChildArrays,
    place: usize,
    row: usize,
    out: &mut Vec<u8>,
) -> Result<(), AllocError>
    requires row { row < length parts.now.rows }
    requires leads { map lead_data leads.now ≡ leads_in (data_type dtype.now) }
    ensures { OnOk result (out.new.items ≡ out.old.items ++ row_text (data_type dtype.now) (field_at place (struct_at parts.now.rows row))) }
{
    match parts.array(place) {
        Some(array) => append_cell(alloc, dtype, leads, array.cell(row), out),
        // No array lies at the place, so the items are taken out into memory of their own.
        None => {
            let values = parts.get(alloc, row)?;
            append_item(dtype, values.items(), place, out)
        }
    }
}

/// Appends the fields of a row's struct, in order.
#[cycle(cells)]
fn append_fields(
    alloc: Global,
    fields: &Fields,
    leads: &[Lead],
    parts: &ChildArrays,
    row: usize,
    out: &mut Vec<u8>,
) -> Result<(), AllocError>
    requires row { row < length parts.now.rows }
    requires leads { map lead_data leads.now ≡ leads_from 0 fields.now }
    ensures { OnOk result (out.new.items ≡ out.old.items ++ fields_text 0 fields.now (struct_at parts.now.rows row)) }
{
    let members = fields.items();
    let mut rest = leads;
    for (place, field) in members.iter().enumerate() {
        let [lead, behind @ ..] = rest else {
            unreachable!()
        };
        let (inside, others) = behind.split_at(lead.inside);
        out.extend_from_slice(&lead.text)?;
        append_field(alloc, &field.dtype, inside, parts, place, row, out)?;
        rest = others;
    }
    Ok(())
}

/// Appends the struct of a row, which is null past the last row.
#[cycle(cells)]
#[tactic(auto, using(crate::proofs::CellTexts::past_text))]
fn append_struct(
    alloc: Global,
    dtype: &DType,
    leads: &[Lead],
    parts: &ChildArrays,
    row: usize,
    out: &mut Vec<u8>,
) -> Result<(), AllocError>
    requires { map lead_data leads.now ≡ leads_in (data_type dtype.now) }
    ensures { OnOk result (out.new.items ≡ out.old.items ++ row_text (data_type dtype.now) (struct_at parts.now.rows row)) }
{
    if parts.len() <= row {
        return out.extend_from_slice(b"null");
    }
    match dtype {
        DType::Struct(fields, _) => {
            out.push(b'{')?;
            append_fields(alloc, fields, leads, parts, row, out)?;
            out.push(b'}')?;
            Ok(())
        }
        _ => Ok(()),
    }
}

/// Appends the text of a value. The leads are those of the dtype.
#[cycle(cells)]
fn append_cell(
    alloc: Global,
    dtype: &DType,
    leads: &[Lead],
    cell: Cell<'_>,
    out: &mut Vec<u8>,
) -> Result<(), AllocError>
    requires { map lead_data leads.now ≡ leads_in (data_type dtype.now) }
    ensures { OnOk result (out.new.items ≡ out.old.items ++ row_text (data_type dtype.now) (cell_datum cell.entry)) }
{
    match cell {
        Cell::Null => out.extend_from_slice(b"null"),
        Cell::Bool(truth) => append_truth(out, truth),
        Cell::Int(number) => append_number(out, number),
        Cell::Text(text) => append_string(out, text.as_bytes()),
        Cell::Struct(parts, row) => append_struct(alloc, dtype, leads, parts, row, out),
    }
}

/// Appends the line of a value: its text and a newline. The leads are those of the dtype.
pub(crate) fn append_cell_line(
    alloc: Global,
    dtype: &DType,
    leads: &[Lead],
    cell: Cell<'_>,
    out: &mut Vec<u8>,
) -> Result<(), AllocError>
    requires { map lead_data leads.now ≡ leads_in (data_type dtype.now) }
    ensures { OnOk result (out.new.items ≡ out.old.items ++ line (data_type dtype.now) (cell_datum cell.entry)) }
{
    append_cell(alloc, dtype, leads, cell, out)?;
    out.push(b'\n')?;
    Ok(())
}
