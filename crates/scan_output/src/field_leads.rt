//! What stands before the fields of structs: names as JSON strings, written once for all rows.

ghost use Rattle.std.specs.Prelude.{◌≡◌, map, IfOk};
ghost use Rattle.scan_output.specs.FieldLeads.{lead_data, leads_from, leads_in};
ghost use Rattle.scan_output.specs.RowText.{lead};
ghost use Rattle.vx_base.specs.Views.{data_type};

use crate::row_texts::append_lead;
use std::alloc::{AllocError, Global};
use vx_base::{DType, Fields};

/// What stands before a field's value. The leads of fields inside that value come right behind it.
#[derive(Drop)]
pub(crate) struct Lead {
    pub(crate) text: Vec<u8>,
    /// How many leads there are of fields inside the value.
    pub(crate) inside: usize,
}

/// The lead of the field at a place.
fn lead_of(alloc: Global, place: usize, name: &str, inside: usize) -> Result<Lead, AllocError>
    ensures { IfOk result (λ made. lead_data made ≡ record { text = lead place name.now; inside = inside }) }
{
    let mut text = Vec::new(alloc);
    append_lead(&mut text, place, name)?;
    Ok(Lead { text, inside })
}

/// The leads of fields, in order.
#[cycle(leads)]
#[tactic(auto, using(crate::proofs::Leads::leads_more, crate::proofs::Leads::leads_done))]
fn leads_of_fields(alloc: Global, fields: &Fields) -> Result<Vec<Lead>, AllocError>
    ensures { IfOk result (λ made. map lead_data made.items ≡ leads_from 0 fields.now) }
{
    let members = fields.items();
    let mut leads = Vec::new(alloc);
    for (place, field) in members.iter().enumerate() {
        let mut inner = leads_of(alloc, &field.dtype)?;
        let lead = lead_of(alloc, place, field.name.as_str(), inner.len())?;
        leads.push(lead)?;
        leads.append(&mut inner)?;
    }
    Ok(leads)
}

/// The leads of all fields in a dtype, those of a struct's field behind the field's own.
#[cycle(leads)]
pub(crate) fn leads_of(alloc: Global, dtype: &DType) -> Result<Vec<Lead>, AllocError>
    ensures { IfOk result (λ made. map lead_data made.items ≡ leads_in (data_type dtype.now)) }
{
    match dtype {
        DType::Struct(fields, _) => leads_of_fields(alloc, fields),
        DType::Bool(_) | DType::Int(_, _) | DType::Utf8(_) | DType::List(_, _) => {
            Ok(Vec::new(alloc))
        }
    }
}
