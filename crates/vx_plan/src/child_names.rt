//! The names of children.

ghost use Rattle.std.specs.Prelude.{◌≡◌, ◌<◌, ◌++◌, codes, decimal, length, slice_get, IfOk};
ghost use Rattle.vx_base.specs.Views.{data_type, fields_in};
ghost use Rattle.vx_plan.specs.ChildNames.{child_name, field_name, list_name, take_name, zoned_name};
ghost use Rattle.vx_plan.specs.Refs.{number_of};
ghost use Rattle.vx_plan.specs.Rules.{members_of_type, node_at};

use crate::children::PlanRef;
use crate::nodes::PlanKind;
use crate::tables::PlanTable;
use std::alloc::{AllocError, Global};
use vx_base::{DType, Text};

/// The text of these letters.
fn text_of(alloc: Global, letters: &str) -> Result<Text, AllocError>
    ensures { IfOk result (λ text. text ≡ letters.now) }
{
    Ok(Text::from_string(String::from_str(alloc, letters)?))
}

/// The name of a chunk.
fn chunk_name(alloc: Global, place: usize) -> Result<Text, AllocError>
    ensures { IfOk result (λ text. text ≡ codes "chunks[" ++ decimal place ++ codes "]") }
{
    Ok(Text::from_string(format!(in alloc; "chunks[{place}]")?))
}

/// The name of the field at a place of a struct, and of the validity behind the fields.
fn field_name(alloc: Global, dtype: &DType, place: usize) -> Result<Text, AllocError>
    ensures { IfOk result (λ text. text ≡ field_name (slice_get (fields_in (members_of_type (data_type dtype.now))) place)) }
{
    let DType::Struct(fields, _) = dtype else {
        return text_of(alloc, "validity");
    };
    match fields.get(place) {
        Some(field) => field.name.copy(alloc),
        None => text_of(alloc, "validity"),
    }
}

/// The name of a child of a take.
fn take_name(place: usize) -> &'static str
    ensures { result.now ≡ take_name place }
{
    if place == 0 { "codes" } else { "values" }
}

/// The name of a child of a list.
fn list_name(place: usize) -> &'static str
    ensures { result.now ≡ list_name place }
{
    match place {
        0 => "elements",
        1 => "offsets",
        _ => "validity",
    }
}

/// The name of a child of zoned data.
fn zoned_name(place: usize) -> &'static str
    ensures { result.now ≡ zoned_name place }
{
    if place == 0 { "data" } else { "zones" }
}

impl PlanTable {
    /// The name of the child at a place that there is.
    pub fn child_name(&self, alloc: Global, plan: PlanRef, place: usize) -> Result<Text, AllocError>
        requires known { number_of plan < length self.now }
        requires place { place < length (node_at self.now (number_of plan)).children }
        ensures { IfOk result (λ name. name ≡ child_name (node_at self.now (number_of plan)) place) }
    {
        let node = self.node(plan.0);
        match &node.kind {
            PlanKind::Concat => chunk_name(alloc, place),
            PlanKind::Pack { .. } => field_name(alloc, node.dtype(), place),
            PlanKind::Take => text_of(alloc, take_name(place)),
            PlanKind::ListPack { .. } => text_of(alloc, list_name(place)),
            PlanKind::Zoned { .. } | PlanKind::LegacyStats { .. } => {
                text_of(alloc, zoned_name(place))
            }
            PlanKind::Pruning { .. } => text_of(alloc, "zones"),
            _ => text_of(alloc, "child"),
        }
    }
}
