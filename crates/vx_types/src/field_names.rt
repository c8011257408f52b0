//! Whether the names of fields are distinct, at every level of a dtype.

ghost use Rattle.std.specs.Prelude.{◌≡◌, ◌↔◌, IfOk, IsTrue};
ghost use Rattle.vx_types.specs.Names.{are_distinct, names_in, HasDistinctNames, HaveDistinctNames};
ghost use Rattle.vx_types.specs.Views.{data_type, members_of};

use crate::dtypes::{DType, Field};
use std::alloc::{AllocError, Global};
use std::collections::BTreeSet;

/// Whether no two fields have one name. Time is n log n in the fields.
fn are_distinct_names(alloc: Global, fields: &[Field]) -> Result<bool, AllocError>
    ensures { IfOk result (λ distinct. distinct ≡ are_distinct (names_in (members_of fields.now))) }
{
    let mut seen = BTreeSet::new(alloc);
    for field in fields {
        if !seen.insert(field.name.as_str())? {
            return Ok(false);
        }
    }
    Ok(true)
}

/// Whether each struct inside the dtype has fields of distinct names.
#[cycle(distinct)]
pub fn has_distinct_names(alloc: Global, dtype: &DType) -> Result<bool, AllocError>
    ensures { IfOk result (λ distinct. IsTrue distinct ↔ HasDistinctNames (data_type dtype.now)) }
{
    match dtype {
        DType::Bool(_) | DType::Int(_, _) | DType::Utf8(_) => Ok(true),
        DType::Struct(fields, _) => {
            if are_distinct_names(alloc, fields.items())? {
                have_distinct_names(alloc, fields.items())
            } else {
                Ok(false)
            }
        }
        DType::List(element, _) => has_distinct_names(alloc, element.dtype()),
    }
}

/// Whether each struct inside the fields' dtypes has fields of distinct names.
#[cycle(distinct)]
fn have_distinct_names(alloc: Global, fields: &[Field]) -> Result<bool, AllocError>
    ensures { IfOk result (λ distinct. IsTrue distinct ↔ HaveDistinctNames (members_of fields.now)) }
{
    for field in fields {
        if !has_distinct_names(alloc, &field.dtype)? {
            return Ok(false);
        }
    }
    Ok(true)
}
