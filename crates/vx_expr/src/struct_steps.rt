//! Steps with structs that stand as a columnar value for each field: no struct is made, and no value is spread.

ghost use Rattle.std.specs.Prelude.{◌≡◌, ◌<◌, Some, length, map, replicate, IfOk};
ghost use Rattle.vx_base.specs.Data.{truth};
ghost use Rattle.vx_operators.specs.ColumnarValues.{columnar_rows};
ghost use Rattle.vx_expr.specs.Packs.{rows_along, struct_row};
ghost use Rattle.vx_expr.specs.Rows.{front};
ghost use Rattle.vx_expr.specs.Steps.{evaluated_rows, item_at, one_step};

use crate::evaluated::{Evaluated, row_by_row};
use crate::packing::fewest_rows;
use crate::steps::OneStep;
use std::alloc::{AllocError, Global};
use vx_operators::{ColumnarValue, Scalar};

/// The items at a place of the structs: the columnar value that stands there, as far as each of them has rows.
fn item_of_structs<'a>(
    alloc: Global,
    place: usize,
    rows: usize,
    mut columnar_values: Vec<ColumnarValue<'a>>,
) -> Result<Evaluated<'a>, AllocError>
    requires { place < length columnar_values.items }
    ensures { IfOk result (λ made. evaluated_rows made ≡ front (map (item_at (Some place)) (map struct_row (rows_along rows (map columnar_rows columnar_values.entry.items))))) }
{
    let count = fewest_rows(rows, columnar_values.as_slice());
    let item = columnar_values.swap_remove(place);
    drop(columnar_values);
    let first = item.first(alloc, count)?;
    Ok(Evaluated::Packed(first))
}

/// The same truth value for each of the structs.
fn same_truth<'a>(told: bool, rows: usize, columnar_values: Vec<ColumnarValue<'_>>) -> Evaluated<'a>
    ensures { evaluated_rows result ≡ replicate (length (rows_along rows (map columnar_rows columnar_values.entry.items))) (truth told) }
{
    let count = fewest_rows(rows, columnar_values.as_slice());
    drop(columnar_values);
    let scalar = Scalar::Truth(Some(told));
    Evaluated::Packed(ColumnarValue::Same(scalar, count))
}

/// The step with each of the structs before the first fault. None of them is null.
#[tactic(auto, using(crate::proofs::StructSteps::no_nulls, crate::proofs::StructSteps::all_values))]
pub(crate) fn derived_of_structs<'a>(
    alloc: Global,
    step: OneStep,
    rows: usize,
    columnar_values: Vec<ColumnarValue<'a>>,
) -> Result<Evaluated<'a>, AllocError>
    ensures { IfOk result (λ made. evaluated_rows made ≡ front (map (one_step step) (map struct_row (rows_along rows (map columnar_rows columnar_values.entry.items))))) }
{
    match step {
        OneStep::Field(Some(place)) if place < columnar_values.len() => {
            item_of_structs(alloc, place, rows, columnar_values)
        }
        OneStep::IsNull => Ok(same_truth(false, rows, columnar_values)),
        OneStep::IsNotNull => Ok(same_truth(true, rows, columnar_values)),
        step => row_by_row(alloc, step, Evaluated::Structs(rows, columnar_values)),
    }
}
