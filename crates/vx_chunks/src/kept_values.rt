//! Whole values by their plan, in a list of them: the first of a plan, and a copy of it behind others.

ghost use Rattle.std.specs.Prelude.{◌≡◌, map, None, OnErr, OnOk, option_copied};
ghost use Rattle.vx_plan.specs.Refs.{number_of};
ghost use Rattle.vx_steps.specs.Kept.{kept_at, kept_data};
ghost use Rattle.vx_chunks.specs.KeptValues.{Gives};
ghost use Rattle.vx_chunks.specs.Outcomes.{data_of};

use std::alloc::{AllocError, Global};
use vx_base::Column;
use vx_plan::PlanRef;
use vx_steps::KeptValue;

/// The first column of a plan among these.
pub fn first_for(entries: &[KeptValue], node: PlanRef) -> Option<&Column>
    ensures { option_copied result ≡ kept_at (map kept_data entries.now) (number_of node) }
{
    for value in entries {
        if value.node.0 == node.0 {
            return Some(&value.column);
        }
    }
    None
}

/// Puts a copy of the first column of the plan among these behind the others, if there is one.
pub fn give(
    alloc: Global,
    node: PlanRef,
    entries: &[KeptValue],
    given: &mut Vec<KeptValue>,
) -> Result<(), AllocError>
    ensures gives { OnOk result (Gives (number_of node) (data_of entries.now) (data_of given.old.items) (data_of given.new.items)) }
    ensures unchanged { OnErr result (given.new.items ≡ given.old.items) }
{
    if let Some(column) = first_for(entries, node) {
        given.push(KeptValue {
            node,
            column: column.copy(alloc)?,
        })?;
    }
    Ok(())
}
