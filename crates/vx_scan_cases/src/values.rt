//! Whole values of plans: which ones selected rows ask for, and readings of those of one plan.

ghost use Rattle.std.specs.Prelude.{◌<◌, length};
ghost use Rattle.vx_plan.specs.Refs.{number_of};
ghost use Rattle.vx_scan.specs.Plans.{ArePlans};

use crate::answers::{write_column, write_error, write_source};
use crate::chunks::{chosen_of, is_chunk, plans_of};
use crate::commands::CaseState;
use crate::files::source_of;
use std::alloc::{AllocError, Global};
use vx_base::Column;
use vx_plan::PlanRef;
use vx_scan::{ScanError, ScanPlans, run_values};
use vx_splits::SelectedRows;
use vx_steps::asked_wholes;

/// Appends the values of a reading, or why there are none.
fn write_read(
    alloc: Global,
    values: &Result<Column, ScanError>,
    out: &mut String,
) -> Result<(), AllocError> {
    match values {
        Ok(column) => {
            out.push_str(" values")?;
            write_column(alloc, column, out)
        }
        Err(error) => write_error(*error, out),
    }
}

/// Appends the whole values of a plan, or why there are none, and what their source was asked.
fn write_plan(
    alloc: Global,
    case_state: CaseState<'_>,
    plans: &ScanPlans,
    node: PlanRef,
    out: &mut String,
) -> Result<(), AllocError>
    requires plans { ArePlans plans.now }
    requires known { number_of node < length plans.now.table }
{
    let mut source = source_of(alloc, case_state.bytes, case_state.script);
    let values = run_values(alloc, plans, node, &mut source);
    let written = write_read(alloc, &values, out).and(write_source(&source, out));
    drop(values);
    drop(source);
    written
}

/// Appends what a reading of the plan of that number gives, where there is one.
fn write_numbered(
    alloc: Global,
    case_state: CaseState<'_>,
    plans: &ScanPlans,
    number: u32,
    out: &mut String,
) -> Result<(), AllocError>
    requires { ArePlans plans.now }
{
    if plans.table.len() <= number {
        return out.push_str(" no plan;");
    }
    write_plan(alloc, case_state, plans, PlanRef(number), out)
}

/// Appends what a reading of the plan of that number gives, where the tree has one.
pub(crate) fn write_values(
    alloc: Global,
    case_state: CaseState<'_>,
    words: &str,
    out: &mut String,
) -> Result<(), AllocError> {
    let Some(plans) = plans_of(alloc, case_state) else {
        return out.push_str(" no tree;");
    };
    let number = words.parse::<u32>().unwrap_or(0);
    let written = write_numbered(alloc, case_state, &plans, number, out);
    drop(plans);
    written
}

/// Appends that these plans are asked for.
fn write_nodes(nodes: &[PlanRef], out: &mut String) -> Result<(), AllocError> {
    out.push_str(" asks")?;
    for node in nodes {
        write!(out, " {}", node.0)?;
    }
    Ok(())
}

/// Appends the numbers of the plans whose whole values the rows of a chunk ask for.
fn write_asked(
    alloc: Global,
    plans: &ScanPlans,
    chosen: &SelectedRows,
    out: &mut String,
) -> Result<(), AllocError>
    requires { ArePlans plans.now }
{
    if !is_chunk(plans, chosen) {
        return out.push_str(" out of range;");
    }
    let row = chosen.scope.rows.start;
    let nodes = asked_wholes(alloc, &plans.table, plans.projection, row, &chosen.mask)?;
    let written = write_nodes(&nodes, out);
    drop(nodes);
    written
}

/// Appends which whole values the rows of a split ask for over the plans.
fn write_over(
    alloc: Global,
    plans: &ScanPlans,
    words: &str,
    out: &mut String,
) -> Result<(), AllocError>
    requires { ArePlans plans.now }
{
    let chosen = chosen_of(alloc, words)?;
    let written = write_asked(alloc, plans, &chosen, out);
    drop(chosen);
    written
}

/// Appends which whole values the rows of a split ask for.
pub(crate) fn write_asks(
    alloc: Global,
    case_state: CaseState<'_>,
    words: &str,
    out: &mut String,
) -> Result<(), AllocError> {
    let Some(plans) = plans_of(alloc, case_state) else {
        return out.push_str(" no tree;");
    };
    let written = write_over(alloc, &plans, words, out);
    drop(plans);
    written
}
