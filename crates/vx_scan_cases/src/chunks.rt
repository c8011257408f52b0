//! Runs of one chunk.

ghost use Rattle.std.specs.Prelude.{IfSome, IsTrue};
ghost use Rattle.vx_scan.specs.Plans.{ArePlans, IsChunkOf};

use crate::answers::{write_column, write_columns, write_error, write_source};
use crate::commands::CaseState;
use crate::files::{places_of, source_of};
use crate::splits::split_of;
use crate::trees::lowered_of;
use std::alloc::{AllocError, Global};
use vx_base::ScriptSource;
use vx_io::segment_ranges;
use vx_lower::Lowered;
use vx_notation::{column_of, dtype_of};
use vx_plan::PlanRef;
use vx_scan::{ChunkOutcome, ScanPlans, run_chunk};
use vx_splits::{SelectedRows, WorkScope};
use vx_steps::{KeptValue, Split};

/// What the chunks of the plan share; none where there is no plan.
pub(crate) fn plans_of(alloc: Global, case_state: CaseState<'_>) -> Option<ScanPlans>
    ensures { IfSome result ArePlans }
{
    let Lowered { table, root } = lowered_of(alloc, case_state)?;
    let locations = places_of(alloc, case_state.places);
    let Ok(ranges) = segment_ranges(alloc, &locations) else {
        drop(table);
        drop(locations);
        return None;
    };
    Some(ScanPlans {
        table,
        projection: root,
        locations,
        ranges,
        row_offset: 0,
        idle_limit: case_state.limit,
    })
}

/// The column that is written so, as `given 3 i64: 7 8`, for the plan of that number; none where its values don't fit.
pub(crate) fn value_of(alloc: Global, text: &str) -> Option<KeptValue> {
    let (_, words) = text.split_once(' ').unwrap_or((text, ""));
    let (number, words) = words.split_once(' ').unwrap_or((words, ""));
    let (dtype, values) = words.split_once(':').unwrap_or((words, ""));
    let node = PlanRef(number.parse::<u32>().unwrap_or(0));
    let dtype = dtype_of(alloc, dtype).ok()?;
    let column = column_of(alloc, dtype, values).ok()?;
    Some(KeptValue { node, column })
}

/// The values that the words between ` | ` give. Those that have no room are left out.
fn given_of(alloc: Global, text: &str) -> Vec<KeptValue> {
    let mut given = Vec::new(alloc);
    for part in text.split(" | ") {
        if let Some(value) = value_of(alloc, part) {
            let _pushed = given.push(value).ok();
        }
    }
    given
}

/// Appends the piece of a chunk, or why it has none, and the whole values that it used and made.
fn write_outcome(
    alloc: Global,
    outcome: &ChunkOutcome,
    out: &mut String,
) -> Result<(), AllocError> {
    match &outcome.piece {
        Ok(piece) => {
            out.push_str(" piece")?;
            write_column(alloc, piece, out)?;
        }
        Err(error) => write_error(*error, out)?,
    }
    write_columns(alloc, "used", &outcome.used, out)?;
    write_columns(alloc, "made", &outcome.made, out)
}

/// The rows of a chunk.
pub(crate) fn chosen_of(alloc: Global, rows: &str) -> Result<SelectedRows, AllocError> {
    let Split { rows, mask } = split_of(alloc, rows)?;
    let scope = WorkScope {
        file_ordinal: 0,
        rows,
    };
    Ok(SelectedRows { scope, mask })
}

/// Whether the rows are inside the plans, with a mask of their length.
pub(crate) fn is_chunk(plans: &ScanPlans, chosen: &SelectedRows) -> bool
    requires { ArePlans plans.now }
    ensures { IsTrue result → IsChunkOf plans.now chosen.now }
{
    let start = chosen.scope.rows.start;
    let end = chosen.scope.rows.end;
    start <= end
        && end <= plans.table.row_count(plans.projection)
        && chosen.mask.len() == end - start
}

/// Appends what a run of the chunk over the source gives, with the values of the words.
fn write_run(
    alloc: Global,
    plans: &ScanPlans,
    chosen: &SelectedRows,
    source: &mut ScriptSource,
    words: &str,
    out: &mut String,
) -> Result<(), AllocError>
    requires plans { ArePlans plans.now }
    requires chunk { IsChunkOf plans.now chosen.now }
{
    let outcome = run_chunk(alloc, plans, chosen, source, given_of(alloc, words));
    let written = write_outcome(alloc, &outcome, out);
    drop(outcome);
    written
}

/// Appends what a run of the chunk gives, where it is one, and what its source was asked.
fn write_chosen(
    alloc: Global,
    case_state: CaseState<'_>,
    plans: &ScanPlans,
    chosen: &SelectedRows,
    words: &str,
    out: &mut String,
) -> Result<(), AllocError>
    requires { ArePlans plans.now }
{
    if !is_chunk(plans, chosen) {
        return out.push_str(" out of range;");
    }
    let mut source = source_of(alloc, case_state.bytes, case_state.script);
    let ran = write_run(alloc, plans, chosen, &mut source, words, out);
    let written = ran.and(write_source(&source, out));
    drop(source);
    written
}

/// Appends what the chunk of those rows gives over the plans.
fn write_over(
    alloc: Global,
    case_state: CaseState<'_>,
    plans: &ScanPlans,
    words: &str,
    out: &mut String,
) -> Result<(), AllocError>
    requires { ArePlans plans.now }
{
    let (rows, words) = words.split_once(" | ").unwrap_or((words, ""));
    let chosen = chosen_of(alloc, rows)?;
    let written = write_chosen(alloc, case_state, plans, &chosen, words, out);
    drop(chosen);
    written
}

/// Appends what a run of the chunk of those rows gives, and what its source was asked.
pub(crate) fn write_chunk(
    alloc: Global,
    case_state: CaseState<'_>,
    words: &str,
    out: &mut String,
) -> Result<(), AllocError> {
    let Some(plans) = plans_of(alloc, case_state) else {
        return out.push_str(" no tree;");
    };
    let written = write_over(alloc, case_state, &plans, words, out);
    drop(plans);
    written
}
