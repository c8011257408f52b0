//! Scans of the plan: its splits, and how it is run.

ghost use Rattle.std.specs.Prelude.{◌≡◌, ◌<◌, length, IsTrue};
ghost use Rattle.vx_plan.specs.Refs.{number_of};
ghost use Rattle.vx_steps.specs.Held.{FitsOffset};

use crate::options::{Options, options_of};
use crate::runs::{Run, take_step, write_run};
use crate::segments::Segment;
use crate::splits::splits_of;
use std::alloc::{AllocError, Global};
use std::mem::replace;
use vx_lower::Lowered;
use vx_plan::{PlanRef, PlanTable};
use vx_steps::{KeptValue, Scan};

/// Whether the offset can be added to the rows of each plan.
fn fits(table: &PlanTable, offset: u64) -> bool
    ensures { IsTrue result → FitsOffset table.now offset }
{
    for plan in 0..table.len() {
        if table.row_count(PlanRef(plan)) > u64::MAX - offset {
            return false;
        }
    }
    true
}

/// The scan with the offset, where it can be added to the rows of each plan.
fn with_offset<'a>(scan: Scan<'a>, table: &PlanTable, offset: u64) -> Scan<'a>
    requires { scan.nodes ≡ table.now }
{
    if fits(table, offset) {
        scan.with_row_offset(offset)
    } else {
        scan
    }
}

/// The run, whose scan is handed these values and leaves.
fn handed<'a>(run: Run<'a>, given: Vec<KeptValue>, leaves: Vec<KeptValue>) -> Run<'a> {
    let Run {
        file,
        scan,
        order,
        reads,
        queue,
        front,
        tells_held,
        tells_segments,
    } = run;
    Run {
        file,
        scan: scan.with_value_cache(given).with_leaves(leaves),
        order,
        reads,
        queue,
        front,
        tells_held,
        tells_segments,
    }
}

/// Runs the scan as the options ask, and puts the leaves that it leaves in the place of those that are kept.
fn write_turns<'a>(
    alloc: Global,
    file: &'a [Segment],
    scan: Scan<'a>,
    options: Options,
    kept: &mut Vec<KeptValue>,
    out: &mut String,
) -> Result<(), AllocError> {
    let Options {
        active,
        order,
        queue,
        late,
        tells_held,
        tells_segments,
        started,
        given,
        leaves,
        ..
    } = options;
    let mut run = Run {
        file,
        scan: scan.with_max_active(active),
        order,
        reads: Vec::new(alloc),
        queue,
        front: 0,
        tells_held,
        tells_segments,
    };
    if started {
        let _more = take_step(alloc, &mut run, out).ok();
    }
    let mut run = handed(run, given, leaves);
    let written = write_run(alloc, &mut run, &late, out);
    let Run { scan, .. } = run;
    drop(replace(kept, scan.into_leaves()));
    written
}

/// Runs the scan as the words ask. It is handed the leaves that are kept where it asks for them.
fn write_asked<'a>(
    alloc: Global,
    table: &PlanTable,
    file: &'a [Segment],
    scan: Scan<'a>,
    text: &str,
    leaves: &mut Vec<KeptValue>,
    out: &mut String,
) -> Result<(), AllocError>
    requires { scan.nodes ≡ table.now }
{
    if !text.ends_with("kept") {
        leaves.clear();
    }
    let options = options_of(alloc, text, replace(leaves, Vec::new(alloc)));
    let scan = with_offset(scan, table, options.offset);
    write_turns(alloc, file, scan, options, leaves, out)
}

/// Appends the turns of a scan of the root, and puts the leaves that it leaves in the place of those that are kept.
pub(crate) fn write_scan(
    alloc: Global,
    plans: &Lowered,
    file: &[Segment],
    leaves: &mut Vec<KeptValue>,
    words: &str,
    out: &mut String,
) -> Result<(), AllocError>
    requires { number_of plans.now.root < length plans.now.table }
{
    let (words, text) = words.split_once(" | ").unwrap_or((words, ""));
    let Ok(scan) = Scan::try_new(alloc, &plans.table, plans.root, splits_of(alloc, words)) else {
        leaves.clear();
        return out.push_str(" out of range;");
    };
    write_asked(alloc, &plans.table, file, scan, text, leaves, out)
}
