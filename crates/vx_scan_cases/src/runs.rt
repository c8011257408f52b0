//! Chunks that are written down, over the plan, run by a worker for each of several sources.

ghost use Rattle.std.specs.Prelude.{IfSome, IsTrue};
ghost use Rattle.std.specs.List.{AllByRecursion};
ghost use Rattle.vx_scan.specs.Executes.{CanRun};
ghost use Rattle.vx_scan.specs.Plans.{ArePlans, FollowFrom, IsChunkOf};

use crate::chunks::{chosen_of, is_chunk, plans_of};
use crate::commands::CaseState;
use crate::{shares, workers};
use std::alloc::{AllocError, Global};
use std::sync::Wait;
use std::thread::Threads;
use vx_scan::{Prepared, ScanPlans};
use vx_splits::SelectedRows;

/// Whether the chunks lie in the plan, the first of them behind that row, and each other behind the rows of the one before.
fn do_follow(plans: &ScanPlans, row: u64, chunks: &[SelectedRows]) -> bool
    requires { ArePlans plans.now }
    ensures each { IsTrue result → AllByRecursion (IsChunkOf plans.now) chunks.now }
    ensures order { IsTrue result → FollowFrom row chunks.now }
{
    let Some((first, others)) = chunks.split_first() else {
        return true;
    };
    row <= first.scope.rows.start
        && is_chunk(plans, first)
        && do_follow(plans, first.scope.rows.end, others)
}

/// Whether workers can run the chunks, of which there are few.
fn can_run(plans: &ScanPlans, chunks: &[SelectedRows]) -> bool
    requires { ArePlans plans.now }
    ensures { IsTrue result → CanRun plans.now chunks.now }
{
    chunks.len() <= 1000 && do_follow(plans, 0, chunks)
}

/// The chunks that the words write. Those that have no room are left out.
fn chunks_of(alloc: Global, words: &str) -> Vec<SelectedRows> {
    let mut chunks = Vec::new(alloc);
    for word in words.split_whitespace() {
        if let Ok(chosen) = chosen_of(alloc, word) {
            let _pushed = chunks.push(chosen).ok();
        }
    }
    chunks
}

/// The plan and the chunks that the words write, as a scan is prepared to them; none where there is no plan, or workers
/// can't run them.
fn prepared_of(alloc: Global, case_state: CaseState<'_>, words: &str) -> Option<Prepared>
    ensures plans { IfSome result (λ prepared. ArePlans prepared.plans) }
    ensures chunks { IfSome result (λ prepared. CanRun prepared.plans prepared.chunks.items) }
{
    let plans = plans_of(alloc, case_state)?;
    let chunks = chunks_of(alloc, words);
    if !can_run(&plans, &chunks) {
        drop(plans);
        drop(chunks);
        return None;
    }
    Some(Prepared {
        plans,
        chunks,
        ordered: true,
    })
}

/// Appends what chunks give over so many sources: `2 0..4 4..9`.
pub(crate) fn write_run<R: AllocGlobal + Threads + Wait + Sync>(
    rt: &R,
    case_state: CaseState<'_>,
    words: &str,
    out: &mut String,
) -> Result<(), AllocError> {
    let (count, words) = words.split_once(' ').unwrap_or((words, ""));
    let count = count.parse::<u64>().unwrap_or(1);
    let Some(prepared) = prepared_of(rt.alloc(), case_state, words) else {
        return out.push_str(" out of range;");
    };
    let written = workers::write_over(rt, case_state, &prepared, count, out);
    drop(prepared);
    written
}

/// Appends what chunks give over so many sources, with a cache that has the given values, what ran again, what the cache
/// has then, and what all sources together were asked.
pub(crate) fn write_lent<R: AllocGlobal + Threads + Wait + Sync>(
    rt: &R,
    case_state: CaseState<'_>,
    words: &str,
    out: &mut String,
) -> Result<(), AllocError> {
    let (words, given) = words.split_once(" | ").unwrap_or((words, ""));
    let (count, words) = words.split_once(' ').unwrap_or((words, ""));
    let count = count.parse::<u64>().unwrap_or(1);
    let Some(prepared) = prepared_of(rt.alloc(), case_state, words) else {
        return out.push_str(" out of range;");
    };
    let written = shares::write_over(rt, case_state, &prepared, count, given, out);
    drop(prepared);
    written
}
