//! Scans that are run by a worker for each of several sources, which share whole values by a cache that has some already.

ghost use Rattle.std.specs.Prelude.{◌<◌, ◌≤◌, length};
ghost use Rattle.vx_scan.specs.Limits.{most_workers};
ghost use Rattle.vx_scan.specs.Executes.{CanRun};
ghost use Rattle.vx_scan.specs.Plans.{ArePlans};

use crate::answers::{write_column, write_error};
use crate::builders::set_of;
use crate::caches::{keep_all, write_kept};
use crate::commands::CaseState;
use crate::workers::{sources_of, write_outcome};
use std::alloc::{AllocError, Global};
use std::sync::Wait;
use std::thread::Threads;
use vx_base::{AskedRange, ScriptSource};
use vx_scan::{Outcome, Prepared, Rerun, ValueCache, execute};

/// Appends the chunks that ran again, each with the plan of the values that it had borrowed, these, and the right ones.
fn write_reruns(alloc: Global, reruns: &[Rerun], out: &mut String) -> Result<(), AllocError> {
    for rerun in reruns {
        write!(out, " again {} at {}", rerun.chunk, rerun.node.0)?;
        write_column(alloc, &rerun.borrowed, out)?;
        write_column(alloc, &rerun.made, out)?;
    }
    Ok(())
}

/// What all sources were asked, in the order of the ranges. What has no room is left out.
fn asked_of(alloc: Global, sources: &[ScriptSource]) -> Vec<AskedRange> {
    let mut asked = Vec::new(alloc);
    for source in sources {
        let _joined = asked.extend_from_slice(source.asked()).ok();
    }
    let _sorted = asked.sort().ok();
    asked
}

/// Appends what was asked.
fn write_ranges(ranges: &[AskedRange], out: &mut String) -> Result<(), AllocError> {
    out.push_str(" asked")?;
    for range in ranges {
        write!(out, " {}+{}", range.offset, range.length)?;
    }
    Ok(())
}

/// Appends what all sources were asked, in the order of the ranges: which of them was asked for what is open.
fn write_asked(
    alloc: Global,
    sources: &[ScriptSource],
    out: &mut String,
) -> Result<(), AllocError> {
    let asked = asked_of(alloc, sources);
    let written = write_ranges(&asked, out);
    drop(asked);
    written
}

/// Appends what a run gave, and what ran again.
fn write_told(alloc: Global, outcome: &Outcome, out: &mut String) -> Result<(), AllocError> {
    write_outcome(alloc, outcome, out)?;
    write_reruns(alloc, &outcome.reruns, out)
}

/// Runs a prepared scan over the sources and the cache.
fn write_run<R: AllocGlobal + Threads + Wait + Sync>(
    rt: &R,
    prepared: &Prepared,
    sources: &mut [ScriptSource],
    cache: &ValueCache,
    out: &mut String,
) -> Result<(), AllocError>
    requires some { 0 < length sources.old }
    requires workers { length sources.old ≤ most_workers }
    requires plans { ArePlans prepared.now.plans }
    requires chunks { CanRun prepared.now.plans prepared.now.chunks.items }
{
    let alloc = rt.alloc();
    let outcome = execute(rt, alloc, &prepared.plans, &prepared.chunks, sources, cache);
    let written = write_told(alloc, &outcome, out);
    drop(outcome);
    written
}

/// Runs a prepared scan over the sources and the cache, and appends what came of these.
fn write_lent<R: AllocGlobal + Threads + Wait + Sync>(
    rt: &R,
    prepared: &Prepared,
    sources: &mut [ScriptSource],
    cache: &ValueCache,
    out: &mut String,
) -> Result<(), AllocError>
    requires plans { ArePlans prepared.now.plans }
    requires chunks { CanRun prepared.now.plans prepared.now.chunks.items }
{
    if sources.len() == 0 || sources.len() > 64 {
        return Ok(());
    }
    write_run(rt, prepared, sources, cache, out)?;
    write_kept(rt, &prepared.plans, cache, out)?;
    write_asked(rt.alloc(), sources, out)
}

/// Runs a prepared scan over so many sources of the file and a cache that has the given values.
pub(crate) fn write_over<R: AllocGlobal + Threads + Wait + Sync>(
    rt: &R,
    case_state: CaseState<'_>,
    prepared: &Prepared,
    count: u64,
    given: &str,
    out: &mut String,
) -> Result<(), AllocError>
    requires plans { ArePlans prepared.now.plans }
    requires chunks { CanRun prepared.now.plans prepared.now.chunks.items }
{
    let cache = ValueCache::new(rt.alloc());
    let kept = keep_all(rt, &cache, given);
    let mut sources = sources_of(rt.alloc(), case_state, count);
    let written = write_lent(rt, prepared, sources.as_mut_slice(), &cache, out);
    drop(sources);
    drop(cache);
    kept.and(written)
}

/// Appends what a prepared scan gives over so many sources, with a cache that has the given values, what ran again, what
/// the cache has then, and what all sources together were asked.
pub(crate) fn write_shared<R: AllocGlobal + Threads + Wait + Sync>(
    rt: &R,
    case_state: CaseState<'_>,
    words: &str,
    out: &mut String,
) -> Result<(), AllocError> {
    let alloc = rt.alloc();
    let (words, given) = words.split_once(" | ").unwrap_or((words, ""));
    let (count, words) = words.split_once(' ').unwrap_or((words, ""));
    let count = count.parse::<u64>().unwrap_or(1);
    match set_of(alloc, case_state, words) {
        Some(builder) => match builder.prepare(alloc) {
            Ok(prepared) => {
                let written = write_over(rt, case_state, &prepared, count, given, out);
                drop(prepared);
                written
            }
            Err(error) => write_error(error, out),
        },
        None => out.push_str(" not set;"),
    }
}
