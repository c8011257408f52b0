//! Caches of whole values: what steps on one give, and what it has once a scan has run.

ghost use Rattle.vx_scan.specs.Plans.{ArePlans};

use crate::answers::write_column;
use crate::chunks::value_of;
use std::alloc::{AllocError, Global};
use std::sync::Wait;
use vx_base::Mask;
use vx_plan::PlanRef;
use vx_scan::{ScanPlans, ValueCache};
use vx_steps::{KeptValue, asked_wholes};

/// Keeps the value that is written so in the cache, where it is one.
fn keep<R: AllocGlobal + Wait>(rt: &R, cache: &ValueCache, text: &str) -> Result<(), AllocError> {
    match value_of(rt.alloc(), text) {
        Some(KeptValue { node, column }) => {
            drop(cache.insert(rt, node, column)?);
            Ok(())
        }
        None => Ok(()),
    }
}

/// Keeps the values that the words between ` | ` give in the cache.
pub(crate) fn keep_all<R: AllocGlobal + Wait>(
    rt: &R,
    cache: &ValueCache,
    text: &str,
) -> Result<(), AllocError> {
    for part in text.split(" | ") {
        keep(rt, cache, part)?;
    }
    Ok(())
}

/// Appends the column that a cache has for a plan.
fn write_cached<R: AllocGlobal + Wait>(
    rt: &R,
    cache: &ValueCache,
    node: PlanRef,
    out: &mut String,
) -> Result<(), AllocError> {
    match cache.get(rt, node)? {
        Some(column) => {
            let written = write_column(rt.alloc(), &column, out);
            drop(column);
            written
        }
        None => out.push_str(" none;"),
    }
}

/// The plans whose whole values all rows of the projection ask for.
fn asked_by_all(alloc: Global, plans: &ScanPlans) -> Result<Vec<PlanRef>, AllocError>
    requires { ArePlans plans.now }
{
    let rows = plans.table.row_count(plans.projection);
    let mask = Mask::new_true(alloc, rows)?;
    let asked = if mask.len() <= rows {
        asked_wholes(alloc, &plans.table, plans.projection, 0, &mask)
    } else {
        Ok(Vec::new(alloc))
    };
    drop(mask);
    asked
}

/// Appends what a cache has for each of the plans.
fn write_entries<R: AllocGlobal + Wait>(
    rt: &R,
    nodes: &[PlanRef],
    cache: &ValueCache,
    out: &mut String,
) -> Result<(), AllocError> {
    for node in nodes {
        write!(out, " kept {}", node.0)?;
        write_cached(rt, cache, *node, out)?;
    }
    Ok(())
}

/// Appends what a cache has for each plan whose whole values the rows of the projection ask for.
pub(crate) fn write_kept<R: AllocGlobal + Wait>(
    rt: &R,
    plans: &ScanPlans,
    cache: &ValueCache,
    out: &mut String,
) -> Result<(), AllocError>
    requires { ArePlans plans.now }
{
    let nodes = asked_by_all(rt.alloc(), plans)?;
    let written = write_entries(rt, &nodes, cache, out);
    drop(nodes);
    written
}

/// Appends what a step on a cache gives: `insert 3 u8: 7` or `get 3`.
fn write_step<R: AllocGlobal + Wait>(
    rt: &R,
    cache: &ValueCache,
    step: &str,
    out: &mut String,
) -> Result<(), AllocError> {
    let (command, number) = step.split_once(' ').unwrap_or((step, ""));
    if command == "get" {
        let node = PlanRef(number.parse::<u32>().unwrap_or(0));
        return write_cached(rt, cache, node, out);
    }
    match value_of(rt.alloc(), step) {
        Some(KeptValue { node, column }) => {
            let kept = cache.insert(rt, node, column)?;
            let written = write_column(rt.alloc(), &kept, out);
            drop(kept);
            written
        }
        None => Ok(()),
    }
}

/// Appends what the steps on a cache give, which stand between ` | `.
fn write_steps<R: AllocGlobal + Wait>(
    rt: &R,
    cache: &ValueCache,
    words: &str,
    out: &mut String,
) -> Result<(), AllocError> {
    for step in words.split(" | ") {
        write_step(rt, cache, step, out)?;
    }
    Ok(())
}

/// Appends what the steps on a new cache give, which stand between ` | `.
pub(crate) fn write_cache<R: AllocGlobal + Wait>(
    rt: &R,
    words: &str,
    out: &mut String,
) -> Result<(), AllocError> {
    let cache = ValueCache::new(rt.alloc());
    let written = write_steps(rt, &cache, words, out);
    drop(cache);
    written
}
