//! Commands that ask which segments rows could read.

ghost use Rattle.std.specs.Prelude.{◌<◌, length, IsTrue};
ghost use Rattle.vx_plan.specs.Reaches.{fits};
ghost use Rattle.vx_plan.specs.Refs.{number_of};

use crate::words::number_at;
use std::alloc::{AllocError, Global};
use std::ops::Range;
use vx_base::Mask;
use vx_notation::bits_of;
use vx_plan::{PlanRef, PlanTable, Reach, SegmentReach, reach, selected};

/// Behind so many rows, as `+5`, or in a fixed range, as `3..7`.
fn at_of(word: &str) -> Reach {
    match word.split_once("..") {
        Some((start, end)) => {
            let start = start.parse::<u64>().unwrap_or(0);
            Reach::Fixed(start..end.parse::<u64>().unwrap_or(0))
        }
        None => {
            let offset = word.strip_prefix('+').unwrap_or(word);
            Reach::Offset(offset.parse::<u64>().unwrap_or(0))
        }
    }
}

/// Whether the row is a row at the root.
fn has_room(at: &Reach, row: u64) -> bool
    ensures { IsTrue result → fits at.now row }
{
    match at {
        Reach::Offset(offset) => row <= u64::MAX - *offset,
        Reach::Fixed(_) => true,
    }
}

/// The words of what is reached.
fn write_found(found: &[SegmentReach], out: &mut String) -> Result<(), AllocError> {
    out.push_str("segments")?;
    for entry in found {
        let (start, end) = (entry.rows.start, entry.rows.end);
        write!(out, " {}:{start}..{end}", entry.segment)?;
    }
    Ok(())
}

/// What rows of a plan reach: all of a range, or those that the bits select. None of rows that the plan hasn't.
fn reached(
    alloc: Global,
    table: &PlanTable,
    plan: PlanRef,
    numbers: &[u64],
    at: &Reach,
    bits: &str,
) -> Option<Vec<SegmentReach>>
    requires { number_of plan < length table.now }
{
    let (start, end) = (number_at(numbers, 1), number_at(numbers, 2));
    if start > end || end > table.row_count(plan) || !has_room(at, table.row_count(plan)) {
        return None;
    }
    if bits.is_empty() {
        return reach(alloc, table, plan, start..end, at).ok();
    }
    let mask = Mask::of(alloc, bits_of(alloc, bits).unwrap_or(Vec::new(alloc))).ok()?;
    let found = if mask.len() == end - start {
        selected(alloc, table, plan, start..end, &mask, at).ok()
    } else {
        None
    };
    drop(mask);
    found
}

/// The answer to what rows of a plan reach.
pub(crate) fn write_reached(
    alloc: Global,
    table: &PlanTable,
    plan: PlanRef,
    numbers: &[u64],
    rest: &str,
    out: &mut String,
) -> Result<(), AllocError>
    requires { number_of plan < length table.now }
{
    let (at, bits) = rest.split_once(" | ").unwrap_or((rest, ""));
    let at = at_of(at);
    let found = reached(alloc, table, plan, numbers, &at, bits);
    drop(at);
    let Some(found) = found else {
        return Ok(());
    };
    let written = write_found(found.as_slice(), out);
    drop(found);
    written
}

/// Appends where rows stand.
fn write_at(at: &Reach, out: &mut String) -> Result<(), AllocError> {
    match at {
        Reach::Offset(offset) => write!(out, " +{offset}"),
        Reach::Fixed(rows) => write!(out, " {}..{}", rows.start, rows.end),
    }
}

/// The rows of the root, the same behind more rows, and fixed.
fn write_rooted_at(
    at: &Reach,
    start: u64,
    end: u64,
    by: u64,
    out: &mut String,
) -> Result<(), AllocError> {
    if !has_room(at, start) || !has_room(at, end) || !has_room(at, by) {
        return Ok(());
    }
    let rows = start..end;
    let root = at.root(&rows);
    let shifted = at.shift(by);
    let fixed = at.fixed(&rows);
    let written = write!(out, "root {}..{}", root.start, root.end)
        .and(write_at(&shifted, out))
        .and(write_at(&fixed, out));
    drop(shifted);
    drop(fixed);
    written
}

/// The answer to where rows stand at the root.
pub(crate) fn write_rooted(
    numbers: &[u64],
    rest: &str,
    out: &mut String,
) -> Result<(), AllocError> {
    let at = at_of(rest);
    let (start, end) = (number_at(numbers, 0), number_at(numbers, 1));
    let written = write_rooted_at(&at, start, end, number_at(numbers, 2), out);
    drop(at);
    written
}
