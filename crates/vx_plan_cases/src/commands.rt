//! The commands, over one table of plans. What was lent is let go by `drop`, so that the proof takes it apart there
//! alone.

ghost use Rattle.std.specs.Prelude.{◌<◌, length};
ghost use Rattle.vx_plan.specs.Refs.{number_of};

use crate::asking::{state_text, write_parts, write_plan};
use crate::making::{made, pruning};
use crate::reaching::{write_reached, write_rooted};
use crate::words::{number_at, numbers_of, plan_at};
use std::alloc::{AllocError, Global};
use std::mem::replace;
use vx_plan::{PlanChildren, PlanError, PlanRef, PlanTable};

/// The rule that a plan breaks, where the table is still the one that was told so.
fn write_refused(
    alloc: Global,
    table: &PlanTable,
    before: &str,
    error: PlanError,
    out: &mut String,
) -> Result<(), AllocError> {
    let after = state_text(alloc, table)?;
    let is_same = after.as_str() == before;
    drop(after);
    if is_same {
        write!(out, "{error}")
    } else {
        out.push_str("another table")
    }
}

/// That there is no plan to be made, where the table is still the one that was told so.
fn write_none(
    alloc: Global,
    table: &PlanTable,
    before: &str,
    out: &mut String,
) -> Result<(), AllocError> {
    let after = state_text(alloc, table)?;
    let is_same = after.as_str() == before;
    drop(after);
    out.push_str(if is_same { "none" } else { "another table" })
}

/// The number of the new plan, or the rule that it breaks; the table is then the one that it was.
fn write_added(
    alloc: Global,
    table: &mut PlanTable,
    command: &str,
    numbers: &[u64],
    rest: &str,
    out: &mut String,
) -> Result<(), AllocError> {
    if table.len() >= 4294967292 {
        return Ok(());
    }
    let before = state_text(alloc, table)?;
    let written = match made(alloc, table, command, numbers, rest) {
        Ok(plan) => write!(out, "{}", plan.0),
        Err(error) => write_refused(alloc, table, before.as_str(), error, out),
    };
    drop(before);
    written
}

/// The number of the new pruning plan, and `none` where there is none to be made; the table is then the one that it was.
fn write_pruning(
    alloc: Global,
    table: &mut PlanTable,
    numbers: &[u64],
    rest: &str,
    out: &mut String,
) -> Result<(), AllocError> {
    if table.len() >= 4294967292 {
        return Ok(());
    }
    let Ok(plan) = plan_at(table, numbers, 0) else {
        return Ok(());
    };
    let before = state_text(alloc, table)?;
    let written = match pruning(alloc, table, plan, rest) {
        Ok(Some(plan)) => write!(out, "{}", plan.0),
        Ok(None) => write_none(alloc, table, before.as_str(), out),
        Err(error) => write_refused(alloc, table, before.as_str(), error, out),
    };
    drop(before);
    written
}

/// The child of a plan at a place.
fn write_child(
    table: &PlanTable,
    plan: PlanRef,
    place: u64,
    out: &mut String,
) -> Result<(), AllocError>
    requires { number_of plan < length table.now }
{
    match table.child(plan, usize::try_from(place).unwrap_or(0)) {
        Some(child) => write!(out, "{}", child.0),
        None => out.push_str("none"),
    }
}

/// Whether these are the children, one by one.
fn are_children(children: &PlanChildren, copied: &[PlanRef]) -> bool {
    let mut same = copied.len() == children.len() && children.is_empty() == copied.is_empty();
    for (place, child) in children.iter().enumerate() {
        let other = copied.get(place).copied().unwrap_or(PlanRef(u32::MAX));
        same = same && children.get(place) == Some(*child) && PlanRef::ptr_eq(other, *child);
    }
    same
}

/// How many children there are: the same number, and the same children, one by one and in a list of their own.
fn write_children(
    alloc: Global,
    children: &PlanChildren,
    out: &mut String,
) -> Result<(), AllocError> {
    let copied = children.to_vec(alloc)?;
    let same = are_children(children, copied.as_slice());
    drop(copied);
    if same {
        write!(out, "{} children", children.len())
    } else {
        out.push_str("other children")
    }
}

/// The answer to a question about a plan of the table.
fn write_asked(
    alloc: Global,
    table: &PlanTable,
    command: &str,
    numbers: &[u64],
    rest: &str,
    out: &mut String,
) -> Result<(), AllocError> {
    let Ok(plan) = plan_at(table, numbers, 0) else {
        return Ok(());
    };
    match command {
        "plan" => write_plan(alloc, table, plan, out),
        "parts" => write_parts(alloc, table, plan, out),
        "child" => write_child(table, plan, number_at(numbers, 1), out),
        "children" => write_children(alloc, table.children(plan), out),
        _ => write_reached(alloc, table, plan, numbers, rest, out),
    }
}

/// The answer to a command with its numbers.
fn write_of_numbers(
    alloc: Global,
    table: &mut PlanTable,
    command: &str,
    numbers: &[u64],
    rest: &str,
    out: &mut String,
) -> Result<(), AllocError> {
    match command {
        "new" => {
            drop(replace(table, PlanTable::new(alloc)));
            out.push_str("0 plans")
        }
        "len" => write!(out, "{} plans", table.len()),
        "memory" => write!(out, "{}", PlanError::Memory),
        "at" => write_rooted(numbers, rest, out),
        "prune" => write_pruning(alloc, table, numbers, rest, out),
        "plan" | "parts" | "child" | "children" | "reach" => {
            write_asked(alloc, table, command, numbers, rest, out)
        }
        _ => write_added(alloc, table, command, numbers, rest, out),
    }
}

/// Appends the answer to a line; to one that can't be read, or is no command, nothing.
fn write_answer(
    alloc: Global,
    table: &mut PlanTable,
    line: &str,
    out: &mut String,
) -> Result<(), AllocError> {
    if line.is_empty() || line.starts_with("# ") {
        return Ok(());
    }
    let (front, rest) = line.split_once(" | ").unwrap_or((line, ""));
    let (command, words) = front.split_once(' ').unwrap_or((front, ""));
    let numbers = numbers_of(alloc, words);
    let written = out.push_str(" => ").and(write_of_numbers(
        alloc,
        table,
        command,
        numbers.as_slice(),
        rest,
        out,
    ));
    drop(numbers);
    written
}

/// Appends each line with its answer, over one table.
fn write_lines(
    alloc: Global,
    table: &mut PlanTable,
    lines: &str,
    out: &mut String,
) -> Result<(), AllocError> {
    for line in lines.lines() {
        out.push_str(line)
            .and(write_answer(alloc, table, line, out))
            .and(out.push('\n'))?;
    }
    Ok(())
}

/// Appends each line with its answer, where the table is empty at first.
pub(crate) fn write_answers(
    alloc: Global,
    lines: &str,
    out: &mut String,
) -> Result<(), AllocError> {
    let mut table = PlanTable::new(alloc);
    let written = write_lines(alloc, &mut table, lines, out);
    drop(table);
    written
}
