//! The commands. What was lent is let go by `drop`, so that the proof takes it apart there alone.

use crate::case_states::CaseState;
use crate::errors::{write_error, write_refusal};
use crate::filters::{bound_of, write_new_filter, write_of_filter};
use crate::queries::write_told;
use std::alloc::{AllocError, Global};
use std::mem::replace;
use vx_expr::{BindError, BoundExpression};
use vx_notation::dtype_of;

/// The expression that is bound to a dtype; a dtype that can't be read is want of memory.
fn rebound(
    alloc: Global,
    before: &BoundExpression,
    dtype: &str,
) -> Result<BoundExpression, BindError> {
    match dtype_of(alloc, dtype) {
        Ok(dtype) => {
            let bound = before.rebind(alloc, &dtype);
            drop(dtype);
            bound
        }
        Err(_) => Err(BindError::Memory),
    }
}

/// The expression that the command sets.
fn made(
    alloc: Global,
    case_state: &CaseState,
    command: &str,
    rest: &str,
) -> Result<BoundExpression, BindError> {
    let before = &case_state.expression;
    match command {
        "as_root" if before.uses_root() => Err(BindError::Memory),
        "as_root" => Ok(before.row_idx_as_root(alloc)?),
        "over_row_idx" => Ok(before.over_row_idx(alloc)?),
        "rebind" => rebound(alloc, before, rest),
        _ => bound_of(alloc, case_state.rows.dtype(), rest),
    }
}

/// The answer to a command about an expression, which is kept.
fn write_asked(
    alloc: Global,
    case_state: &mut CaseState,
    command: &str,
    rest: &str,
    out: &mut String,
) -> Result<(), AllocError> {
    match made(alloc, case_state, command, rest) {
        Ok(bound) => {
            drop(replace(&mut case_state.expression, bound));
            write_told(alloc, case_state, command, rest, out)
        }
        Err(error) => {
            let written = write_refusal(&error, out);
            drop(error);
            written
        }
    }
}

/// The answer to a question.
fn write_answer(
    alloc: Global,
    case_state: &mut CaseState,
    command: &str,
    rest: &str,
    out: &mut String,
) -> Result<(), AllocError> {
    out.push_str(" => ")?;
    match command {
        "error" => write_error(alloc, rest, out),
        "filter" => write_new_filter(alloc, case_state, rest, out),
        "report" | "next" | "is_dynamic" => {
            write_of_filter(alloc, &mut case_state.filter, command, rest, out)
        }
        "takes" => write_told(alloc, case_state, command, rest, out),
        "as_root" | "over_row_idx" => write_asked(alloc, case_state, command, rest, out),
        _ if rest.is_empty() => write_told(alloc, case_state, command, rest, out),
        _ => write_asked(alloc, case_state, command, rest, out),
    }
}

/// Sets the root itself as the expression.
fn set_root(alloc: Global, case_state: &mut CaseState) -> Result<(), AllocError> {
    let root = BoundExpression::new_root(alloc, case_state.rows.dtype().copy(alloc)?)?;
    drop(replace(&mut case_state.expression, root));
    Ok(())
}

/// Does what a line sets, or appends the answer to it.
fn write_line(
    alloc: Global,
    case_state: &mut CaseState,
    line: &str,
    out: &mut String,
) -> Result<(), AllocError> {
    let (command, rest) = line.split_once(' ').unwrap_or((line, ""));
    match command {
        "" | "#" => Ok(()),
        "root" | "rows" | "runs" | "count" => case_state.set_rows(alloc, command, rest),
        "from" => {
            case_state.first_row = rest.parse::<u64>().unwrap_or(0);
            Ok(())
        }
        "new_root" => set_root(alloc, case_state),
        _ => write_answer(alloc, case_state, command, rest, out),
    }
}

/// Appends each line with its answer.
fn write_lines(
    alloc: Global,
    case_state: &mut CaseState,
    lines: &str,
    out: &mut String,
) -> Result<(), AllocError> {
    for line in lines.lines() {
        out.push_str(line)?;
        write_line(alloc, case_state, line, out)?;
        out.push('\n')?;
    }
    Ok(())
}

/// Appends each line with its answer, where nothing is set at first.
pub(crate) fn write_answers(
    alloc: Global,
    lines: &str,
    out: &mut String,
) -> Result<(), AllocError> {
    let mut case_state = CaseState::new(alloc)?;
    let written = write_lines(alloc, &mut case_state, lines, out);
    drop(case_state);
    written
}
