//! The commands.

use crate::case_states::CaseState;
use crate::queries::{write_error, write_proof, write_pruned, write_table};
use std::alloc::{AllocError, Global};

/// The answer to a question.
fn write_answer(
    alloc: Global,
    case_state: &CaseState,
    command: &str,
    rest: &str,
    out: &mut String,
) -> Result<(), AllocError> {
    out.push_str(" => ")?;
    match command {
        "zones" | "runs" | "empty" => write_table(alloc, case_state, out),
        "proof" => write_proof(alloc, case_state, rest, out),
        "prune" => write_pruned(alloc, case_state, rest, out),
        "error" => write_error(rest, out),
        _ => Ok(()),
    }
}

/// Does what a line sets.
fn set(
    alloc: Global,
    case_state: &mut CaseState,
    command: &str,
    rest: &str,
) -> Result<(), AllocError> {
    match command {
        "of" => case_state.set_dtype(alloc, rest),
        "stats" => case_state.set_stats(alloc, rest),
        "zones" | "runs" => case_state.set_zones(alloc, command == "runs", rest),
        "empty" => case_state.set_empty(alloc, rest),
        _ => Ok(()),
    }
}

/// Does what a line sets, and appends the answer to it.
fn write_line(
    alloc: Global,
    case_state: &mut CaseState,
    line: &str,
    out: &mut String,
) -> Result<(), AllocError> {
    let (command, rest) = line.split_once(' ').unwrap_or((line, ""));
    set(alloc, case_state, command, rest)?;
    match command {
        "" | "#" | "of" | "stats" => Ok(()),
        _ => write_answer(alloc, case_state, command, rest, out),
    }
}

/// Appends each line with its answer.
fn write_lines(
    alloc: Global,
    case_state: &mut CaseState,
    lines: &str,
    out: &mut String,
) -> Result<(), AllocError> {
    for line in lines.lines() {
        out.push_str(line)?;
        write_line(alloc, case_state, line, out)?;
        out.push('\n')?;
    }
    Ok(())
}

/// Appends each line with its answer, where nothing is set at first.
pub(crate) fn write_answers(
    alloc: Global,
    lines: &str,
    out: &mut String,
) -> Result<(), AllocError> {
    let mut case_state = CaseState::new(alloc)?;
    let written = write_lines(alloc, &mut case_state, lines, out);
    drop(case_state);
    written
}
