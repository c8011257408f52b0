//! The commands.

use crate::big::write_big;
use crate::case_states::{CaseState, new_case_state};
use crate::codings::write_of_codings;
use crate::column_calls::write_of_columns;
use crate::dtype_calls::write_of_dtypes;
use crate::errors::write_error;
use crate::fields::write_bytes;
use crate::row_reads::write_of_rows;
use crate::segments::write_segment;
use crate::sources::{
    set_memory, set_script, write_counts, write_fetched, write_forgotten, write_poll,
    write_requested,
};
use crate::streams::{set_sink, set_stream, write_next, write_taken};
use std::alloc::{AllocError, Global};
use vx_base::SegmentSource;

/// Appends the answer to a command that asks.
fn write_answer(
    alloc: Global,
    case_state: &mut CaseState,
    command: &str,
    rest: &str,
    out: &mut String,
) -> Result<(), AllocError> {
    out.push_str(" => ")?;
    match command {
        "read" => write_segment(alloc, rest, out),
        "read_as" | "spell" | "spell_runs" => write_of_codings(alloc, command, rest, out),
        "read_rows" | "read_chosen" => write_of_rows(alloc, command, rest, out),
        "dtype" | "same_dtype" | "kind" | "find" | "field" | "field_count" => {
            write_of_dtypes(alloc, command, rest, out)
        }
        "fetch" => write_fetched(&mut case_state.memory, rest, out),
        "forget" => write_forgotten(&mut case_state.memory, rest, out),
        "asked" => {
            let memory = &case_state.memory;
            write_counts(memory.faults(), memory.idle(), memory.asked(), out)
        }
        "request" => write_requested(&mut case_state.script, rest, out),
        "poll" => write_poll(&mut case_state.script, rest, out),
        "counts" => {
            let script = &case_state.script;
            write_counts(script.faults(), script.idle(), script.asked(), out)
        }
        "next" => write_next(&mut case_state.stream, rest, out),
        "put" => write_taken(alloc, &mut case_state.sink, rest, out),
        "written" => write_bytes(case_state.sink.written(), out),
        "error" => write_error(rest, out),
        "big" => write_big(alloc, rest, out),
        _ => write_of_columns(alloc, &mut case_state.column, command, rest, out),
    }
}

/// Does what a line sets, or appends the answer to it.
fn write_line(
    alloc: Global,
    case_state: &mut CaseState,
    line: &str,
    out: &mut String,
) -> Result<(), AllocError> {
    let (command, rest) = line.split_once(' ').unwrap_or((line, ""));
    match command {
        "" | "#" => (),
        "memory" => set_memory(alloc, &mut case_state.memory, rest),
        "script" => set_script(alloc, &mut case_state.script, rest),
        "stream" => set_stream(alloc, &mut case_state.stream, rest),
        "sink" => set_sink(alloc, &mut case_state.sink, rest),
        "clear" => case_state.script.clear(),
        _ => return write_answer(alloc, case_state, command, rest, out),
    }
    Ok(())
}

/// Appends each line with its answer, over what is set so far.
fn write_all(
    alloc: Global,
    case_state: &mut CaseState,
    lines: &str,
    out: &mut String,
) -> Result<(), AllocError> {
    for line in lines.lines() {
        out.push_str(line)
            .and(write_line(alloc, case_state, line, out))
            .and(out.push('\n'))?;
    }
    Ok(())
}

/// Appends each line with its answer.
pub(crate) fn write_answers(
    alloc: Global,
    lines: &str,
    out: &mut String,
) -> Result<(), AllocError> {
    let mut case_state = new_case_state(alloc)?;
    let written = write_all(alloc, &mut case_state, lines, out);
    drop(case_state);
    written
}
