//! The commands, over one file.

use crate::answers::write_text;
use crate::filters::write_filter;
use crate::readers::write_on_file;
use crate::rules::{write_range, write_rows};
use std::alloc::{AllocError, Global};

/// The file in words: the nodes of its tree, where its segments lie, its bytes, and the script that its source keeps
/// to; the expression over its rows; and how often a state is polled at most.
#[derive(Clone, Copy)]
pub(crate) struct CaseState<'a> {
    pub(crate) nodes: &'a str,
    pub(crate) places: &'a str,
    pub(crate) bytes: &'a str,
    pub(crate) script: &'a str,
    pub(crate) expression: &'a str,
    pub(crate) limit: u64,
}

/// Keeps what a line says of the file. A new tree has no script, and its expression is the root.
fn set<'a>(case_state: &mut CaseState<'a>, command: &str, words: &'a str) {
    match command {
        "tree" => {
            case_state.nodes = words;
            case_state.script = "";
            case_state.expression = "";
        }
        "at" => case_state.places = words,
        "file" => case_state.bytes = words,
        "script" => case_state.script = words,
        "over" => case_state.expression = words,
        "limit" => case_state.limit = words.parse::<u64>().unwrap_or(0),
        _ => {}
    }
}

/// Appends the answer to a line.
fn write_answer(
    alloc: Global,
    case_state: CaseState<'_>,
    command: &str,
    words: &str,
    out: &mut String,
) -> Result<(), AllocError> {
    match command {
        "at" | "file" | "script" | "over" | "limit" => Ok(()),
        "range" => write_range(words, out),
        "rows" => write_rows(alloc, words, out),
        "error" => write_text(words, out),
        "sparse" | "dense" | "either" | "pushed" => {
            write_filter(alloc, case_state.expression, command, words, out)
        }
        _ => write_on_file(alloc, case_state, command, words, out),
    }
}

/// Appends each line with its answer.
pub(crate) fn write_lines(alloc: Global, lines: &str, out: &mut String) -> Result<(), AllocError> {
    let mut case_state = CaseState {
        nodes: "",
        places: "",
        bytes: "",
        script: "",
        expression: "",
        limit: 1000,
    };
    for line in lines.lines() {
        out.push_str(line)?;
        if !line.is_empty() && !line.starts_with("# ") {
            out.push_str(" =>")?;
            let (command, words) = line.split_once(' ').unwrap_or((line, ""));
            set(&mut case_state, command, words);
            write_answer(alloc, case_state, command, words, out)?;
        }
        out.push('\n')?;
    }
    Ok(())
}
