//! The commands, over one file.

use crate::adaptors::write_adaptor;
use crate::answers::write_text;
use crate::caches::write_cache;
use crate::chunks::write_chunk;
use crate::runs::{write_lent, write_run};
use crate::scans::{write_dtype, write_scan, write_selected};
use crate::shares::write_shared;
use crate::trees::write_plan;
use crate::values::{write_asks, write_values};
use crate::workers::{write_book, write_executed, write_prepared};
use std::alloc::AllocError;
use std::sync::Wait;
use std::thread::Threads;

/// The file in words: the nodes of its tree, where its segments lie, its bytes, and the script that its source keeps
/// to; how often that may answer that a read goes on; how many rows of a scan are read at most, where a number is said; and
/// the predicate by which zones are pruned, where one is said.
#[derive(Clone, Copy)]
pub(crate) struct CaseState<'a> {
    pub(crate) nodes: &'a str,
    pub(crate) places: &'a str,
    pub(crate) bytes: &'a str,
    pub(crate) script: &'a str,
    pub(crate) limit: u64,
    pub(crate) most: &'a str,
    pub(crate) predicate: &'a str,
}

/// Keeps what a line says of the file.
fn set<'a>(case_state: &mut CaseState<'a>, command: &str, words: &'a str) {
    match command {
        "tree" => {
            case_state.nodes = words;
            case_state.predicate = "";
        }
        "prune" => case_state.predicate = words,
        "at" => case_state.places = words,
        "file" => case_state.bytes = words,
        "script" => case_state.script = words,
        "limit" => case_state.limit = words.parse::<u64>().unwrap_or(0),
        "most" => case_state.most = words,
        _ => {}
    }
}

/// Appends the answer to a line.
fn write_answer<R: AllocGlobal + Threads + Wait + Sync>(
    rt: &R,
    case_state: CaseState<'_>,
    command: &str,
    words: &str,
    out: &mut String,
) -> Result<(), AllocError> {
    let alloc = rt.alloc();
    match command {
        "at" | "file" | "script" | "limit" | "most" => Ok(()),
        "tree" => write_plan(alloc, case_state, "no tree", out),
        "prune" => write_plan(alloc, case_state, "none", out),
        "dtype" => write_dtype(alloc, case_state, out),
        "scan" => write_scan(rt, case_state, out),
        "select" => write_selected(rt, case_state, words, out),
        "chunk" => write_chunk(alloc, case_state, words, out),
        "asks" => write_asks(alloc, case_state, words, out),
        "values" => write_values(alloc, case_state, words, out),
        "prepare" => write_prepared(alloc, case_state, words, out),
        "execute" => write_executed(rt, case_state, words, out),
        "share" => write_shared(rt, case_state, words, out),
        "run" => write_run(rt, case_state, words, out),
        "lend" => write_lent(rt, case_state, words, out),
        "book" => write_book(alloc, words, out),
        "cache" => write_cache(rt, words, out),
        "adaptor" => write_adaptor(alloc, case_state, words, out),
        "error" => write_text(words, out),
        _ => out.push_str(" no command"),
    }
}

/// Appends each line with its answer.
pub(crate) fn write_lines<R: AllocGlobal + Threads + Wait + Sync>(
    rt: &R,
    lines: &str,
    out: &mut String,
) -> Result<(), AllocError> {
    let mut case_state = CaseState {
        nodes: "",
        places: "",
        bytes: "",
        script: "",
        limit: 1000000,
        most: "",
        predicate: "",
    };
    for line in lines.lines() {
        out.push_str(line)?;
        if !line.is_empty() && !line.starts_with("# ") {
            out.push_str(" =>")?;
            let (command, words) = line.split_once(' ').unwrap_or((line, ""));
            set(&mut case_state, command, words);
            write_answer(rt, case_state, command, words, out)?;
        }
        out.push('\n')?;
    }
    Ok(())
}
