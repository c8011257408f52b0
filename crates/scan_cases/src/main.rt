//! Cases of the commands: reads a command a line, and prints the line with its answer.
//!
//! A line that has no answer is printed as it is. The commands stand in `README.md`.
#![tactic(auto)]

mod demo_scans;
mod fields;
mod gates;
mod outcomes;
mod runs;

use demo_scans::demo_rows;
use gates::gate_outcome;
use outcomes::outcome;
use scan_commands::{RequestError, status_text};
use scan_words::WordsError;
use std::alloc::{AllocError, Global};
use std::io;
use std::sync::Wait;
use std::thread::Threads;
use vx_expr::BindError;

fn main(rt: HostRuntime) -> io::Result<()> {
    let alloc = rt.alloc();
    let lines = io::read_to_string(alloc, rt.reader())?;
    let mut out = String::new(alloc);
    let _all = write_lines(&rt, lines.as_str(), &mut out);
    print!(rt; "{out}")
}

/// What the lines have set: the line `file`, which tells the file of those below it.
#[derive(Clone, Copy)]
struct CaseState<'a> {
    file: &'a str,
}

/// Keeps the line that tells the file.
fn set<'a>(case_state: &mut CaseState<'a>, line: &'a str) {
    if line.starts_with("file ") {
        case_state.file = line;
    }
}

/// Appends each line with its answer.
fn write_lines<R: AllocGlobal + Threads + Wait + Sync>(
    rt: &R,
    lines: &str,
    out: &mut String,
) -> Result<(), AllocError> {
    let mut case_state = CaseState { file: "" };
    for line in lines.lines() {
        set(&mut case_state, line);
        out.push_str(line)
            .and(write_answer(rt, case_state, line, out))
            .and(out.push('\n'))?;
    }
    Ok(())
}

/// Appends the answer to a line that has one.
fn write_answer<R: AllocGlobal + Threads + Wait + Sync>(
    rt: &R,
    case_state: CaseState<'_>,
    line: &str,
    out: &mut String,
) -> Result<(), AllocError> {
    match answer(rt, case_state.file, line) {
        Some(answer) => write!(out, " => {answer}"),
        None => Ok(()),
    }
}

/// The error of a request of that name; any other name is want of memory.
fn request_error(name: &str) -> RequestError {
    match name {
        "bad_request" => RequestError::BadRequest,
        "bad_layout" => RequestError::BadLayout { node: 3, rule: 7 },
        "bad_projection" => RequestError::BadProjection(BindError::TooDeep),
        _ => RequestError::Memory,
    }
}

/// Appends the text of the error of that name.
fn write_error(name: &str, out: &mut String) -> Result<(), AllocError> {
    match name {
        "usage" => write!(out, "{}", WordsError::Usage),
        "words_memory" => write!(out, "{}", WordsError::Memory),
        _ => {
            let error = request_error(name);
            let written = write!(out, "{error}");
            drop(error);
            written
        }
    }
}

/// The text of the error of that name.
fn error_text(alloc: Global, name: &str) -> Option<String> {
    let mut text = String::new(alloc);
    write_error(name, &mut text).ok().and(Some(text))
}

/// The answer to a line that has one, where the line `file` tells the file.
fn answer<R: AllocGlobal + Threads + Wait + Sync>(
    rt: &R,
    file: &str,
    line: &str,
) -> Option<String> {
    let (command, rest) = line.split_once(' ')?;
    match command {
        "run" => {
            let (options, request) = rest.split_once('|')?;
            outcome(rt, file, options, request.trim())
        }
        "gate" => {
            let (options, request) = rest.split_once('|')?;
            gate_outcome(rt, file, options, request.trim())
        }
        "demo_rows" => demo_rows(rt, rest),
        "error" => error_text(rt.alloc(), rest),
        "status" => {
            let status = rest.parse::<u8>().ok()?;
            String::from_str(rt.alloc(), status_text(status)).ok()
        }
        _ => None,
    }
}
