//! The commands.

use crate::drives::{write_announced, write_three};
use crate::fields::{place_of, ranges_of};
use crate::many::write_many;
use crate::sessions::write_session;
use crate::sources::source_of;
use crate::texts::write_text;
use std::alloc::{AllocError, Global};

/// The segment that has a range of these.
fn write_found(
    alloc: Global,
    ranges: &str,
    word: &str,
    out: &mut String,
) -> Result<(), AllocError> {
    let at = place_of(word);
    match ranges_of(alloc, ranges)?.find(at.offset, at.length) {
        Some(segment) => write!(out, "{segment}"),
        None => out.push_str("none"),
    }
}

/// What commands over a source of a script gave, and what it was asked.
fn write_asked(
    alloc: Global,
    command: &str,
    script: &str,
    ranges: &str,
    words: &str,
    out: &mut String,
) -> Result<(), AllocError> {
    let ranges = ranges_of(alloc, ranges)?;
    let mut source = source_of(alloc, script)?;
    let written = match command {
        "session" => write_session(alloc, &mut source, &ranges, words, out),
        "announced" => write_announced(alloc, &mut source, &ranges, words, out),
        "drive" => write_three(alloc, &mut source, &ranges, words, out),
        _ => Ok(()),
    };
    drop(source);
    drop(ranges);
    written
}

/// Appends the answer to a line.
fn write_answer(alloc: Global, line: &str, out: &mut String) -> Result<(), AllocError> {
    let (command, rest) = line.split_once(' ').unwrap_or((line, ""));
    let (script, rest) = rest.split_once('|').unwrap_or((rest, ""));
    let (ranges, words) = rest.split_once('|').unwrap_or((rest, ""));
    match command {
        "text" => write_text(script, out),
        "many" => write_many(alloc, script.parse::<u16>().unwrap_or(0), out),
        "find" => write_found(alloc, ranges, words.trim(), out),
        _ => write_asked(alloc, command, script, ranges, words.trim(), out),
    }
}

/// Appends each line with its answer.
pub(crate) fn write_answers(
    alloc: Global,
    lines: &str,
    out: &mut String,
) -> Result<(), AllocError> {
    for line in lines.lines() {
        out.push_str(line)?;
        if !line.is_empty() && !line.starts_with("# ") {
            out.push_str(" => ")?;
            write_answer(alloc, line, out)?;
        }
        out.push('\n')?;
    }
    Ok(())
}
