//! Scans of rows of the demo's file by several workers. What was lent is let go by `drop`, so that the proof
//! takes it apart there alone.

ghost use Rattle.std.specs.Prelude.{◌<◌, ◌≤◌, length};
ghost use Rattle.scan_words.specs.Limits.{most_workers};

use crate::fields::{list, number, option};
use scan_commands::append_column_lines;
use scan_demo::{DemoFile, demo_file};
use std::alloc::Global;
use std::sync::Wait;
use std::thread::Threads;
use vx_base::{Column, Script, ScriptSource};
use vx_scan::{ScanBuilder, ScanError, ScanFile};
use vx_splits::StrictSorted;

/// The script of the last source: at which requests it fails, and at how many polls of each ticket it finds nothing.
fn last_script(alloc: Global, options: &str) -> Script {
    Script {
        fail_requests: list(alloc, options, "request_fails"),
        fail_polls: Vec::new(alloc),
        waits: list(alloc, options, "waits"),
        order: Vec::new(alloc),
    }
}

/// The script of a source that answers at once.
fn plain_script(alloc: Global) -> Script {
    Script {
        fail_requests: Vec::new(alloc),
        fail_polls: Vec::new(alloc),
        waits: Vec::new(alloc),
        order: Vec::new(alloc),
    }
}

/// As many sources of the bytes, of which the last one keeps to the script of the options.
fn sources_of(alloc: Global, bytes: &[u8], count: usize, options: &str) -> Vec<ScriptSource> {
    let mut sources = Vec::new(alloc);
    for place in 0..count {
        let script = if place + 1 == count {
            last_script(alloc, options)
        } else {
            plain_script(alloc)
        };
        let bytes = bytes.to_vec(alloc).unwrap_or(Vec::new(alloc));
        let _pushed = sources.push(ScriptSource::new(alloc, bytes, script)).ok();
    }
    sources
}

/// So many rows from the first on, with a step between them. None where there are no such rows.
fn indices_of(alloc: Global, options: &str) -> Option<StrictSorted> {
    let step = number(options, "step", 1) as u64;
    let mut row = number(options, "first", 0) as u64;
    let mut indices = Vec::new(alloc);
    for _index in 0..number(options, "count", 0) {
        let _pushed = indices.push(row).ok();
        row = row.saturating_add(step);
    }
    StrictSorted::try_new(indices).ok()
}

/// The batches of the rows with these numbers in a range.
fn batches_of<R: Threads + Wait + Sync>(
    rt: &R,
    alloc: Global,
    file: ScanFile,
    indices: StrictSorted,
    options: &str,
    sources: &mut [ScriptSource],
) -> Option<Result<Vec<Column>, ScanError>>
    requires some { 0 < length sources.old }
    requires few { length sources.old ≤ most_workers }
{
    let rows = number(options, "start", 0) as u64..number(options, "end", 0) as u64;
    if file.locations.len() > 1000 {
        drop(indices);
        drop(file);
        return None;
    }
    let Ok(builder) = ScanBuilder::new(alloc, file) else {
        drop(indices);
        return None;
    };
    let builder = builder.with_row_range(rows).with_row_indices(indices);
    Some(builder.into_batches(rt, alloc, sources))
}

/// The lines of all rows, joined.
fn lines_of(alloc: Global, batches: &[Column]) -> String {
    let mut lines = Vec::new(alloc);
    for batch in batches {
        let _appended = append_column_lines(alloc, batch, &mut lines).ok();
    }
    String::from_utf8(lines).unwrap_or(String::new(alloc))
}

/// How many ranges the sources were asked for, a range of several sources once.
fn asked_ranges(alloc: Global, sources: &[ScriptSource]) -> usize {
    let mut asked = Vec::new(alloc);
    for source in sources {
        for range in source.asked() {
            let _pushed = asked.push((range.offset, range.length)).ok();
        }
    }
    let _sorted = asked.sort().ok();
    asked.dedup();
    asked.len()
}

/// What is said of rows that were scanned, and of what was asked for. Where the last source fails or stalls, it is said
/// whether the rows are there and that source did neither.
fn told(
    alloc: Global,
    options: &str,
    segments: usize,
    batches: &[Column],
    sources: &[ScriptSource],
) -> Option<String> {
    let last = sources.last()?;
    let lines = lines_of(alloc, batches);
    if option(options, "request_fails").is_some() {
        return rows_or(alloc, options, &lines, "a read fault", last.faults());
    }
    if option(options, "waits").is_some() {
        return rows_or(alloc, options, &lines, "a stall", last.idle());
    }
    let asked = asked_ranges(alloc, sources);
    let count = batches.len();
    format!(in alloc; "{count} batches, asked {asked} of {segments}, {lines:?}").ok()
}

/// Scans rows of the file over the sources, and says them, or that a read failed or stalled.
fn scanned<R: AllocGlobal + Threads + Wait + Sync>(
    rt: &R,
    file: ScanFile,
    indices: StrictSorted,
    options: &str,
    sources: &mut [ScriptSource],
) -> Option<String> {
    let alloc = rt.alloc();
    if sources.is_empty() || sources.len() > 64 {
        drop(indices);
        drop(file);
        return None;
    }
    let segments = file.locations.len();
    let batches = batches_of(rt, alloc, file, indices, options, sources)?;
    let said = match &batches {
        Ok(batches) => told(alloc, options, segments, batches, sources),
        Err(ScanError::ReadFault) => String::from_str(alloc, "rows or a read fault").ok(),
        Err(ScanError::Stalled) => String::from_str(alloc, "rows or a stall").ok(),
        Err(error) => format!(in alloc; "{error}").ok(),
    };
    drop(batches);
    said
}

/// Scans rows of the demo's file, and says them, and what was asked for. Where the last source fails or stalls, it says
/// whether the rows are there and that source did neither, or that a read failed or stalled.
pub(crate) fn demo_rows<R: AllocGlobal + Threads + Wait + Sync>(
    rt: &R,
    options: &str,
) -> Option<String> {
    let alloc = rt.alloc();
    let rows = number(options, "rows", 0) as u64;
    if rows > 1000000 {
        return None;
    }
    let indices = indices_of(alloc, options)?;
    let Ok(DemoFile { file, bytes }) = demo_file(alloc, rows) else {
        drop(indices);
        return None;
    };
    let mut sources = sources_of(alloc, &bytes, number(options, "sources", 1), options);
    drop(bytes);
    let said = scanned(rt, file, indices, options, sources.as_mut_slice());
    drop(sources);
    said
}

/// What is said of rows over a source that would have failed or stalled, where its count did not rise.
fn rows_or(alloc: Global, options: &str, lines: &String, other: &str, rose: u64) -> Option<String> {
    if rose == 0 && lines.lines().count() == number(options, "count", 0) {
        return format!(in alloc; "rows or {other}").ok();
    }
    format!(in alloc; "neither, {rose} times, {lines:?}").ok()
}
