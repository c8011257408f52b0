//! Runs over sources whose reads wait at a gate. What was lent is let go by `drop`, so that the proof
//! takes it apart there alone.

ghost use Rattle.std.specs.Prelude.{◌<◌, ◌≤◌, length};

use crate::fields::{list, number, option, words_of};
use crate::runs::repeated_bytes;
use scan_commands::{run, status_text};
use std::alloc::Global;
use std::sync::{Arc, Wait};
use std::thread::Threads;
use vx_base::{BytesSink, BytesSource, Gate, GateSource};

/// A source of the bytes at the gate.
fn gate_source(
    alloc: Global,
    bytes: &[u8],
    gate: &Arc<Gate>,
    adds: u64,
    waits: bool,
) -> Option<GateSource> {
    let gate = Arc::try_clone(gate).ok()?;
    let bytes = bytes.to_vec(alloc).unwrap_or(Vec::new(alloc));
    Some(GateSource::new(alloc, bytes, gate, adds, waits))
}

/// Adds a source for each of the first numbers, which are what it adds; it waits where its second number is 1.
fn push_sources(
    alloc: Global,
    bytes: &[u8],
    gate: &Arc<Gate>,
    adds: &[u64],
    waits: &[u64],
    sources: &mut Vec<GateSource>,
) -> Option<()> {
    for (place, adds) in adds.iter().enumerate() {
        let source = gate_source(alloc, bytes, gate, *adds, waits.get(place) == Some(&1))?;
        sources.push(source).ok()?;
    }
    Some(())
}

/// Sources of the file at one gate, which opens at the wanted number of requests. Each adds so many requests as its place
/// in the first list says, and waits where its place in the second has 1. What has no room is left out.
fn gated(alloc: Global, file: &str, options: &str) -> Option<Vec<GateSource>> {
    let (_, text) = file.split_once(' ').unwrap_or((file, ""));
    let gate = Gate::new(alloc, number(options, "wanted", 0) as u64).ok()?;
    let mut sources = Vec::new(alloc);
    let adds = list(alloc, options, "adds");
    let waits = list(alloc, options, "waits");
    let bytes = repeated_bytes(alloc, text, number(options, "file_times", 0));
    let _pushed = push_sources(alloc, &bytes, &gate, &adds, &waits, &mut sources);
    drop(gate);
    Some(sources)
}

/// Runs a request over sources, and says its status and how much it wrote.
fn run_gated<R: AllocGlobal + Threads + Wait + Sync>(
    rt: &R,
    options: &str,
    request: &str,
    sources: &mut [GateSource],
) -> Option<String> {
    if sources.is_empty() || sources.len() > 64 {
        return None;
    }
    let alloc = rt.alloc();
    let words = words_of(alloc, option(options, "words")?);
    let bytes = repeated_bytes(alloc, request, 0);
    let mut request = BytesSource::new(alloc, bytes, usize::MAX, Vec::new(alloc));
    let mut out = BytesSink::new(alloc, usize::MAX, Vec::new(alloc));
    let status = run(rt, &words, &mut request, sources, &mut out);
    let text = status_text(status);
    let count = out.written().len();
    drop(out);
    drop(request);
    drop(words);
    format!(in alloc; "{status} {text}, wrote {count} bytes").ok()
}

/// Runs a request over sources at a gate, and says its status and how much it wrote.
pub(crate) fn gate_outcome<R: AllocGlobal + Threads + Wait + Sync>(
    rt: &R,
    file: &str,
    options: &str,
    request: &str,
) -> Option<String> {
    let mut sources = gated(rt.alloc(), file, options)?;
    let outcome = run_gated(rt, options, request, sources.as_mut_slice());
    drop(sources);
    outcome
}
