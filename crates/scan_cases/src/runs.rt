//! One run over memory.

ghost use Rattle.std.specs.Prelude.{◌<◌, ◌≤◌, length};

use crate::fields::{bytes_of, list, number, words_of};
use scan_commands::run;
use std::alloc::Global;
use std::sync::Wait;
use std::thread::Threads;
use vx_base::{BytesSink, BytesSource, Script, ScriptSource};

/// What a run came to: its status, and the request, the sink and the sources as it left them.
#[derive(Drop)]
pub(crate) struct Ran {
    pub(crate) status: u8,
    pub(crate) request: BytesSource,
    pub(crate) out: BytesSink,
    pub(crate) sources: Vec<ScriptSource>,
}

/// The bytes of a text: what stands behind a `~` is repeated.
pub(crate) fn repeated_bytes(alloc: Global, text: &str, times: usize) -> Vec<u8> {
    let (front, again) = text.split_once('~').unwrap_or((text, ""));
    let mut bytes = bytes_of(alloc, front);
    let again = bytes_of(alloc, again);
    for _time in 0..times {
        let _pushed = bytes.extend_from_slice(&again).ok();
    }
    bytes
}

/// The script of the options.
fn script_of(alloc: Global, options: &str) -> Script {
    Script {
        fail_requests: list(alloc, options, "request_fails"),
        fail_polls: list(alloc, options, "poll_fails"),
        waits: list(alloc, options, "waits"),
        order: list(alloc, options, "order"),
    }
}

/// A source of the file that keeps to the script of the options.
fn source_of(alloc: Global, file: &str, options: &str) -> ScriptSource {
    let (_, text) = file.split_once(' ').unwrap_or((file, ""));
    let bytes = repeated_bytes(alloc, text, number(options, "file_times", 0));
    ScriptSource::new(alloc, bytes, script_of(alloc, options))
}

/// As many sources of the file, each of which keeps to the script.
fn sources_of(alloc: Global, file: &str, options: &str, count: usize) -> Vec<ScriptSource> {
    let mut sources = Vec::new(alloc);
    for _source in 0..count {
        let _pushed = sources.push(source_of(alloc, file, options)).ok();
    }
    sources
}

/// The source of the request, which gives and fails as the options say.
fn request_of(alloc: Global, options: &str, text: &str) -> BytesSource {
    let reads = number(options, "reads", usize::MAX).max(1);
    let bytes = repeated_bytes(alloc, text, number(options, "times", 0));
    BytesSource::new(alloc, bytes, reads, list(alloc, options, "read_fails"))
}

/// The sink, which takes and fails as the options say.
fn sink_of(alloc: Global, options: &str) -> BytesSink {
    let writes = number(options, "writes", usize::MAX).max(1);
    BytesSink::new(alloc, writes, list(alloc, options, "write_fails"))
}

/// Runs the words over all three.
fn run_words<R: AllocGlobal + Threads + Wait + Sync>(
    rt: &R,
    words: &str,
    request: &mut BytesSource,
    sources: &mut [ScriptSource],
    out: &mut BytesSink,
) -> Option<u8> {
    if sources.is_empty() || sources.len() > 64 {
        return None;
    }
    let words = words_of(rt.alloc(), words);
    let status = run(rt, &words, request, sources, out);
    drop(words);
    Some(status)
}

/// Runs a request over so many sources of a file, by words between commas.
pub(crate) fn run_once<R: AllocGlobal + Threads + Wait + Sync>(
    rt: &R,
    file: &str,
    options: &str,
    words: &str,
    count: usize,
    request: &str,
) -> Option<Ran> {
    let alloc = rt.alloc();
    let mut request = request_of(alloc, options, request);
    let mut out = sink_of(alloc, options);
    let mut sources = sources_of(alloc, file, options, count);
    let status = run_words(rt, words, &mut request, sources.as_mut_slice(), &mut out);
    let Some(status) = status else {
        drop(sources);
        drop(out);
        drop(request);
        return None;
    };
    Some(Ran {
        status,
        request,
        out,
        sources,
    })
}
