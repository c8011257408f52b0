//! One run of the program: words, request, sources and output in, a status out.

ghost use Rattle.std.specs.Prelude.{◌≡◌, ◌<◌, ◌≤◌, length, map, string_bytes, IsTrue};
ghost use Rattle.scan_words.specs.Bounds.{IsWithinBounds};
ghost use Rattle.scan_words.specs.Limits.{most_workers};
ghost use Rattle.scan_words.specs.Words.{command_of};
ghost use Rattle.vx_split_rules.specs.Rules.{IsZeroSize};
ghost use Rattle.scan_commands.specs.Commanded.{have_sources, workers_of, Obeys, ReadsFirst, Runs, ScansBy};

use crate::demo_runs::demonstrate;
use crate::plan_runs::draw;
use crate::read_runs::read;
use crate::scan_runs::serve;
use crate::statuses::{OUT_OF_MEMORY, USAGE};
use scan_words::{Command, WordsError, words_of};
use std::alloc::Global;
use std::sync::Wait;
use std::thread::Threads;
use vx_base::{SegmentSource, Sink, Source};
use vx_split_rules::SplitBy;

/// How many workers a scan has where no number is said.
const DEFAULT_WORKERS: usize = 4;

/// Runs the words of a command line. `scan` reads the request, scans the sources for its rows by a worker for each of the
/// first so many, and writes a line for each; `read` reads the rows by the layout's readers, from the first source; `tree`
/// writes the plan of a request; `demo` writes the summary of a made file. The answer is a status of docs/ANSWERS.md:
/// [`USAGE`] for words of no command, and for a scan by more workers than there are sources. Output is written only once
/// all of it is known but for the writing, so that a fault before writes nothing; a fault while writing leaves a front of
/// it.
pub fn run<R: AllocGlobal + Threads + Wait + Sync, Q: Source, S: SegmentSource + Send, K: Sink>(
    rt: &R,
    words: &[String],
    request: &mut Q,
    sources: &mut [S],
    out: &mut K,
) -> u8
    requires some { 0 < length sources.old }
    requires few { length sources.old ≤ most_workers }
    ensures { Runs (command_of (map string_bytes words.now)) result
        (record { request = Q.state request.old; sources = map S.state sources.old; sink = K.state out.old })
        (record { request = Q.state request.new; sources = map S.state sources.new; sink = K.state out.new }) }
{
    match words_of(rt.alloc(), words) {
        Ok(command) => obey(rt, &command, request, sources, out),
        Err(WordsError::Usage) => USAGE,
        Err(WordsError::Memory) => OUT_OF_MEMORY,
    }
}

/// Does what a command asks.
fn obey<R: AllocGlobal + Threads + Wait + Sync, Q: Source, S: SegmentSource + Send, K: Sink>(
    rt: &R,
    command: &Command,
    request: &mut Q,
    sources: &mut [S],
    out: &mut K,
) -> u8
    requires some { 0 < length sources.old }
    requires bounds { IsWithinBounds command.now }
    ensures { Obeys command.now result
        (record { request = Q.state request.old; sources = map S.state sources.old; sink = K.state out.old })
        (record { request = Q.state request.new; sources = map S.state sources.new; sink = K.state out.new }) }
{
    match command {
        Command::Scan { workers, idle, .. } => {
            if !are_enough(sources.len(), *workers) {
                return USAGE;
            }
            let workers = worker_count(sources.len(), *workers);
            scan_by(rt, workers, *idle, request, sources, out)
        }
        Command::Read { split, idle, .. } => {
            read_by(rt.alloc(), split, *idle, request, sources, out)
        }
        Command::Tree { .. } => draw(rt.alloc(), request, out).status(),
        Command::Demo { number } => demonstrate(rt, *number, out).status(),
    }
}

/// Whether so many sources are enough for the workers.
fn are_enough(sources: usize, workers: Option<u64>) -> bool
    ensures { result ≡ have_sources workers sources }
{
    match workers {
        Some(workers) => workers <= sources as u64,
        None => true,
    }
}

/// How many workers serve: the number that is said, else four, or as many as there are sources where those are fewer.
fn worker_count(sources: usize, workers: Option<u64>) -> usize
    requires { IsTrue (have_sources workers sources) }
    ensures workers { result ≡ workers_of workers sources }
    ensures sources { result ≤ sources }
{
    match workers {
        Some(workers) => workers as usize,
        None => sources.min(DEFAULT_WORKERS),
    }
}

/// Serves the request from the first so many sources, and leaves the others alone.
fn scan_by<R: AllocGlobal + Threads + Wait + Sync, Q: Source, S: SegmentSource + Send, K: Sink>(
    rt: &R,
    workers: usize,
    idle_limit: u64,
    request: &mut Q,
    sources: &mut [S],
    out: &mut K,
) -> u8
    requires limit { 0 < idle_limit }
    requires some { 0 < workers }
    requires few { workers ≤ most_workers }
    requires sources { workers ≤ length sources.old }
    ensures { ScansBy workers idle_limit result
        (record { request = Q.state request.old; sources = map S.state sources.old; sink = K.state out.old })
        (record { request = Q.state request.new; sources = map S.state sources.new; sink = K.state out.new }) }
{
    let (own, _others) = sources.split_at_mut(workers);
    serve(rt, idle_limit, request, own, out).status()
}

/// Reads the rows of the request from the first source, and leaves the others alone.
fn read_by<Q: Source, S: SegmentSource, K: Sink>(
    alloc: Global,
    split: &SplitBy,
    idle_limit: u64,
    request: &mut Q,
    sources: &mut [S],
    out: &mut K,
) -> u8
    requires limit { 0 < idle_limit }
    requires sized { IsZeroSize split.now → ⊥ }
    requires some { 0 < length sources.old }
    ensures { ReadsFirst idle_limit result
        (record { request = Q.state request.old; sources = map S.state sources.old; sink = K.state out.old })
        (record { request = Q.state request.new; sources = map S.state sources.new; sink = K.state out.new }) }
{
    read(alloc, split, idle_limit, request, &mut sources[0], out).status()
}
