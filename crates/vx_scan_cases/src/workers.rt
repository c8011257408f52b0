//! Scans that are prepared, and run by a worker for each of several sources; books of whole values.

ghost use Rattle.vx_scan.specs.Executes.{CanRun};
ghost use Rattle.vx_scan.specs.Plans.{ArePlans};

use crate::answers::{write_column, write_error};
use crate::builders::set_of;
use crate::chunks::value_of;
use crate::commands::CaseState;
use crate::files::source_of;
use std::alloc::{AllocError, Global};
use std::sync::Wait;
use std::thread::Threads;
use vx_base::ScriptSource;
use vx_plan::PlanRef;
use vx_scan::{Book, ClaimList, Outcome, Piece, Prepared, ValueCache, execute};
use vx_steps::KeptValue;

/// Appends the chunks of a prepared scan.
fn write_chunks(prepared: &Prepared, out: &mut String) -> Result<(), AllocError> {
    for chunk in &prepared.chunks {
        write!(out, " {:?};", chunk.scope.rows)?;
    }
    write!(out, " in order: {}", prepared.ordered)
}

/// Appends the chunks of a scan that is prepared, or why it is refused.
pub(crate) fn write_prepared(
    alloc: Global,
    case_state: CaseState<'_>,
    words: &str,
    out: &mut String,
) -> Result<(), AllocError> {
    match set_of(alloc, case_state, words) {
        Some(builder) => match builder.prepare(alloc) {
            Ok(prepared) => {
                let written = write_chunks(&prepared, out);
                drop(prepared);
                written
            }
            Err(error) => write_error(error, out),
        },
        None => out.push_str(" not set;"),
    }
}

/// Appends the pieces of the chunks.
fn write_pieces(alloc: Global, pieces: &[Piece], out: &mut String) -> Result<(), AllocError> {
    for piece in pieces {
        write!(out, " chunk {}", piece.chunk)?;
        write_column(alloc, &piece.column, out)?;
    }
    Ok(())
}

/// The numbers of the chunks that were claimed, in their order. Those that have no room are left out.
fn claimed_of(alloc: Global, lists: &[ClaimList]) -> Vec<u64> {
    let mut claimed = Vec::new(alloc);
    for list in lists {
        let _joined = claimed.extend_from_slice(list.items()).ok();
    }
    let _sorted = claimed.sort().ok();
    claimed
}

/// Appends the pieces of the chunks, the numbers of the chunks that were claimed, how many ran again, and the error.
pub(crate) fn write_outcome(
    alloc: Global,
    outcome: &Outcome,
    out: &mut String,
) -> Result<(), AllocError> {
    write_pieces(alloc, &outcome.pieces, out)?;
    let claimed = claimed_of(alloc, &outcome.claimed);
    let written = write!(out, " claimed {claimed:?}; {} again;", outcome.reruns.len());
    drop(claimed);
    written?;
    match outcome.error {
        Some(failed) => {
            write!(out, " chunk {}", failed.chunk)?;
            write_error(failed.error, out)
        }
        None => Ok(()),
    }
}

/// Sources of the file, so many, and one at least. Those that have no room are left out.
pub(crate) fn sources_of(
    alloc: Global,
    case_state: CaseState<'_>,
    count: u64,
) -> Vec<ScriptSource> {
    let mut sources = Vec::new(alloc);
    for _source in 0..count.clamp(1, 64) {
        let _pushed = sources
            .push(source_of(alloc, case_state.bytes, case_state.script))
            .ok();
    }
    sources
}

/// Runs a prepared scan over the sources.
fn write_run<R: AllocGlobal + Threads + Wait + Sync>(
    rt: &R,
    prepared: &Prepared,
    sources: &mut [ScriptSource],
    out: &mut String,
) -> Result<(), AllocError>
    requires plans { ArePlans prepared.now.plans }
    requires chunks { CanRun prepared.now.plans prepared.now.chunks.items }
{
    let alloc = rt.alloc();
    if sources.len() == 0 || sources.len() > 64 {
        return Ok(());
    }
    let cache = ValueCache::new(alloc);
    let outcome = execute(
        rt,
        alloc,
        &prepared.plans,
        &prepared.chunks,
        sources,
        &cache,
    );
    drop(cache);
    let written = write_outcome(alloc, &outcome, out);
    drop(outcome);
    written
}

/// Runs a prepared scan over so many sources of the file.
pub(crate) fn write_over<R: AllocGlobal + Threads + Wait + Sync>(
    rt: &R,
    case_state: CaseState<'_>,
    prepared: &Prepared,
    count: u64,
    out: &mut String,
) -> Result<(), AllocError>
    requires plans { ArePlans prepared.now.plans }
    requires chunks { CanRun prepared.now.plans prepared.now.chunks.items }
{
    let mut sources = sources_of(rt.alloc(), case_state, count);
    let written = write_run(rt, prepared, sources.as_mut_slice(), out);
    drop(sources);
    written
}

/// Appends what a prepared scan gives over so many sources.
pub(crate) fn write_executed<R: AllocGlobal + Threads + Wait + Sync>(
    rt: &R,
    case_state: CaseState<'_>,
    words: &str,
    out: &mut String,
) -> Result<(), AllocError> {
    let alloc = rt.alloc();
    let (count, words) = words.split_once(' ').unwrap_or((words, ""));
    let count = count.parse::<u64>().unwrap_or(1);
    match set_of(alloc, case_state, words) {
        Some(builder) => match builder.prepare(alloc) {
            Ok(prepared) => {
                let written = write_over(rt, case_state, &prepared, count, out);
                drop(prepared);
                written
            }
            Err(error) => write_error(error, out),
        },
        None => out.push_str(" not set;"),
    }
}

/// Appends the whole value that a book has for a plan.
fn write_value(
    alloc: Global,
    book: &mut Book,
    node: PlanRef,
    out: &mut String,
) -> Result<(), AllocError> {
    match book.get(node)? {
        Some(column) => {
            let written = write_column(alloc, &column, out);
            drop(column);
            written
        }
        None => out.push_str(" none;"),
    }
}

/// Appends what a step on a book gives: `insert 3 u8: 7` or `get 3`.
fn write_step(
    alloc: Global,
    book: &mut Book,
    step: &str,
    out: &mut String,
) -> Result<(), AllocError> {
    let (command, number) = step.split_once(' ').unwrap_or((step, ""));
    if command == "get" {
        let node = PlanRef(number.parse::<u32>().unwrap_or(0));
        return write_value(alloc, book, node, out);
    }
    match value_of(alloc, step) {
        Some(KeptValue { node, column }) => {
            let kept = book.insert(node, column)?;
            let written = write_column(alloc, &kept, out);
            drop(kept);
            written
        }
        None => Ok(()),
    }
}

/// Appends what the steps on a book give, which stand between ` | `, and how many entries it has then.
fn write_steps(
    alloc: Global,
    book: &mut Book,
    words: &str,
    out: &mut String,
) -> Result<(), AllocError> {
    for step in words.split(" | ") {
        write_step(alloc, book, step, out)?;
    }
    write!(out, " {} entries", book.entries().len())
}

/// Appends what the steps on a new book give, and how many entries it has then.
pub(crate) fn write_book(alloc: Global, words: &str, out: &mut String) -> Result<(), AllocError> {
    let mut book = Book::new(alloc);
    let written = write_steps(alloc, &mut book, words, out);
    drop(book);
    written
}
