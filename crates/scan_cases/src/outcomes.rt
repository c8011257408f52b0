//! A run over memory, and what it left behind. What was lent is let go by `drop`, so that the proof
//! takes it apart there alone.

use crate::fields::{number, option};
use crate::runs::{Ran, run_once};
use scan_commands::status_text;
use std::alloc::{AllocError, Global};
use std::sync::Wait;
use std::thread::Threads;
use vx_base::ScriptSource;

/// Appends what came of a run; where it isn't the same by several workers, it is said so.
fn write_outcome<R: AllocGlobal + Threads + Wait + Sync>(
    rt: &R,
    file: &str,
    options: &str,
    request: &str,
    first: &Ran,
    out: &mut String,
) -> Option<()> {
    write_report(rt.alloc(), options, first, out).ok()?;
    if !has_own(options) && !is_same(rt, file, options, request, first)? {
        out.push_str("; but not by several workers").ok()?;
    }
    Some(())
}

/// Runs a request over sources of a file, and says what came of it.
pub(crate) fn outcome<R: AllocGlobal + Threads + Wait + Sync>(
    rt: &R,
    file: &str,
    options: &str,
    request: &str,
) -> Option<String> {
    let words = option(options, "words").unwrap_or("scan,s,r");
    let count = number(options, "sources", 1);
    let first = run_once(rt, file, options, words, count, request)?;
    let mut out = String::new(rt.alloc());
    let written = write_outcome(rt, file, options, request, &first, &mut out);
    drop(first);
    written.and(Some(out))
}

/// Whether the line has words of its own, or says what its source does: such a line isn't run by several workers besides.
fn has_own(options: &str) -> bool {
    for word in options.split_whitespace() {
        let (name, _) = word.split_once('=').unwrap_or((word, ""));
        if !matches!(
            name,
            "reads" | "writes" | "file_times" | "brief" | "write_fails" | "read_fails"
        ) {
            return true;
        }
    }
    false
}

/// Whether the run comes to the same with one, two and four workers, ordered and not.
fn is_same<R: AllocGlobal + Threads + Wait + Sync>(
    rt: &R,
    file: &str,
    options: &str,
    request: &str,
    first: &Ran,
) -> Option<bool> {
    for words in [
        "scan,s,r,--workers,1,--unordered",
        "scan,s,r,--workers,2",
        "scan,s,r,--workers,2,--unordered",
        "scan,s,r,--workers,4",
        "scan,s,r,--unordered",
    ] {
        let again = run_once(rt, file, options, words, 4, request)?;
        let is_same = again.status == first.status && again.out.written() == first.out.written();
        drop(again);
        if !is_same {
            return Some(false);
        }
    }
    Some(true)
}

/// Appends what was written, whole.
fn write_whole(written: &[u8], out: &mut String) -> Result<(), AllocError> {
    let lines = str::from_utf8(written).unwrap_or("no text");
    write!(out, "{lines:?}")
}

/// Appends how many bytes were written, and the sum of them.
fn write_brief(written: &[u8], out: &mut String) -> Result<(), AllocError> {
    let count = written.len();
    let mut sum: u64 = 0;
    for byte in written {
        sum = sum.wrapping_add(u64::from(*byte));
    }
    write!(out, "{count} bytes of sum {sum}")
}

/// Appends the status, what was written, the faults of the request and of the sink, and what the sources were asked.
fn write_report(
    alloc: Global,
    options: &str,
    ran: &Ran,
    out: &mut String,
) -> Result<(), AllocError> {
    let written = ran.out.written();
    let (request, sink) = (ran.request.faults(), ran.out.faults());
    write!(out, "{} {}, wrote ", ran.status, status_text(ran.status))?;
    match option(options, "brief") {
        Some(_) => write_brief(written, out)?,
        None => write_whole(written, out)?,
    }
    write!(out, ", faults {request} {sink}")?;
    match option(options, "together") {
        Some(_) => write_together(alloc, &ran.sources, out),
        None => write_each(&ran.sources, out),
    }
}

/// Appends of each source the ranges that it was asked for, its faults, and how often a poll found nothing.
fn write_each(sources: &[ScriptSource], out: &mut String) -> Result<(), AllocError> {
    for source in sources {
        let (asked, faults, idle) = (source.asked(), source.faults(), source.idle());
        write!(out, "; asked {asked:?}, faults {faults}, idle {idle}")?;
    }
    Ok(())
}

/// Appends the ranges that all sources together were asked for, in the order of their offsets, and all faults: what does
/// not hang on which worker came first. What has no room is left out.
fn write_together(
    alloc: Global,
    sources: &[ScriptSource],
    out: &mut String,
) -> Result<(), AllocError> {
    let mut asked = Vec::new(alloc);
    let mut faults: u64 = 0;
    for source in sources {
        for range in source.asked() {
            let _pushed = asked.push((range.offset, range.length)).ok();
        }
        faults = faults.saturating_add(source.faults());
    }
    let _sorted = asked.sort().ok();
    write!(out, "; asked {asked:?}, faults {faults}")
}
