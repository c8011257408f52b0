//! A run of the demo: its file is made and scanned, and the summary of its rows is written.

ghost use Rattle.std.specs.Prelude.{◌≡◌, ◌≤◌, IfOk, length};
ghost use Rattle.vx_base.specs.Limits.{most_segments};
ghost use Rattle.vx_scan.specs.Builders.{scan_of};
ghost use Rattle.scan_demo.specs.DemoBytes.{demo_bytes};
ghost use Rattle.scan_demo.specs.DemoRows.{most_demo_rows};
ghost use Rattle.scan_demo.specs.DemoScans.{IsDemoScan};
ghost use Rattle.scan_demo.specs.Summary.{summary};
ghost use Rattle.scan_commands.specs.DemoRuns.{AreSourcesOf, Demonstrates};

use crate::endings::{Ending, of_writing};
use scan_demo::{DemoFile, demo_file, scans_give_demo_rows, summary_of};
use scan_output::write_all;
use std::alloc::{AllocError, Global};
use std::sync::Wait;
use std::thread::Threads;
use vx_base::{MemorySource, Sink};
use vx_scan::ScanBuilder;

/// How many workers scan the demo's file, each with a source of its own.
const DEMO_WORKERS: usize = 4;

/// A source of the bytes for each worker.
fn sources_of(alloc: Global, bytes: &[u8]) -> Result<Vec<MemorySource>, AllocError>
    ensures { IfOk result (λ sources. AreSourcesOf bytes.now sources.items) }
{
    let mut sources = Vec::with_capacity(alloc, DEMO_WORKERS)?;
    for _count in 0..DEMO_WORKERS {
        sources.push(MemorySource::new(alloc, bytes.to_vec(alloc)?))?;
    }
    Ok(sources)
}

/// A scan of the demo's file that is ready to run.
struct DemoScan {
    builder: ScanBuilder,
    sources: Vec<MemorySource>,
}

/// The scan of all rows of the demo file of so many rows.
fn demo_scan(alloc: Global, number: u64) -> Result<DemoScan, AllocError>
    requires { number ≤ most_demo_rows }
    ensures scan { IfOk result (λ scan. IsDemoScan number (scan_of scan.builder)) }
    ensures few { IfOk result (λ scan. length scan.builder.locations ≤ most_segments) }
    ensures sources { IfOk result (λ scan. AreSourcesOf (demo_bytes number) scan.sources.items) }
{
    let DemoFile { file, bytes } = demo_file(alloc, number)?;
    let sources = sources_of(alloc, &bytes)?;
    let builder = ScanBuilder::new(alloc, file)?;
    Ok(DemoScan { builder, sources })
}

/// The summary of the demo file of so many rows, by a scan of all of them.
fn scanned_summary<R: AllocGlobal + Threads + Wait + Sync>(
    rt: &R,
    number: u64,
) -> Result<Vec<u8>, AllocError>
    requires { number ≤ most_demo_rows }
    ensures { IfOk result (λ text. text.items ≡ summary number) }
{
    scans_give_demo_rows();
    let alloc = rt.alloc();
    let DemoScan {
        builder,
        mut sources,
    } = demo_scan(alloc, number)?;
    let scanned = builder.into_batches(rt, alloc, &mut sources);
    drop(sources);
    match scanned {
        Ok(batches) => {
            let text = summary_of(alloc, number, &batches);
            drop(batches);
            text
        }
        // A source in memory neither fails nor waits, and the file is sound: memory ran out.
        Err(_) => Err(AllocError),
    }
}

/// Writes the summary of the demo file of so many rows. A fault while writing leaves a front of it.
pub(crate) fn demonstrate<R: AllocGlobal + Threads + Wait + Sync, K: Sink>(
    rt: &R,
    number: u64,
    out: &mut K,
) -> Ending
    requires { number ≤ most_demo_rows }
    ensures { Demonstrates number result (K.state out.old) (K.state out.new) }
{
    let text = match scanned_summary(rt, number) {
        Ok(text) => text,
        Err(_) => return Ending::OutOfMemory,
    };
    of_writing(write_all(out, &text))
}
