//! The scan that a request asks for.

ghost use Rattle.std.specs.Prelude.{◌≡◌, ◌<◌, ◌≤◌, IfOk, length, map};
ghost use Rattle.vx_scan.specs.Builders.{scan_of as built_scan};
ghost use Rattle.scan_words.specs.Limits.{most_workers};
ghost use Rattle.scan_request.specs.JsonForms.{most_items};
ghost use Rattle.scan_request.specs.RequestViews.{asked_of};
ghost use Rattle.scan_commands.specs.Scans.{scan_of, ScanGives};

use scan_request::Request;
use std::alloc::{AllocError, Global};
use std::sync::Wait;
use std::thread::Threads;
use vx_base::{Column, SegmentSource};
use vx_scan::{ScanBuilder, ScanError, pieces_are_the_answer};

/// The rows of a request, read from the sources by a worker for each: a column for each chunk, in the order of the rows. A
/// source may answer as often as the idle limit that a read goes on, from one completion to the next.
pub(crate) fn batches_of<R: Threads + Wait + Sync, S: SegmentSource + Send>(
    rt: &R,
    alloc: Global,
    request: Request,
    idle_limit: u64,
    sources: &mut [S],
) -> Result<Vec<Column>, ScanError>
    requires limit { 0 < idle_limit }
    requires some { 0 < length sources.old }
    requires workers { length sources.old ≤ most_workers }
    requires few { length request.file.locations.items ≤ most_items }
    ensures { ScanGives idle_limit (scan_of (asked_of request)) result (map S.state sources.old) (map S.state sources.new) }
{
    pieces_are_the_answer();
    match builder_of(alloc, request, idle_limit) {
        Ok(builder) => builder.into_batches(rt, alloc, sources),
        Err(_) => Err(ScanError::Memory),
    }
}

/// The scan that the request asks for, before it runs.
fn builder_of(alloc: Global, request: Request, idle_limit: u64) -> Result<ScanBuilder, AllocError>
    requires { 0 < idle_limit }
    ensures scan { IfOk result (λ builder. built_scan builder ≡ scan_of (asked_of request)) }
    ensures locations { IfOk result (λ builder. builder.locations ≡ request.file.locations.items) }
    ensures limit { IfOk result (λ builder. builder.idle_limit ≡ idle_limit) }
{
    let builder = ScanBuilder::new(alloc, request.file)?
        .with_projection(request.projection)
        .with_selection(request.selection)
        .with_row_offset(request.row_offset)
        .with_idle_limit(idle_limit);
    let builder = match request.limit {
        Some(rows) => builder.with_limit(rows),
        None => builder,
    };
    match request.range {
        Some(range) => Ok(builder.with_row_range(range)),
        None => Ok(builder),
    }
}
