//! A run that scans: a request is read, its rows are scanned, and their lines are written.

ghost use Rattle.std.specs.Prelude.{◌<◌, ◌≤◌, length, map};
ghost use Rattle.scan_words.specs.Limits.{most_workers};
ghost use Rattle.scan_input.specs.Reading.{ReadsPieces};
ghost use Rattle.scan_commands.specs.Runs.{Ends};

use crate::endings::{Ending, of_scan, of_writing};
use crate::lent_requests::lent_request;
use crate::scans::batches_of;
use scan_output::write_by;
use std::sync::Wait;
use std::thread::Threads;
use vx_base::{SegmentSource, Sink, Source};

/// Reads the request, scans the sources for its rows, and writes a line for each, once all rows are known: a fault of the
/// scan writes nothing, and one while writing leaves a front of the lines. A source may answer as often as the idle
/// limit that a read goes on, from one completion to the next.
pub(crate) fn serve<
    R: AllocGlobal + Threads + Wait + Sync,
    Q: Source,
    S: SegmentSource + Send,
    K: Sink,
>(rt: &R, idle_limit: u64, request: &mut Q, sources: &mut [S], out: &mut K) -> Ending
    requires limit { 0 < idle_limit }
    requires some { 0 < length sources.old }
    requires few { length sources.old ≤ most_workers }
    ensures pieces { ReadsPieces (Q.state request.old) (Q.state request.new) }
    ensures ends { Ends idle_limit result
        (record { request = Q.state request.old; sources = map S.state sources.old; sink = K.state out.old })
        (record { request = Q.state request.new; sources = map S.state sources.new; sink = K.state out.new }) }
{
    let alloc = rt.alloc();
    let request = match lent_request(alloc, request) {
        Ok(request) => request,
        Err(ending) => return ending,
    };
    let batches = match batches_of(rt, alloc, request, idle_limit, sources) {
        Ok(batches) => batches,
        Err(error) => return of_scan(error),
    };
    let written = write_by(rt, alloc, out, &batches, sources.len());
    drop(batches);
    of_writing(written)
}
