//! A run that reads: a request is read, its rows are read by the layout's readers, and their lines are written.

ghost use Rattle.std.specs.Prelude.{◌<◌};
ghost use Rattle.vx_split_rules.specs.Rules.{IsZeroSize};
ghost use Rattle.scan_input.specs.Reading.{ReadsPieces};
ghost use Rattle.scan_commands.specs.ReadRuns.{Reads};

use crate::endings::{Ending, of_writing};
use crate::lent_requests::lent_request;
use crate::reads::columns_of;
use scan_output::write_batches;
use std::alloc::Global;
use vx_base::{SegmentSource, Sink, Source};
use vx_split_rules::SplitBy;

/// Reads the request, reads its rows from the source, and writes a line for each, once all rows are known: a fault of the
/// read writes nothing, and one while writing leaves a front of the lines.
pub(crate) fn read<Q: Source, S: SegmentSource, K: Sink>(
    alloc: Global,
    split: &SplitBy,
    idle_limit: u64,
    request: &mut Q,
    source: &mut S,
    out: &mut K,
) -> Ending
    requires limit { 0 < idle_limit }
    requires sized { IsZeroSize split.now → ⊥ }
    ensures pieces { ReadsPieces (Q.state request.old) (Q.state request.new) }
    ensures reads { Reads idle_limit result
        (record { request = Q.state request.old; source = S.state source.old; sink = K.state out.old })
        (record { request = Q.state request.new; source = S.state source.new; sink = K.state out.new }) }
{
    let request = match lent_request(alloc, request) {
        Ok(request) => request,
        Err(ending) => return ending,
    };
    let columns = match columns_of(alloc, request, split, idle_limit, source) {
        Ok(columns) => columns,
        Err(ending) => return ending,
    };
    let written = write_batches(alloc, out, &columns);
    drop(columns);
    of_writing(written)
}
