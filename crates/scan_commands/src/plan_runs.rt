//! A run that draws: a request is read, and the text of its plan is written.

ghost use Rattle.std.specs.Prelude.{◌≡◌, IfOk};
ghost use Rattle.vx_expr.specs.Bound.{IsBoundTo};
ghost use Rattle.vx_layout.specs.Trees.{head_of, subtree};
ghost use Rattle.scan_request.specs.RequestViews.{asked_of};
ghost use Rattle.scan_commands.specs.PlanRuns.{Draws, IsTextOfPlan};
ghost use Rattle.scan_input.specs.Reading.{ReadsPieces};

use crate::endings::{Ending, of_writing};
use crate::lent_requests::lent_request;
use scan_output::write_all;
use scan_request::Request;
use std::alloc::{AllocError, Global};
use vx_base::{Sink, Source};
use vx_scan::plan_text;

/// The text of the plan that a request's scan would run. The request is let go here.
fn text_of(alloc: Global, request: Request) -> Result<Vec<u8>, AllocError>
    requires { IsBoundTo (asked_of request).projection (head_of (subtree (asked_of request).nodes 0)).dtype }
    ensures { IfOk result (λ text. IsTextOfPlan (asked_of request) text.items) }
{
    let text = plan_text(alloc, &request.file.layout, &request.projection);
    drop(request);
    text
}

/// Reads the request, and writes the text of the plan that its scan would run. A fault while writing leaves a front of the
/// text.
pub(crate) fn draw<Q: Source, K: Sink>(alloc: Global, request: &mut Q, out: &mut K) -> Ending
    ensures pieces { ReadsPieces (Q.state request.old) (Q.state request.new) }
    ensures draws { Draws result
        (record { request = Q.state request.old; sink = K.state out.old })
        (record { request = Q.state request.new; sink = K.state out.new }) }
{
    let request = match lent_request(alloc, request) {
        Ok(request) => request,
        Err(ending) => return ending,
    };
    let text = match text_of(alloc, request) {
        Ok(text) => text,
        Err(_) => return Ending::OutOfMemory,
    };
    of_writing(write_all(out, &text))
}
