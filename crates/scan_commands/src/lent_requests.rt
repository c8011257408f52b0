//! The request that a run is lent, read and understood, or how the run ends without one.

ghost use Rattle.std.specs.Prelude.{◌≤◌, IfOk, length};
ghost use Rattle.scan_request.specs.JsonForms.{most_items};
ghost use Rattle.scan_input.specs.Reading.{ReadsPieces};
ghost use Rattle.scan_commands.specs.LentRequests.{RequestGives};

use crate::endings::{Ending, of_reading, of_request};
use scan_input::read_request;
use scan_request::{Request, request_of};
use std::alloc::Global;
use vx_base::Source;

/// The request that the run is lent, or how it ends without one.
pub(crate) fn lent_request<Q: Source>(alloc: Global, request: &mut Q) -> Result<Request, Ending>
    ensures pieces { ReadsPieces (Q.state request.old) (Q.state request.new) }
    ensures gives { RequestGives result (Q.state request.old) (Q.state request.new) }
    ensures few { IfOk result (λ request. length request.file.locations.items ≤ most_items) }
{
    let bytes = match read_request(alloc, request) {
        Ok(bytes) => bytes,
        Err(error) => return Err(of_reading(error)),
    };
    match request_of(alloc, &bytes) {
        Ok(request) => Ok(request),
        Err(error) => Err(of_request(&error)),
    }
}
