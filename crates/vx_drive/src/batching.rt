//! Reads that follow one another, as one batch of fetches.

ghost use Rattle.std.specs.Prelude.{◌≡◌, ◌≤◌, [], length};
ghost use Rattle.vx_drive.specs.AdaptorData.{AreAskedReads};
ghost use Rattle.vx_drive.specs.Fetched.{fetch_at};
ghost use Rattle.vx_drive.specs.Batched.{count_behind, BatchGives, StepGives};
ghost use Rattle.vx_base.specs.Limits.{most_segments};

use crate::adaptor_errors::AdaptorError;
use vx_base::SegmentLocation;
use vx_io::{IoIntent, IoRequest, IoRequestId, IoTarget};
use vx_steps::{Scan, Turn};

/// The fetch of a number at a location.
fn fetch(number: u32, at: SegmentLocation) -> IoRequest
    ensures { result ≡ fetch_at number at }
{
    IoRequest {
        intent: IoIntent::Fetch,
        request: IoRequestId(number),
        target: IoTarget::Range {
            offset: at.offset,
            len: at.length,
            alignment: at.alignment,
        },
    }
}

/// One step of the scan, whose refusal is one of the adaptor.
fn step(scan: &mut Scan<'_>) -> Result<Turn, AdaptorError>
    ensures { StepGives result scan.old scan.new }
{
    match scan.step() {
        Ok(turn) => Ok(turn),
        Err(error) => Err(AdaptorError::from(error)),
    }
}

/// Steps the scan as long as it wants reads, and adds a fetch of each to the batch, numbered behind the first reads. It
/// gives the first turn that wants none.
pub(crate) fn batch_fetches(
    scan: &mut Scan<'_>,
    locations: &[SegmentLocation],
    first: u64,
    batch: &mut Vec<IoRequest>,
) -> Result<Turn, AdaptorError>
    requires few { length locations.now ≤ most_segments }
    requires empty { batch.old.items ≡ [] }
    requires asked { AreAskedReads locations.now first (count_behind first scan.old.progress.reads) scan.old.progress.reads }
    ensures { BatchGives locations.now first result batch.new.items scan.old scan.new }
{
    'batching: loop {
        match step(scan) {
            Ok(Turn::Read(read)) => {
                let segment = read.segment_id as usize;
                if segment >= locations.len() {
                    return Err(AdaptorError::NoLocation(read.segment_id));
                }
                let request = fetch((read.id.0 - first) as u32, locations[segment]);
                if batch.push(request).is_err() {
                    return Err(AdaptorError::Memory);
                }
            }
            Ok(turn) => return Ok(turn),
            Err(error) => return Err(error),
        }
    }
}
