//! The batches of a scan: the columns of all pieces, in order.

ghost use Rattle.vx_scan.specs.BatchColumns.{TakesBatches};

use std::alloc::Global;
use vx_base::Column;
use vx_drive::ScanError;
use vx_execute::Outcome;

/// The columns of all pieces in their order, or the error of the lowest chunk that failed.
pub(crate) fn batches_of(alloc: Global, outcome: Outcome) -> Result<Vec<Column>, ScanError>
    ensures { TakesBatches outcome result }
{
    if let Some(failed) = outcome.error {
        return Err(failed.error);
    }
    let mut batches = Vec::with_capacity(alloc, outcome.pieces.len())?;
    for piece in outcome.pieces {
        batches.push(piece.column)?;
    }
    Ok(batches)
}
