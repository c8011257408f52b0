//! What the run of a chunk gives, and what it hands on.

ghost use Rattle.std.specs.Prelude.{◌≡◌, []};

use std::alloc::Global;
use vx_base::Column;
use vx_drive::ScanError;
use vx_steps::KeptValue;

/// The piece of a chunk, or why it has none; which of the given values were used, and the whole values that were made.
#[derive(Drop)]
pub struct ChunkOutcome {
    pub piece: Result<Column, ScanError>,
    pub used: Vec<KeptValue>,
    pub made: Vec<KeptValue>,
}

/// What a chunk hands on to the next one of its worker: whole columns of leaves, and whole values that were made.
#[derive(Drop)]
pub struct HandedOn {
    pub leaves: Vec<KeptValue>,
    pub made: Vec<KeptValue>,
}

/// What there is before the first chunk. It takes no memory.
pub fn nothing_handed(alloc: Global) -> HandedOn
    ensures leaves { result.leaves.items ≡ [] }
    ensures made { result.made.items ≡ [] }
{
    HandedOn {
        leaves: Vec::new(alloc),
        made: Vec::new(alloc),
    }
}

/// The piece of a chunk, or why it has none, and what it hands on.
#[derive(Drop)]
pub struct Ran {
    pub piece: Result<Column, ScanError>,
    pub handed: HandedOn,
}
