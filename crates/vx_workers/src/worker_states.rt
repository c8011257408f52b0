//! What one worker is given, and what it gives.

ghost use Rattle.std.specs.Prelude.{◌≡◌};
ghost use Rattle.vx_workers.specs.Merges.{no_memory};

use std::alloc::Global;
use vx_base::Column;
use vx_chunks::HandedOn;
use vx_claims::ClaimSeat;
use vx_drive::ScanError;
use vx_steps::KeptValue;

/// The column of a chunk, by the chunk's number.
#[derive(Drop)]
pub struct Piece {
    pub chunk: u64,
    pub column: Column,
}

/// The number of a chunk that failed, and why. Want of memory outside of a chunk's run is told of chunk 0; borrowing for a
/// chunk, testing what it borrowed and running it again belong to its run.
#[derive(Clone, Copy, Debug)]
pub struct ChunkError {
    pub chunk: u64,
    pub error: ScanError,
}

/// Want of memory outside of a chunk's run.
pub fn want_of_memory() -> ChunkError
    ensures { result ≡ no_memory }
{
    ChunkError {
        chunk: 0,
        error: ScanError::Memory,
    }
}

/// A chunk that ran with whole values that its worker borrowed: these values, and what came of it with them in place of the
/// plan's own: its column, or an error that may come of a value that is wrong.
#[derive(Drop)]
pub struct Borrower {
    pub chunk: u64,
    pub borrowed: Vec<KeptValue>,
    pub result: Result<Column, ScanError>,
}

/// A worker's seat at the claims, the numbers of the chunks that it claimed, the pieces of those that ran, those that ran
/// with borrowed values, what it hands on from chunk to chunk, and why it stopped, if not at the end.
#[derive(Drop)]
pub struct WorkerState {
    pub alloc: Global,
    pub seat: ClaimSeat,
    pub claimed: Vec<u64>,
    pub pieces: Vec<Piece>,
    pub borrowers: Vec<Borrower>,
    pub handed: HandedOn,
    pub error: Option<ChunkError>,
}
