//! What the run of all chunks gives.

use vx_base::Column;
use vx_plan::PlanRef;
use vx_workers::{ChunkError, ClaimList, Piece};

/// A chunk that ran again: the plan of values that it had borrowed, the column that was borrowed for it, and the one that
/// was made.
#[derive(Drop)]
pub struct Rerun {
    pub chunk: u64,
    pub node: PlanRef,
    pub borrowed: Column,
    pub made: Column,
}

/// What the workers gave: the pieces in the order of their chunks; for each source the chunks that its worker claimed, in
/// the order in which it claimed them; which chunks ran again; and the error of the lowest chunk that failed.
#[derive(Drop)]
pub struct Outcome {
    pub pieces: Vec<Piece>,
    pub claimed: Vec<ClaimList>,
    pub reruns: Vec<Rerun>,
    pub error: Option<ChunkError>,
}
