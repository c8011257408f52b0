//! What all workers gave, put together once they are done.

ghost use Rattle.std.specs.Prelude.{◌≡◌, [], length};
ghost use Rattle.vx_claims.specs.Claims.{count_of};
ghost use Rattle.vx_workers.specs.Joins.{AreJoined, Joins};

use crate::claim_lists::ClaimList;
use crate::merges::merge_workers;
use crate::worker_states::{Borrower, ChunkError, Piece, WorkerState};
use std::alloc::Global;
use vx_claims::{ClaimSeat, Claims};
use vx_steps::KeptValue;

/// What all workers gave: for each the chunks that it claimed; the pieces; the chunks that ran with borrowed values; the
/// whole values that workers made; and the error of the lowest chunk that failed.
#[derive(Drop)]
pub struct Joined {
    pub claimed: Vec<ClaimList>,
    pub pieces: Vec<Piece>,
    pub borrowers: Vec<Borrower>,
    pub made: Vec<KeptValue>,
    pub error: Option<ChunkError>,
}

/// What the states gave, after the claims are closed. For the list of each there is room.
pub fn join_workers(
    alloc: Global,
    claims: Claims,
    mut seat: ClaimSeat,
    worker_states: Vec<WorkerState>,
    lists: Vec<ClaimList>,
) -> Joined
    requires { AreJoined claims seat worker_states.items lists }
    ensures { Joins (count_of claims) worker_states.items result }
{
    let mut joined = Joined {
        claimed: lists,
        pieces: Vec::new(alloc),
        borrowers: Vec::new(alloc),
        made: Vec::new(alloc),
        error: None,
    };
    merge_workers(&claims, &mut seat, worker_states, &mut joined);
    let _word = claims.close(seat);
    joined
}
