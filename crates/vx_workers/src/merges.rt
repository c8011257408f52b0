//! The states of all workers, before the fork and after the joins.

ghost use Rattle.std.specs.Prelude.{◌≡◌, ◌≤◌, [], None, IfOk, OnErr, length};
ghost use Rattle.std.specs.List.{All};
ghost use Rattle.vx_claims.specs.Claims.{IsSeatOf, IsFresh, parts, claimed};
ghost use Rattle.vx_claims.specs.Limits.{all_parts};
ghost use Rattle.vx_workers.specs.Merges.{OpensWorkers, lower_of, TakesMore, Merges as MergesAll};
ghost use Rattle.vx_workers.specs.Limits.{most_workers};

use crate::claim_lists::ClaimList;
use crate::joins::Joined;
use crate::worker_states::{Borrower, ChunkError, Piece, WorkerState, want_of_memory};
use std::alloc::{AllocError, Global};
use vx_chunks::{HandedOn, nothing_handed};
use vx_claims::{ClaimSeat, Claims};
use vx_steps::KeptValue;

/// A state for each worker.
pub fn open_workers(
    alloc: Global,
    claims: &Claims,
    seat: &mut ClaimSeat,
    count: usize,
) -> Result<Vec<WorkerState>, AllocError>
    requires seat { IsFresh claims.now all_parts seat.old }
    requires count { count ≤ most_workers }
    ensures opened { IfOk result (λ worker_states. OpensWorkers claims.now count worker_states.items seat.new) }
    ensures unchanged { OnErr result (seat.new ≡ seat.old) }
{
    let mut worker_states: Vec<WorkerState> = Vec::with_capacity(alloc, count)?;
    for _i in 0..count {
        let worker = WorkerState {
            alloc,
            seat: claims.split(seat),
            claimed: Vec::new(alloc),
            pieces: Vec::new(alloc),
            borrowers: Vec::new(alloc),
            handed: nothing_handed(alloc),
            error: None,
        };
        worker_states.push_reserved(worker);
    }
    Ok(worker_states)
}

/// The error of the lower chunk.
pub(crate) fn lower(error: Option<ChunkError>, other: Option<ChunkError>) -> Option<ChunkError>
    ensures { result ≡ lower_of error other }
{
    let Some(one) = error else {
        return other;
    };
    let Some(two) = other else {
        return error;
    };
    if two.chunk < one.chunk {
        return other;
    }
    error
}

/// Takes in what a state gave; it says whether there was memory for all of it.
fn take_in(
    joined: &mut Joined,
    mut pieces: Vec<Piece>,
    mut borrowers: Vec<Borrower>,
    mut made: Vec<KeptValue>,
) -> bool
    ensures { TakesMore result pieces.items borrowers.items made.items joined.old joined.new }
{
    joined.pieces.append(&mut pieces).is_ok()
        && joined.borrowers.append(&mut borrowers).is_ok()
        && joined.made.append(&mut made).is_ok()
}

/// Takes in all states: their seats, their lists of claimed chunks, their pieces, the chunks that ran with borrowed
/// values, and the whole values that they made. The error is that of the lowest chunk; where there is no memory for all
/// of it, it is want of memory.
pub(crate) fn merge_workers(
    claims: &Claims,
    seat: &mut ClaimSeat,
    worker_states: Vec<WorkerState>,
    joined: &mut Joined,
)
    requires seat { IsSeatOf claims.now seat.old }
    requires fresh { claimed seat.old ≡ [] }
    requires worker_states { All (λ worker. IsSeatOf claims.now worker.seat) worker_states.items }
    requires lists { joined.old.claimed.items ≡ [] }
    requires room { length worker_states.items ≤ joined.old.claimed.cap }
    requires pieces { joined.old.pieces.items ≡ [] }
    requires borrowers { joined.old.borrowers.items ≡ [] }
    requires made { joined.old.made.items ≡ [] }
    requires error { joined.old.error ≡ None }
    ensures { MergesAll claims.now (parts seat.old) worker_states.items seat.new joined.new }
{
    for worker in worker_states {
        let WorkerState {
            alloc: _,
            seat: other,
            claimed,
            pieces,
            borrowers,
            handed,
            error,
        } = worker;
        let HandedOn { leaves: _, made } = handed;
        claims.join(seat, other);
        joined.claimed.push_reserved(ClaimList::from_vec(claimed));
        joined.error = lower(joined.error, error);
        if !take_in(joined, pieces, borrowers, made) {
            joined.error = Some(want_of_memory());
        }
    }
}
