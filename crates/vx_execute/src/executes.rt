//! All chunks over all sources: a worker for each source, joined before the call returns.

ghost use Rattle.std.specs.Prelude.{◌≡◌, ◌≤◌, ◌<◌, IfOk, length, map};
ghost use Rattle.std.specs.List.{All, AllByRecursion};
ghost use Rattle.vx_claims.specs.Limits.{most_chunks};
ghost use Rattle.vx_drive.specs.Plans.{ArePlans, IsChunkOf};
ghost use Rattle.vx_chunks.specs.Lent.{EachSourceBy};
ghost use Rattle.vx_workers.specs.Common.{CanWork, WorkedOn};
ghost use Rattle.vx_workers.specs.Joins.{JoinedAll};
ghost use Rattle.vx_workers.specs.Limits.{most_workers};
ghost use Rattle.vx_workers.specs.Workers.{IsFreshWorker};
ghost use Rattle.vx_execute.specs.Executes.{Opens, CanRun, Executes as ExecutesAll};

use crate::outcomes::Outcome;
use crate::validating::validate;
use std::alloc::{AllocError, Global};
use std::sync::Wait;
use std::thread::Threads;
use vx_base::SegmentSource;
use vx_claims::{ClaimSeat, Claiming, Claims};
use vx_drive::ScanPlans;
use vx_splits::SelectedRows;
use vx_workers::{
    ClaimList, Common, Joined, ValueCache, WorkerState, join_workers, open_workers, spread,
    want_of_memory,
};

/// What is made before the fork: the claims, a state for each source, and room for the list of each.
#[derive(Drop)]
pub(crate) struct Opened {
    claims: Claims,
    seat: ClaimSeat,
    worker_states: Vec<WorkerState>,
    lists: Vec<ClaimList>,
}

/// The claims of the chunks, and a state for each worker.
fn open(alloc: Global, count: usize, workers: usize) -> Result<Opened, AllocError>
    requires count { count ≤ most_chunks }
    requires workers { workers ≤ most_workers }
    ensures { IfOk result (Opens count workers) }
{
    let lists: Vec<ClaimList> = Vec::with_capacity(alloc, workers)?;
    let Claiming { claims, mut seat } = Claims::start(alloc, count as u64)?;
    let worker_states = open_workers(alloc, &claims, &mut seat, workers)?;
    Ok(Opened {
        claims,
        seat,
        worker_states,
        lists,
    })
}

/// The states after the run of all workers.
fn run<R: Threads + Wait + Sync, S: SegmentSource + Send>(
    rt: &R,
    common: &Common<'_>,
    mut worker_states: Vec<WorkerState>,
    sources: &mut [S],
) -> Vec<WorkerState>
    requires common { CanWork common.now }
    requires worker_states { All (IsFreshWorker common.now.claims.now) worker_states.items }
    requires sources { length sources.old ≡ length worker_states.items }
    ensures { EachSourceBy (WorkedOn common.now) result.items (map S.state sources.old) (map S.state sources.new) }
{
    spread(rt, common, worker_states.as_mut_slice(), sources);
    worker_states
}

/// What all workers gave, once they are done: with more than one source they share whole values by the cache.
fn work_all<R: Threads + Wait + Sync, S: SegmentSource + Send>(
    rt: &R,
    alloc: Global,
    plans: &ScanPlans,
    chunks: &[SelectedRows],
    opened: Opened,
    sources: &mut [S],
    cache: &ValueCache,
) -> Joined
    requires some { 0 < length sources.old }
    requires workers { length sources.old ≤ most_workers }
    requires plans { ArePlans plans.now }
    requires chunks { AllByRecursion (IsChunkOf plans.now) chunks.now }
    requires opened { Opens (length chunks.now) (length sources.old) opened }
    ensures { JoinedAll plans.now chunks.now result (map S.state sources.old) (map S.state sources.new) }
{
    let Opened {
        claims,
        seat,
        worker_states,
        lists,
    } = opened;
    let common = Common {
        plans,
        chunks,
        claims: &claims,
        cache,
        shares: sources.len() > 1,
    };
    let worker_states = run(rt, &common, worker_states, sources);
    join_workers(alloc, claims, seat, worker_states, lists)
}

/// Runs all chunks over the sources, with a worker for each source, which claims a chunk, runs it on its own source and
/// goes on until none is left or one fails. It returns once all workers are done, and leaves nothing in flight. The lowest
/// chunk that failed tells the error; want of memory outside of a chunk's run is told of chunk 0. Borrowing for a chunk,
/// testing what it borrowed and running it again belong to its run.
///
/// With more than one source the workers share whole values of dictionaries by the cache, whatever it holds. Once all are
/// done, each value that was borrowed is tested on the first source: against what a worker made, or else against what is
/// read now; and a chunk that rests on a value that is wrong runs again there. With one source nothing is shared.
pub fn execute<R: Threads + Wait + Sync, S: SegmentSource + Send>(
    rt: &R,
    alloc: Global,
    plans: &ScanPlans,
    chunks: &[SelectedRows],
    sources: &mut [S],
    cache: &ValueCache,
) -> Outcome
    requires some { 0 < length sources.old }
    requires workers { length sources.old ≤ most_workers }
    requires plans { ArePlans plans.now }
    requires chunks { CanRun plans.now chunks.now }
    ensures { ExecutesAll plans.now chunks.now result (map S.state sources.old) (map S.state sources.new) }
{
    let Ok(opened) = open(alloc, chunks.len(), sources.len()) else {
        return Outcome {
            pieces: Vec::new(alloc),
            claimed: Vec::new(alloc),
            reruns: Vec::new(alloc),
            error: Some(want_of_memory()),
        };
    };
    let joined = work_all(rt, alloc, plans, chunks, opened, sources, cache);
    validate(alloc, plans, chunks, joined, &mut sources[0])
}
