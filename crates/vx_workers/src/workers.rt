//! The workers, one for each source: each claims chunks and runs them until none is left or one fails.

ghost use Rattle.std.specs.Prelude.{◌≡◌, length, map};
ghost use Rattle.std.specs.List.{All};
ghost use Rattle.std.specs.Thread.{IsSync, IsSend};
ghost use Rattle.vx_chunks.specs.Lent.{EachSourceBy};
ghost use Rattle.vx_workers.specs.Common.{CanWork, WorkedOn};
ghost use Rattle.vx_workers.specs.Room.{MakesRoom};
ghost use Rattle.vx_workers.specs.Workers.{IsFreshWorker};

use crate::borrowing::{Shared, record_outcome};
use crate::commons::Common;
use crate::refusing::run_unhindered;
use crate::worker_states::{WorkerState, want_of_memory};
use std::mem;
use std::sync::Wait;
use std::thread::{Threads, join_mut};
use vx_base::SegmentSource;
use vx_chunks::{Ran, nothing_handed};

/// Makes room for the number of a further chunk and for what comes of it, and says whether there was memory for it.
fn makes_room(worker: &mut WorkerState) -> bool
    ensures { MakesRoom result worker.old worker.new }
{
    worker.claimed.reserve(1).is_ok()
        && worker.pieces.reserve(1).is_ok()
        && worker.borrowers.reserve(1).is_ok()
}

/// Claims chunks and runs them on the source, until none is left or one fails. What a chunk decoded and made is handed on
/// to the next one of this worker, so that it reads no whole values twice, and no leaf that stays with it. Where values are
/// shared, a chunk borrows from the cache what the worker lacks; a chunk that borrowed doesn't stop the worker where its
/// error may come of a value that is wrong. A chunk that reads a list, or a segment without a location, is refused before
/// anything is asked for it.
fn work<R: Wait, S: SegmentSource>(
    rt: &R,
    common: &Common<'_>,
    worker: &mut WorkerState,
    source: &mut S,
)
    requires common { CanWork common.now }
    requires worker { IsFreshWorker common.now.claims.now worker.old }
    ensures { WorkedOn common.now worker.new (S.state source.old) (S.state source.new) }
{
    let chunks = common.chunks;
    common.plans.table.keeps_rules();
    'working: loop {
        if !makes_room(worker) {
            worker.error = Some(want_of_memory());
            return;
        }
        let Some(number) = worker.seat.claim(common.claims) else {
            return;
        };
        worker.claimed.push_reserved(number);
        let handed = mem::replace(&mut worker.handed, nothing_handed(worker.alloc));
        let chunk = &chunks[number as usize];
        let Shared { ran, borrowed } = run_unhindered(
            rt,
            worker.alloc,
            common,
            chunk,
            source,
            handed,
        );
        let Ran { piece, handed } = ran;
        worker.handed = handed;
        if !record_outcome(worker, number, piece, borrowed) {
            return; // a worker stops at a chunk that fails
        }
    }
}

/// A worker for each state and its source, side by side, by no more threads than there are chunks.
pub fn spread<R: Threads + Wait + Sync, S: SegmentSource + Send>(
    rt: &R,
    common: &Common<'_>,
    worker_states: &mut [WorkerState],
    sources: &mut [S],
)
    requires common { CanWork common.now }
    requires worker_states { All (IsFreshWorker common.now.claims.now) worker_states.old }
    requires sources { length sources.old ≡ length worker_states.old }
    ensures { EachSourceBy (WorkedOn common.now) worker_states.new (map S.state sources.old) (map S.state sources.new) }
{
    spread_over(rt, common, common.chunks.len(), worker_states, sources);
}

/// The workers of these states, by so many threads at most. This thread is one of them, and starts all others: one that
/// a new thread starts mostly comes behind that one on its processor, though another has nothing to do. The states for
/// which no thread is left are worked through by this one, one after another: as a rule they find no chunk left.
#[cycle(spreading)]
fn spread_over<R: Threads + Wait + Sync, S: SegmentSource + Send>(
    rt: &R,
    common: &Common<'_>,
    threads: usize,
    worker_states: &mut [WorkerState],
    sources: &mut [S],
)
    requires common { CanWork common.now }
    requires worker_states { All (IsFreshWorker common.now.claims.now) worker_states.old }
    requires sources { length sources.old ≡ length worker_states.old }
    ensures { EachSourceBy (WorkedOn common.now) worker_states.new (map S.state sources.old) (map S.state sources.new) }
{
    let Some((worker, worker_states)) = worker_states.split_first_mut() else {
        return;
    };
    let Some((source, sources)) = sources.split_first_mut() else {
        unreachable!()
    };
    spread_from(rt, common, threads, worker, source, worker_states, sources);
}

/// The first worker and the others, by so many threads at most.
#[cycle(spreading)]
fn spread_from<R: Threads + Wait + Sync, S: SegmentSource + Send>(
    rt: &R,
    common: &Common<'_>,
    threads: usize,
    worker: &mut WorkerState,
    source: &mut S,
    worker_states: &mut [WorkerState],
    sources: &mut [S],
)
    requires common { CanWork common.now }
    requires worker { IsFreshWorker common.now.claims.now worker.old }
    requires worker_states { All (IsFreshWorker common.now.claims.now) worker_states.old }
    requires sources { length sources.old ≡ length worker_states.old }
    ensures first { WorkedOn common.now worker.new (S.state source.old) (S.state source.new) }
    ensures others { EachSourceBy (WorkedOn common.now) worker_states.new (map S.state sources.old) (map S.state sources.new) }
{
    if threads <= 1 || worker_states.is_empty() {
        work(rt, common, worker, source);
        spread_over(rt, common, threads, worker_states, sources);
        return;
    }
    let left = threads - 1;
    first_and_others(rt, common, worker, source, &left, worker_states, sources);
}

/// The first worker in a thread of its own, and the others from this one.
#[cycle(spreading)]
fn first_and_others<R: Threads + Wait + Sync, S: SegmentSource + Send>(
    rt: &R,
    common: &Common<'_>,
    worker: &mut WorkerState,
    source: &mut S,
    threads: &usize,
    worker_states: &mut [WorkerState],
    sources: &mut [S],
)
    requires common { CanWork common.now }
    requires worker { IsFreshWorker common.now.claims.now worker.old }
    requires worker_states { All (IsFreshWorker common.now.claims.now) worker_states.old }
    requires sources { length sources.old ≡ length worker_states.old }
    ensures first { WorkedOn common.now worker.new (S.state source.old) (S.state source.new) }
    ensures others { EachSourceBy (WorkedOn common.now) worker_states.new (map S.state sources.old) (map S.state sources.new) }
{
    let mut first = ||
        requires { CanWork common.now × IsFreshWorker common.now.claims.now worker.now }
        ensures { WorkedOn common.entry.now worker.exit.now (S.state source.entry.now) (S.state source.exit.now) }
    { work(rt, common, worker, source) };
    let mut others = ||
        requires { IsSync R.row × IsSend S.row × CanWork common.now × All (IsFreshWorker common.now.claims.now) worker_states.now × (length sources.now ≡ length worker_states.now) }
        ensures { EachSourceBy (WorkedOn common.entry.now) worker_states.exit.now (map S.state sources.entry.now) (map S.state sources.exit.now) }
    { spread_over(rt, common, *threads, worker_states, sources) };
    join_mut(rt, &mut first, &mut others);
}
