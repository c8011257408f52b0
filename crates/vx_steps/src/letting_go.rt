//! What is let go once rows were given: leaves and bytes that no row to come needs, and all of them behind the last rows.

ghost use Rattle.std.specs.Prelude.{◌≡◌, ◌<◌, length, true, false};
ghost use Rattle.vx_steps.specs.LettingGo.{open_count, Ends, ForgetsUnneeded, KeepsStanding, LetsGoUnneeded, ReleasesUnneeded};
ghost use Rattle.vx_steps.specs.Running.{ArePassedAt, IsPassing, IsSound};

use crate::jobs::{Job, Progress};
use crate::still_read::StillRead;
use std::alloc::Global;
use vx_plan::PlanTable;

/// Forgets the leaf, unless rows that are left need it or the row behind the splits reads it. It takes no memory.
fn forget_unneeded(alloc: Global, leaf: u32, splits: usize, progress: &mut Progress)
    requires { progress.old.store.columns.ready ≡ true }
    ensures leaves { ForgetsUnneeded leaf splits progress.old progress.new }
    ensures same { progress.new ≡ record progress.old { store = record progress.old.store { columns = progress.new.store.columns } } }
{
    if !progress.needed.apart.has(leaf) {
        return;
    }
    if progress.needed.is_leaf_ahead(leaf, progress.next, splits) {
        return;
    }
    progress.store.columns.forget(alloc, leaf);
}

/// Lets the bytes of the segment go, and holds it no more, unless rows that are left need it. It takes no memory.
fn release_unneeded(segment: u32, splits: usize, progress: &mut Progress)
    ensures segments { ReleasesUnneeded segment splits progress.old progress.new }
    ensures same { progress.new ≡ record progress.old { reads = progress.new.reads; needed = record progress.old.needed { held = progress.new.needed.held } } }
{
    if progress
        .needed
        .is_segment_ahead(segment, progress.next, splits)
    {
        return;
    }
    progress.reads.let_go(segment);
    progress.needed.held.remove(segment);
}

/// Lets the leaf and the segment of a need go, unless rows that are left need them. A leaf that the row behind the splits reads
/// stays. It takes no memory.
fn let_go_unneeded(alloc: Global, leaf: u32, segment: u32, splits: usize, progress: &mut Progress)
    requires { progress.old.store.columns.ready ≡ true }
    ensures { LetsGoUnneeded leaf segment splits progress.old progress.new }
{
    forget_unneeded(alloc, leaf, splits, progress);
    release_unneeded(segment, splits, progress);
}

/// Passes the next need of an active split of which no row is left, and lets go what nobody else needs; says whether there was
/// such a need. It takes no memory.
fn pass_next(
    alloc: Global,
    table: &PlanTable,
    job: &Job,
    place: usize,
    progress: &mut Progress,
) -> bool
    requires place { place < length progress.old.active.items }
    requires sound { IsSound table.now job.now progress.old }
    requires passing { IsPassing table.now job.now place progress.old }
    ensures sound { IsSound table.now job.now progress.new }
    ensures passing { IsPassing table.now job.now place progress.new }
    ensures passed { result ≡ false → ArePassedAt place progress.new }
    ensures fewer { result ≡ true → open_count place progress.new < open_count place progress.old }
    ensures keeps { KeepsStanding progress.old progress.new }
{
    let active = &mut progress.active[place];
    match active.rest.pass(active.at.done) {
        Some(need) => {
            progress.needed.still.take(need.leaf, need.segment);
            let_go_unneeded(alloc, need.leaf, need.segment, job.splits.len(), progress);
            true
        }
        None => false,
    }
}

/// Passes the needs of an active split of which no row is left, and lets go what nobody else needs. It takes no memory.
pub(crate) fn pass_needs(
    alloc: Global,
    table: &PlanTable,
    job: &Job,
    place: usize,
    progress: &mut Progress,
)
    requires place { place < length progress.old.active.items }
    requires sound { IsSound table.now job.now progress.old }
    requires passing { IsPassing table.now job.now place progress.old }
    ensures sound { IsSound table.now job.now progress.new }
    ensures passing { IsPassing table.now job.now place progress.new }
    ensures passed { ArePassedAt place progress.new }
    ensures keeps { KeepsStanding progress.old progress.new }
{
    'needs: while pass_next(alloc, table, job, place, progress) {}
}

/// Lets all go at once, where all rows were given: no split is active from now on, no read counts as open, no bytes are left,
/// nothing is held, and the leaves are forgotten that the row behind the splits doesn't read. It takes no memory but to index
/// the other leaves.
pub(crate) fn end(alloc: Global, progress: &mut Progress)
    requires { progress.old.store.columns.ready ≡ true }
    ensures { Ends progress.old progress.new }
{
    progress.let_all_go();
    progress.active.clear();
    progress.needed.still = StillRead::new(alloc);
    let apart = progress.needed.apart.index();
    progress.store.columns.forget_all(alloc, apart);
}
