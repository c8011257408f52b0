//! What a split passes through: it is started, and its rows are given as soon as all that they read was delivered.

ghost use Rattle.std.specs.Prelude.{◌≡◌, ◌+◌, ◌<◌, ◌≤◌, ℕ, ◌⊎◌, List, ◌++◌, length, map, None, IfOk, IfErr, IfSome, OnOk};
ghost use Rattle.std.specs.Bool.{MatchBool};
ghost use Rattle.vx_plan.specs.Rules.{node_at};
ghost use Rattle.vx_steps.specs.declared.leaf_reads.LeafRead.{LeafRead};
ghost use Rattle.vx_steps.specs.declared.placed_reads.PlacedRead.{PlacedRead};
ghost use Rattle.vx_steps.specs.Agreement.{KeepsAgreeing};
ghost use Rattle.vx_steps.specs.HeldData.{HasRoom, KeepsRoom};
ghost use Rattle.vx_steps.specs.Kept.{kept_at};
ghost use Rattle.vx_steps.specs.LeafStores.{KeepsHere};
ghost use Rattle.vx_steps.specs.Needed.{open_reads};
ghost use Rattle.vx_steps.specs.Needs.{Among, AreLeaves};
ghost use Rattle.vx_steps.specs.OpenSegments.{AreCounted};
ghost use Rattle.vx_steps.specs.Pieces.{read_of, IsGivenTo, WaitsFor};
ghost use Rattle.vx_steps.specs.ReadTable.{KeepsStored, NoneCame};
ghost use Rattle.vx_steps.specs.Releasing.{AreNamed, IsServed};
ghost use Rattle.vx_steps.specs.Running.{AreDecoded, IsStarting};
ghost use Rattle.vx_steps.specs.StillRead.{IsTallyOf};
ghost use Rattle.vx_steps.specs.Tries.{CanTry, DecodesNeeds, Finishes, IsTornAt, LacksNext, MovesNext, ReadiesWholes, Refuses, WaitsForNeed};
ghost use Rattle.vx_steps.specs.Wants.{Grows, IsAsked, IsNeeded};

use crate::errors::StepError;
use crate::jobs::{ActiveSplit, Job};
use crate::leaf_columns::LeafColumns;
use crate::leaf_stores::LeafStore;
use crate::leaves::decode_needs;
use crate::needed::{Needed, make_room};
use crate::needs::want_needs;
use crate::open_needs::OpenNeeds;
use crate::open_segments::OpenSegments;
use crate::pieces::{GivenRows, next_rows};
use crate::placed_reads::{PlacedNeeds, PlacedRead, needs_of};
use crate::reads::ReadTable;
use crate::splits::Split;
use crate::still_read::add_needs;
use crate::wholes::{Grounds, Wholes};
use std::alloc::{AllocError, Global};
use vx_base::Column;
use vx_plan::PlanTable;

/// Starts the split of a number: wants the segments of the leaves that its selected rows read, and makes room to hold them.
pub(crate) fn start_split(
    alloc: Global,
    table: &PlanTable,
    job: &Job,
    number: usize,
    split: &Split,
    handed: &LeafColumns,
    reads: &mut ReadTable,
    needed: &mut Needed,
) -> Result<ActiveSplit, AllocError>
    requires known { job.now.plan < length table.now }
    requires inside { split.now.rows.start + length split.now.mask ≤ (node_at table.now job.now.plan).rows }
    ensures number { IfOk result (λ active. active.split ≡ number) }
    ensures starting { IfOk result (IsStarting table.now job.now split.now) }
    ensures asked { IfOk result (λ active. (need : PlacedRead) → Among need active.needs.items → kept_at handed.now.all need.leaf ≡ None → IsAsked reads.new.wanted need.segment) }
    ensures only { IfOk result (λ active. (segment : ℕ) → IsAsked reads.new.wanted segment → IsAsked reads.old.wanted segment ⊎ IsNeeded (map read_of active.needs.items) handed.now.all segment) }
    ensures grows { Grows reads.old.wanted reads.new.wanted }
    ensures agrees { KeepsAgreeing reads.old.wanted reads.new.wanted }
    ensures came { NoneCame reads.old.wanted reads.new.wanted }
    ensures handed { reads.new.handed ≡ reads.old.handed }
    ensures named { IfOk result (λ active. AreNamed handed.now.all (map read_of active.needs.items) reads.new.stored) }
    ensures stored { KeepsStored reads.old reads.new }
    ensures room { IfOk result (λ active. (need : PlacedRead) → Among need active.needs.items → HasRoom needed.new.held need.segment) }
    ensures kept_room { KeepsRoom needed.old.held needed.new.held }
    ensures tallies { IfOk result (λ active. (before : List LeafRead) → IsTallyOf needed.old.still before → IsTallyOf needed.new.still (before ++ open_reads active)) }
    ensures needed { needed.new ≡ record needed.old { still = needed.new.still; held = needed.new.held } }
    ensures held { needed.new.held.held ≡ needed.old.held.held }
{
    let found = needs_of(
        alloc,
        table,
        &job.given,
        job.plan,
        split.rows.start,
        &split.mask,
    )?;
    let PlacedNeeds { needs, asks } = found;
    make_room(&needs, &mut needed.held)?;
    want_needs(&needs, handed, reads)?;
    let rest = OpenNeeds::of(alloc, &needs)?;
    add_needs(&needs, &mut needed.still)?;
    Ok(ActiveSplit {
        split: number,
        needs,
        at: GivenRows::none(&split.mask, asks),
        rest,
    })
}

/// Whether the first selected row that was not given waits for the next need.
fn waits(needs: &[PlacedRead], at: &GivenRows) -> bool
    ensures { MatchBool result (WaitsFor needs.now at.now.next at.now.row) (WaitsFor needs.now at.now.next at.now.row → ⊥) }
{
    at.next < needs.len() && needs[at.next].from <= at.row
}

/// Decodes the needs of a split from the next one on, as far as their bytes came. A torn leaf is told only where the first
/// selected row that was not given waits for it.
fn decode_rows(
    alloc: Global,
    table: &PlanTable,
    segments: &mut OpenSegments,
    last: bool,
    needs: &[PlacedRead],
    at: &mut GivenRows,
    reads: &mut ReadTable,
    leaves: &mut LeafColumns,
) -> Result<(), StepError>
    requires known { AreLeaves table.now (map read_of needs.now) }
    requires served { IsServed leaves.old.all reads.old (map read_of needs.now) }
    requires decoded { AreDecoded leaves.old.all needs.now at.old.next }
    requires counted { AreCounted table.now leaves.old.all segments.old }
    ensures counted { AreCounted table.now leaves.new.all segments.new }
    ensures decoded { DecodesNeeds table.now last (map read_of needs.now) reads.old reads.new leaves.old.all leaves.new.all }
    ensures here { KeepsHere leaves.old leaves.new }
    ensures same { at.new ≡ record at.old { next = at.new.next } }
    ensures moves { MovesNext needs.now leaves.new.all at.old.next at.new.next }
    ensures missing { OnOk result (WaitsFor needs.now at.new.next at.new.row → LacksNext reads.old.wanted leaves.old.all needs.now at.new.next) }
    ensures torn { IfErr result (IsTornAt table.now reads.old.wanted needs.now at.new.next) }
{
    match decode_needs(
        alloc,
        table,
        segments,
        last,
        needs,
        &mut at.next,
        reads,
        leaves,
    ) {
        Ok(()) => Ok(()),
        Err(error) => {
            if waits(needs, at) {
                return Err(error);
            }
            Ok(())
        }
    }
}

/// Gives rows of a split from the columns of leaves that are stored, as many as are ready: their column, or None where the
/// first selected row that was not given waits for bytes. Rows that are ready are given also where a leaf behind them is
/// torn: that is told once the rows in front of it were given.
pub(crate) fn finish_split(
    alloc: Global,
    table: &PlanTable,
    job: &Job,
    split: &Split,
    store: &mut LeafStore,
    last: bool,
    needs: &[PlacedRead],
    at: &mut GivenRows,
    reads: &mut ReadTable,
    wholes: &mut Wholes,
) -> Result<Option<Column>, StepError>
    requires ready { CanTry table.now job.now split.now needs.now at.old reads.old store.old.columns wholes.old }
    requires decoded { AreDecoded store.old.columns.all needs.now at.old.next }
    requires counted { AreCounted table.now store.old.columns.all store.old.segments }
    ensures counted { AreCounted table.now store.new.columns.all store.new.segments }
    ensures here { KeepsHere store.old.columns store.new.columns }
    ensures decoded { DecodesNeeds table.now last (map read_of needs.now) reads.old reads.new store.old.columns.all store.new.columns.all }
    ensures wholes { ReadiesWholes table.now job.now split.now store.new.columns.all wholes.old wholes.new }
    ensures given { OnOk result (IsGivenTo table.now job.now.given store.new.columns.here wholes.new job.now.plan split.now needs.now at.new) }
    ensures next { OnOk result (AreDecoded store.new.columns.all needs.now at.new.next) }
    ensures output { IfOk result (λ output. IfSome output (Finishes table.now job.now split.now at.old.done at.new.done reads.old.wanted store.old.columns.all wholes.old.made wholes.new store.new.columns.all)) }
    ensures waiting { IfOk result (λ output. output ≡ None → (at.new.done ≡ at.old.done) × WaitsForNeed reads.old.wanted store.old.columns.all needs.now at.new) }
    ensures refused { IfErr result (Refuses table.now job.now split.now (map read_of needs.now) reads.old.wanted store.old.columns.all wholes.old.made wholes.new store.new.columns.all) }
{
    match decode_rows(
        alloc,
        table,
        &mut store.segments,
        last,
        needs,
        at,
        reads,
        &mut store.columns,
    ) {
        Ok(()) => {}
        Err(error) => return Err(error),
    }
    store.columns.are_among_all();
    let grounds = Grounds {
        table,
        leaves: &store.columns,
        given: &job.given,
        offset: job.offset,
    };
    next_rows(alloc, grounds, job.plan, split, needs, wholes, at)
}
