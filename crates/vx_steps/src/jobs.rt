//! What a scan is to do, and how far it is.

ghost use Rattle.std.specs.Prelude.{◌≡◌, ℕ, [], List, true, false, Some, OnOk};
ghost use Rattle.std.specs.Bool.{MatchBool};
ghost use Rattle.vx_steps.specs.Jobs.{IsUnstarted};
ghost use Rattle.vx_plan.specs.Nodes.{Node};
ghost use Rattle.vx_steps.specs.HeldData.{KeepsRoom};
ghost use Rattle.vx_steps.specs.LaterReads.{IsNotedOf};
ghost use Rattle.vx_steps.specs.OpenSegments.{AreCounted};
ghost use Rattle.vx_steps.specs.Places.{place_in};
ghost use Rattle.vx_steps.specs.ReadTable.{LetsAllGo};
ghost use Rattle.vx_steps.specs.Standings.{standing_of};
ghost use Rattle.vx_steps.specs.StillRead.{IsTallyOf};

use crate::kept::KeptColumns;
use crate::leaf_stores::LeafStore;
use crate::needed::Needed;
use crate::open_needs::OpenNeeds;
use crate::pieces::GivenRows;
use crate::placed_reads::PlacedRead;
use crate::reads::ReadTable;
use crate::splits::Split;
use crate::wholes::Wholes;
use std::alloc::{AllocError, Global};
use vx_plan::PlanTable;

/// What a scan is to do: the plan, the splits of its rows, the whole values that are handed in, how many splits may be
/// active, and what is added to the numbers of rows.
#[derive(Drop)]
pub(crate) struct Job {
    pub(crate) plan: u32,
    pub(crate) splits: Vec<Split>,
    pub(crate) given: KeptColumns,
    pub(crate) max_active: usize,
    pub(crate) offset: u64,
}

/// A split that was started and has rows left: its needs, how far its rows are given, and the needs of which rows are left.
#[derive(Drop)]
pub(crate) struct ActiveSplit {
    pub(crate) split: usize,
    pub(crate) needs: Vec<PlacedRead>,
    pub(crate) at: GivenRows,
    pub(crate) rest: OpenNeeds,
}

/// How far a scan is: the first split that was not started, the active ones, the reads, the columns of leaves, the whole
/// values that were made or used, and what rows that are left need.
#[derive(Drop)]
pub(crate) struct Progress {
    pub(crate) next: usize,
    pub(crate) active: Vec<ActiveSplit>,
    pub(crate) reads: ReadTable,
    pub(crate) store: LeafStore,
    pub(crate) wholes: Wholes,
    pub(crate) needed: Needed,
}

impl Job {
    /// The job of a plan's splits, with no values handed in, one split active at once and no offset. It takes no
    /// memory.
    pub(crate) fn new(alloc: Global, plan: u32, splits: Vec<Split>) -> Job
        ensures plan { result.plan ≡ plan }
        ensures splits { result.splits ≡ splits }
        ensures given { result.given ≡ [] }
        ensures max_active { result.max_active ≡ 1 }
        ensures offset { result.offset ≡ 0 }
    {
        Job {
            plan,
            splits,
            given: KeptColumns::new(alloc),
            max_active: 1,
            offset: 0,
        }
    }

    /// Puts these values in place of those that were handed in.
    pub(crate) fn hand_in(&mut self, given: KeptColumns)
        ensures { self.new ≡ record self.old { given = given } }
    {
        self.given = given;
    }
}

impl Progress {
    /// Nothing was done yet. It takes no memory.
    pub(crate) fn new(alloc: Global) -> Progress
        ensures next { result.next ≡ 0 }
        ensures active { result.active.items ≡ [] }
        ensures wanted { result.reads.wanted ≡ [] }
        ensures handed { result.reads.handed ≡ 0 }
        ensures stored { result.reads.stored ≡ [] }
        ensures passed { result.reads.passed ≡ 0 }
        ensures all { result.store.columns.all ≡ [] }
        ensures here { result.store.columns.here ≡ [] }
        ensures counted { (nodes : List Node) → AreCounted nodes [] result.store.segments }
        ensures found { result.needed.apart.found ≡ true }
        ensures apart { (n : ℕ) (place : ℕ) → place_in result.needed.apart.places n ≡ Some place → ⊥ }
        ensures tallies { IsTallyOf result.needed.still [] }
        ensures later { IsNotedOf result.needed.later [] }
        ensures noted { result.needed.noted ≡ false }
        ensures held { result.needed.held.held ≡ [] }
        ensures made { result.wholes.made ≡ [] }
        ensures used { result.wholes.used ≡ [] }
    {
        Progress {
            next: 0,
            active: Vec::new(alloc),
            reads: ReadTable::new(alloc),
            store: LeafStore::new(alloc),
            wholes: Wholes {
                made: KeptColumns::new(alloc),
                used: KeptColumns::new(alloc),
            },
            needed: Needed::new(alloc),
        }
    }

    /// Whether no split was started, no segment is wanted, and no value that was handed in was used.
    pub(crate) fn is_unstarted(&self) -> bool
        ensures { MatchBool result (IsUnstarted (standing_of self.now)) (IsUnstarted (standing_of self.now) → ⊥) }
    {
        self.next == 0
            && self.active.is_empty()
            && self.reads.wants_none()
            && self.wholes.used.is_empty()
    }

    /// Puts these columns of leaves in place of those that were handed in.
    pub(crate) fn hand_in(&mut self, store: LeafStore)
        ensures { self.new ≡ record self.old { store = store } }
    {
        self.store = store;
    }

    /// Puts these whole values in place of those that were made.
    pub(crate) fn hand_in_made(&mut self, made: KeptColumns)
        ensures { self.new ≡ record self.old { wholes = record self.old.wholes { made = made } } }
    {
        self.wholes.made = made;
    }
}

impl Progress {
    /// Lets all bytes go that came, and holds nothing from now on: no row is given any more. It takes no memory.
    pub(crate) fn let_all_go(&mut self)
        ensures reads { LetsAllGo self.old.reads self.new.reads }
        ensures held { self.new.needed.held.held ≡ [] }
        ensures room { KeepsRoom self.old.needed.held self.new.needed.held }
        ensures same { self.new ≡ record self.old { reads = self.new.reads; needed = record self.old.needed { held = self.new.needed.held } } }
    {
        self.reads.let_all_go();
        self.needed.held.clear();
    }
}

/// Indexes the whole values that were handed in, so that none of them is looked through. Where memory is wanting, all is as before.
fn index_handed(job: &mut Job, progress: &mut Progress) -> Result<(), AllocError>
    ensures job { job.new ≡ job.old }
    ensures progress { progress.new ≡ progress.old }
{
    job.given.index()?;
    progress.wholes.made.index()
}

/// Indexes what was handed in, and counts for each segment the leaves over it whose columns are not kept, if there is a
/// split after the first.
pub(crate) fn make_ready(
    alloc: Global,
    table: &PlanTable,
    job: &mut Job,
    progress: &mut Progress,
) -> Result<(), AllocError>
    requires counted { AreCounted table.now progress.old.store.columns.all progress.old.store.segments }
    ensures job { job.new ≡ job.old }
    ensures standing { standing_of progress.new ≡ standing_of progress.old }
    ensures counted { AreCounted table.now progress.new.store.columns.all progress.new.store.segments }
    ensures here { progress.new.store.columns.here ≡ progress.old.store.columns.here }
    ensures ready { OnOk result (progress.new.store.columns.ready ≡ true) }
    ensures others { progress.new ≡ record progress.old { store = progress.new.store } }
{
    index_handed(job, progress)?;
    progress.store.make_ready(alloc, table, job.splits.len())
}
