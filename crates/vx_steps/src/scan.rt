//! The scan: it asks for segments, and gives the columns of its splits.

ghost use Rattle.std.specs.Prelude.{◌≡◌, ℕ, ◌<◌, ◌-◌, ◌^◌, [], List, length, map, min, true, false, Some, Ok, IfOk, IfErr, IsErr, IsOk, MatchResult};
ghost use Rattle.std.specs.List.{AllByRecursion};
ghost use Rattle.vx_plan.specs.Refs.{number_of};
ghost use Rattle.vx_plan.specs.Rules.{node_at};
ghost use Rattle.vx_steps.specs.declared.progress.Turn.TheVariants.{Done};
ghost use Rattle.vx_steps.specs.Held.{AreTyped, FitsOffset};
ghost use Rattle.vx_steps.specs.Jobs.{AddsLeaves, IsUnstarted, KeepsBound, KeepsColumns, KeepsTold, KeepsWholesFor, WantsFor};
ghost use Rattle.vx_steps.specs.Kept.{kept_data, AreOfDistinctPlans};
ghost use Rattle.vx_steps.specs.Leavings.{IsReadBehind};
ghost use Rattle.vx_steps.specs.Offers.{IsForLeaf, IsForPlan, Keeps};
ghost use Rattle.vx_steps.specs.Needs.{Among};
ghost use Rattle.vx_steps.specs.Asked.{AreEachOnce};
ghost use Rattle.vx_steps.specs.ReadTable.{bytes_of, held_bytes, IsGone, IsOutstanding};
ghost use Rattle.vx_steps.specs.ScanData.{IsNew, IsOfHanded, StaysTold, TakesBytes};
ghost use Rattle.vx_steps.specs.Splits.{IsInside};
ghost use Rattle.vx_steps.specs.Steps.{active_in, GoesOn, HasCame, IsReadByRest, IsStepRefusal, ServesRest, TakesTurn, work_left};
ghost use Rattle.vx_steps.specs.Wants.{Grows};
ghost use Rattle.vx_steps.specs.Wholes.{UsesGiven};

use crate::errors::{DeliverError, StepError};
use crate::jobs::{Job, Progress};
use crate::kept::{KeptColumns, KeptValue};
use crate::leaf_stores::LeafStore;
use crate::leavings::{ScanKept, leaves_behind};
use crate::offers::{for_leaves, for_plans};
use crate::progress::{Turn, next_turn};
use crate::reads::ReadId;
use crate::splits::{ScanBuildError, Split, check_splits};
use crate::wholes::Wholes;
use std::alloc::Global;
use std::marker::Model;
use vx_plan::{PlanRef, PlanTable};

/// A scan of splits of a plan's rows.
#[derive(Drop)]
pub struct Scan<'a> {
    alloc: Global,
    table: &'a PlanTable,
    job: Job,
    progress: Progress,
    refused: bool,
}

impl<'a> Model for Scan<'a> {
    ghost use Rattle.std.specs.Coded.{codes};
    ghost use Rattle.vx_plan.specs.NodeCodes.{coded_nodes};
    ghost use Rattle.vx_steps.specs.KeptData.{coded_kept_list};
    ghost use Rattle.vx_steps.specs.ScanData.{ScanData};

    ghost Value = { ScanData };

    ghost coded = { Prim.hlevel (codes, coded_nodes, coded_kept_list) };

    ghost use Rattle.std.specs.Prelude.{◌≡◌, true, false};
    ghost use Rattle.vx_steps.specs.Running.{IsEmptied, IsRunning, IsSound};
    ghost use Rattle.vx_steps.specs.Standings.{standing_of};

    ghost view = { λ a. record { nodes = a.table.now; job = a.job; progress = standing_of a.progress; refused = a.refused } };

    ghost invariant = { λ a. IsSound a.table.now a.job a.progress × ((a.refused ≡ false → IsRunning a.table.now a.job a.progress) × (a.refused ≡ true → IsEmptied a.progress)) };
}

impl<'a> Scan<'a> {
    /// A scan of the splits of a plan's rows.
    pub fn try_new(
        alloc: Global,
        table: &'a PlanTable,
        plan: PlanRef,
        splits: Vec<Split>,
    ) -> Result<Scan<'a>, ScanBuildError>
        requires { number_of plan < length table.now }
        ensures inside { IsOk result → AllByRecursion (IsInside (node_at table.now (number_of plan)).rows) splits.items }
        ensures refused { IsErr result → AllByRecursion (IsInside (node_at table.now (number_of plan)).rows) splits.items → ⊥ }
        ensures scan { IfOk result (IsNew table.now (number_of plan) splits.items) }
    {
        check_splits(&splits, table.row_count(plan))?;
        Ok(Scan {
            alloc,
            table,
            job: Job::new(alloc, plan.0, splits),
            progress: Progress::new(alloc),
            refused: false,
        })
    }

    /// The scan, with so many splits active at once, and at least one.
    pub fn with_max_active(mut self, count: usize) -> Scan<'a>
        ensures scan { result ≡ record self.entry { job = record self.entry.job { max_active = count } } }
        ensures told { StaysTold self.entry result }
    {
        self.job.max_active = count;
        self
    }

    /// The scan, with the offset added to the numbers of rows. Whole values that were made, or handed in by `with_made`,
    /// are dropped, since they are of the former offset: so it is called before `with_made`. While a split is active, whose
    /// rows ask for those that were made, the scan stays as it is. It takes no memory.
    pub fn with_row_offset(mut self, offset: u64) -> Scan<'a>
        requires { FitsOffset self.nodes offset }
        ensures scan { self.entry.progress.started ≡ [] → result ≡ record self.entry { job = record self.entry.job { offset = offset }; progress = record self.entry.progress { wholes = record self.entry.progress.wholes { made = [] } } } }
        ensures active { (self.entry.progress.started ≡ [] → ⊥) → result ≡ self.entry }
        ensures told { StaysTold self.entry result }
    {
        if !self.progress.active.is_empty() {
            return self;
        }
        self.job.offset = offset;
        let made = KeptColumns::new(self.alloc);
        self.progress.hand_in_made(made);
        self
    }

    /// The scan, with whole values in place of those that a take or a share would read. One of another dtype or length
    /// than its plan's is dropped; of two for one plan the first stands. Once the scan was started all of them are
    /// dropped, and it stays as it is. It takes no memory.
    pub fn with_value_cache(mut self, given: Vec<KeptValue>) -> Scan<'a>
        ensures given { IsUnstarted self.entry.progress → Keeps (IsForPlan self.entry.nodes) (map kept_data given.items) result.job.given }
        ensures started { (IsUnstarted self.entry.progress → ⊥) → result ≡ self.entry }
        ensures others { result ≡ record self.entry { job = record self.entry.job { given = result.job.given } } }
        ensures told { StaysTold self.entry result }
    {
        if !self.progress.is_unstarted() {
            drop(given);
            return self;
        }
        let given = KeptColumns::of(self.alloc, for_plans(self.table, given));
        self.job.hand_in(given);
        self
    }

    /// The scan, with whole columns of leaves. One that is for no leaf, or of another dtype or length than its leaf's,
    /// is dropped; of two for one leaf the first stands. Once the scan was started all of them are dropped, and it stays
    /// as it is. It takes no memory.
    pub fn with_leaves(mut self, leaves: Vec<KeptValue>) -> Scan<'a>
        ensures leaves { IsUnstarted self.entry.progress → Keeps (IsForLeaf self.entry.nodes) (map kept_data leaves.items) result.progress.leaves }
        ensures started { (IsUnstarted self.entry.progress → ⊥) → result ≡ self.entry }
        ensures others { result ≡ record self.entry { progress = record self.entry.progress { leaves = result.progress.leaves } } }
        ensures told { IsUnstarted self.entry.progress → IsOfHanded result }
    {
        if !self.progress.is_unstarted() {
            drop(leaves);
            return self;
        }
        let store = LeafStore::of(self.alloc, for_leaves(self.table, leaves));
        self.progress.hand_in(store);
        self
    }

    /// The scan, with whole values that an earlier scan made over the same table and with the same offset. They are not
    /// made again, and stand among those that were made; where a value was handed in by `with_value_cache` for one of
    /// their plans, that one is used. One of another dtype or length than its plan's is dropped. Once the scan was started
    /// all of them are dropped, and it stays as it is. It takes no memory.
    ///
    /// A value that was handed in by `with_value_cache` may be anybody's, so that it is listed in `used` once it was
    /// used, by a copy. These are the caller's own: `used` lists none of them, and no copy is taken. No plan stands twice
    /// among them, as in what `made` lists: to drop a second column without memory, the list would have to be searched for
    /// each. A plan may stand twice in what the other calls are handed; the first counts.
    pub fn with_made(mut self, made: Vec<KeptValue>) -> Scan<'a>
        requires { AreOfDistinctPlans (map kept_data made.items) }
        ensures made { IsUnstarted self.entry.progress → Keeps (IsForPlan self.entry.nodes) (map kept_data made.items) result.progress.wholes.made }
        ensures started { (IsUnstarted self.entry.progress → ⊥) → result ≡ self.entry }
        ensures others { result ≡ record self.entry { progress = record self.entry.progress { wholes = record self.entry.progress.wholes { made = result.progress.wholes.made } } } }
        ensures apart { AreOfDistinctPlans result.progress.wholes.made }
        ensures told { IsUnstarted self.entry.progress → IsOfHanded result }
    {
        if !self.progress.is_unstarted() {
            drop(made);
            return self;
        }
        let made = KeptColumns::of(self.alloc, for_plans(self.table, made));
        self.progress.hand_in_made(made);
        self
    }

    /// Takes the bytes of a read that is outstanding. After a refusal they are let go at once. It takes no memory.
    pub fn deliver(&mut self, read: ReadId, bytes: Vec<u8>) -> Result<(), DeliverError>
        ensures { MatchResult result (λ _. TakesBytes read bytes.items self.old self.new) (λ _. (IsOutstanding self.old.progress.reads read → ⊥) × (self.new ≡ self.old)) }
    {
        let segment = match self.progress.reads.deliver(read, bytes) {
            Some(segment) => segment,
            None => return Err(DeliverError::UnknownRead),
        };
        if self.refused {
            self.progress.reads.let_go(segment);
        } else {
            self.progress.needed.held.insert(segment);
        }
        Ok(())
    }

    /// How many reads were handed out, which is the number of the next one. It takes no memory.
    pub fn reads_handed_out(&self) -> u64
        ensures { result ≡ self.now.progress.reads.handed }
    {
        self.progress.reads.handed_out()
    }

    /// How many bytes of segments the scan holds: those that were delivered and not let go yet. Columns don't count. It
    /// takes no memory, and goes over the segments that are wanted.
    pub fn held_bytes(&self) -> u64
        ensures { result ≡ min (held_bytes self.now.progress.reads.wanted self.now.progress.reads.stored) (2 ^ 64 - 1) }
    {
        self.progress.reads.held_bytes()
    }

    /// The segments of which the scan keeps bytes or decoded rows for rows to come, each once, in some order; whole values are
    /// apart, and so are columns of leaves that are kept for `into_leaves` alone. It takes no memory.
    pub fn held(&self) -> &[u32]
        ensures held { result.now ≡ self.now.progress.held }
        ensures once { AreEachOnce self.now.progress.held }
        ensures bytes { (segment : ℕ) (bytes : List ℕ) → bytes_of self.now.progress.reads.wanted segment ≡ Some bytes → (IsGone self.now.progress.reads.stored segment → ⊥) → Among segment self.now.progress.held }
        ensures read { self.now.refused ≡ false → (segment : ℕ) → Among segment self.now.progress.held → IsReadByRest self.now.nodes self.now.job self.now.progress segment }
        ensures delivered { self.now.refused ≡ false → (segment : ℕ) (bytes : List ℕ) → bytes_of self.now.progress.reads.wanted segment ≡ Some bytes → IsReadByRest self.now.nodes self.now.job self.now.progress segment → Among segment self.now.progress.held }
        ensures came { (segment : ℕ) → Among segment self.now.progress.held → HasCame self.now.nodes self.now.progress.reads.wanted self.now.progress.leaves segment }
        ensures refused { self.now.refused ≡ true → self.now.progress.held ≡ [] }
        ensures served { self.now.refused ≡ false → ServesRest self.now.nodes self.now.job self.now.progress }
    {
        self.table.keeps_rules();
        self.progress.needed.held.as_slice()
    }

    /// The values that were handed in and used, each once. They are copies: the call lends a list, and the values stay
    /// where they are found.
    pub fn used(&self) -> &[KeptValue]
        ensures values { map kept_data result.now ≡ self.now.progress.wholes.used }
        ensures uses { UsesGiven self.now.job.given [] self.now.progress.wholes.used }
        ensures typed { AreTyped self.now.nodes self.now.progress.wholes.used }
        ensures apart { AreOfDistinctPlans self.now.progress.wholes.used }
    {
        self.progress.wholes.used.columns()
    }

    /// The whole values that were made, or handed in by `with_made`, each once.
    pub fn made(&self) -> &[KeptValue]
        ensures values { map kept_data result.now ≡ self.now.progress.wholes.made }
        ensures typed { AreTyped self.now.nodes self.now.progress.wholes.made }
        ensures apart { AreOfDistinctPlans self.now.progress.wholes.made }
    {
        self.progress.wholes.made.columns()
    }

    /// The columns of leaves that were handed in or decoded, and whose rows reach past those of the splits: the row
    /// behind them reads the leaf. The leaves of a take's values and of a share are among them. It takes no memory.
    pub fn into_leaves(self) -> Vec<KeptValue>
        ensures leaves { Keeps (λ kept. IsReadBehind self.entry.nodes self.entry.job kept.node) self.entry.progress.leaves (map kept_data result.items) }
        ensures typed { AreTyped self.entry.nodes (map kept_data result.items) }
    {
        let Scan {
            alloc,
            table,
            job,
            progress,
            ..
        } = self;
        let Progress {
            active,
            reads,
            store,
            wholes,
            needed,
            ..
        } = progress;
        let LeafStore { columns, segments } = store;
        drop(segments);
        drop(active);
        drop(reads);
        drop(needed);
        drop(wholes);
        let leaves = leaves_behind(alloc, table, &job, columns);
        drop(job);
        leaves
    }

    /// What the scan leaves to the next one: the leaves that `into_leaves` gives, and the whole values that `used` and
    /// `made` list, all handed on without a copy. It takes no memory.
    pub fn into_kept(self) -> ScanKept
        ensures leaves { Keeps (λ kept. IsReadBehind self.entry.nodes self.entry.job kept.node) self.entry.progress.leaves (map kept_data result.leaves.items) }
        ensures used { map kept_data result.used.items ≡ self.entry.progress.wholes.used }
        ensures made { map kept_data result.made.items ≡ self.entry.progress.wholes.made }
        ensures uses { UsesGiven self.entry.job.given [] self.entry.progress.wholes.used }
        ensures typed_leaves { AreTyped self.entry.nodes (map kept_data result.leaves.items) }
        ensures typed_used { AreTyped self.entry.nodes self.entry.progress.wholes.used }
        ensures typed_made { AreTyped self.entry.nodes self.entry.progress.wholes.made }
        ensures apart_used { AreOfDistinctPlans self.entry.progress.wholes.used }
        ensures apart_made { AreOfDistinctPlans self.entry.progress.wholes.made }
    {
        let Scan {
            alloc,
            table,
            job,
            progress,
            ..
        } = self;
        let Progress {
            active,
            reads,
            store,
            wholes,
            needed,
            ..
        } = progress;
        let LeafStore { columns, segments } = store;
        drop(segments);
        drop(active);
        drop(reads);
        drop(needed);
        let Wholes { made, used } = wholes;
        let leaves = leaves_behind(alloc, table, &job, columns);
        drop(job);
        ScanKept {
            leaves,
            used: used.into_columns(),
            made: made.into_columns(),
        }
    }

    /// The next turn. A step starts splits while one is left and fewer are active than may be, and wants the segments
    /// that they read. Then it comes to the first of these:
    ///
    /// - `Done`: no split is left. A split that selects no row is never one of those that are left.
    /// - `Read`: the next wanted segment is to be read, and its bytes delivered under that number. Each segment is handed
    ///   out once, and its bytes serve each leaf that names it.
    /// - `Output`: the column of the next selected rows of an active split, as many as are ready: all that they read is there,
    ///   and all that the whole values read which the split asks for. A split whose last selected row is given is active
    ///   no more. Of several the one that was started first gives its rows, so that splits are given in whatever order
    ///   their bytes come, and each split's rows in their order.
    /// - `Waiting`: all wanted segments were handed out, and the next selected row of each active split, or the whole values
    ///   that the split asks for, read bytes that did not come.
    ///
    /// What no row to come reads is let go: bytes, and columns of leaves, unless the row behind the splits reads them.
    ///
    /// # Errors
    ///
    /// A refusal names what an active split comes to: `Unsupported` a list of which it reads a row, `BadSegment` a
    /// segment whose delivered bytes spell no rows of a leaf that it reads, once the rows in front of it were given, `BadCode` a code that is neither null nor the
    /// place of a value, `EvalFault` a row at which an expression is a fault. Want of memory, `Memory`, is a refusal like
    /// these. None is tried again: later steps answer `Done`, whatever is left. What was made, used and decoded until
    /// then stays.
    pub fn step(&mut self) -> Result<Turn, StepError>
        ensures nodes { self.new.nodes ≡ self.old.nodes }
        ensures job { self.new.job ≡ self.old.job }
        ensures told { KeepsTold self.old.nodes self.old.job self.old.progress self.new.progress }
        ensures grows { Grows self.old.progress.reads.wanted self.new.progress.reads.wanted }
        ensures leaves { KeepsColumns self.old.progress.leaves self.new.progress.leaves }
        ensures leaves_only { AddsLeaves self.old.nodes self.old.job (active_in result self.new.progress) self.old.progress.leaves self.new.progress.leaves }
        ensures wholes { KeepsWholesFor self.old.nodes self.old.job (active_in result self.new.progress) self.old.progress.wholes self.new.progress.wholes }
        ensures bounded { KeepsBound self.old.job self.old.progress self.new.progress }
        ensures wants { IfOk result (λ _. WantsFor self.old.nodes self.old.job (active_in result self.new.progress) self.old.progress self.new.progress) }
        ensures turn { self.old.refused ≡ false → IfOk result (TakesTurn self.old.nodes self.old.job self.old.progress self.new.progress) }
        ensures lowers { IfOk result (λ turn. GoesOn turn → work_left self.old.job self.new.progress < work_left self.old.job self.old.progress) }
        ensures after_refusal { self.old.refused ≡ true → (result ≡ Ok Done) × (self.new ≡ self.old) }
        ensures cause { IfErr result (IsStepRefusal self.old.nodes self.old.job self.old.progress self.new.progress) }
        ensures refused { IsErr result → self.new.refused ≡ true }
        ensures not_refused { IsOk result → self.new.refused ≡ self.old.refused }
        ensures held { (segment : ℕ) → Among segment self.new.progress.held → IsReadByRest self.old.nodes self.old.job self.new.progress segment }
        ensures none_held { result ≡ Ok Done → self.new.progress.held ≡ [] }
        ensures let_go { IsErr result → self.new.progress.held ≡ [] }
    {
        if self.refused {
            return Ok(Turn::Done);
        }
        match next_turn(self.alloc, self.table, &mut self.job, &mut self.progress) {
            Ok(turn) => Ok(turn),
            Err(error) => {
                self.refused = true;
                self.progress.let_all_go();
                Err(error)
            }
        }
    }
}
