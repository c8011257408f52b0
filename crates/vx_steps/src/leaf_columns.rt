//! The columns of leaves, of which those that are not needed any more are forgotten.

ghost use Rattle.std.specs.Prelude.{◌≡◌, ℕ, [], map, true, false, None, MatchResult, OnErr, OnOk, option_copied};
ghost use Rattle.std.specs.Bool.{MatchBool};
ghost use Rattle.vx_steps.specs.Kept.{kept_at, kept_data, ArePlaces, IsKept};
ghost use Rattle.vx_steps.specs.LeafColumns.{AddsColumn, AreAmongAll, Forgets, ForgetsApart, MarksApart, StandFor};
ghost use Rattle.vx_steps.specs.PlanMarks.{HasRoom, KeepsMarks};

use crate::kept::{KeptColumns, KeptValue};
use crate::places::PlaceTable;
use crate::plan_marks::PlanMarks;
use std::alloc::{AllocError, Global};
use std::marker::Model;
use std::snapshot::Snapshot;
use vx_base::Column;
use vx_plan::PlanRef;

/// The column of a leaf as it was seen, which only clauses remember.
#[derive(Drop)]
pub(crate) struct SeenColumn {
    node: PlanRef,
    column: Snapshot<Column>,
}

/// The columns of leaves in the order in which they came; for a leaf the first of its columns counts. Where the column
/// of a leaf is gone, the leaf is marked, and a column of no rows stands in its place, or none.
#[derive(Drop)]
pub(crate) struct LeafColumns {
    kept: KeptColumns,
    gone: PlanMarks,
    handed: Snapshot<Vec<KeptValue>>,
    decoded: Vec<SeenColumn>,
    ready: bool,
}

impl Model for LeafColumns {
    ghost use Rattle.vx_steps.specs.LeavesData.{LeavesData, coded_leaves};

    ghost Value = { LeavesData };

    ghost coded = { coded_leaves };

    ghost use Rattle.std.specs.Prelude.{map, ◌++◌};
    ghost use Rattle.vx_steps.specs.Kept.{kept_data};
    ghost use Rattle.vx_steps.specs.LeafColumns.{seen_data, unmarked, StoresLeaves};

    ghost view = { λ a. record { all = map kept_data a.handed.value.items ++ map seen_data a.decoded.items; here = unmarked a.gone a.kept; ready = a.ready } };

    ghost invariant = { λ a. StoresLeaves a.gone (map kept_data a.handed.value.items ++ map seen_data a.decoded.items) a.kept a.ready };
}

/// Makes room for the marks of the plans of the columns.
fn reach_all(columns: &[KeptValue], gone: &mut PlanMarks) -> Result<(), AllocError>
    ensures room { OnOk result (HasRoom gone.new (map kept_data columns.now)) }
    ensures marks { KeepsMarks gone.old gone.new }
{
    for place in 0..columns.len() {
        gone.reach(columns[place].node.0)?;
    }
    Ok(())
}

/// Marks the plans of the columns that have a place in the index. It takes no memory.
fn mark_apart(columns: &[KeptValue], apart: &PlaceTable, gone: &mut PlanMarks)
    requires { HasRoom gone.old (map kept_data columns.now) }
    ensures { MarksApart apart.now (map kept_data columns.now) gone.old gone.new }
{
    for place in 0..columns.len() {
        let node = columns[place].node.0;
        if apart.has(node) {
            gone.mark(node);
        }
    }
}

impl LeafColumns {
    /// No columns. It takes no memory.
    pub(crate) fn new(alloc: Global) -> LeafColumns
        ensures all { result.all ≡ [] }
        ensures here { result.here ≡ [] }
    {
        LeafColumns::of(alloc, Vec::new(alloc))
    }

    /// These columns. It takes no memory.
    pub(crate) fn of(alloc: Global, columns: Vec<KeptValue>) -> LeafColumns
        ensures all { result.all ≡ map kept_data columns.items }
        ensures here { result.here ≡ map kept_data columns.items }
    {
        LeafColumns {
            handed: Snapshot::of(&columns),
            kept: KeptColumns::of(alloc, columns),
            gone: PlanMarks::new(alloc),
            decoded: Vec::new(alloc),
            ready: false,
        }
    }

    /// Indexes the columns, so that none is looked through, and makes room to forget any of them.
    pub(crate) fn index(&mut self) -> Result<(), AllocError>
        ensures all { self.new.all ≡ self.old.all }
        ensures here { self.new.here ≡ self.old.here }
        ensures ready { OnOk result (self.new.ready ≡ true) }
    {
        if self.ready {
            return Ok(());
        }
        self.kept.index()?;
        reach_all(self.kept.columns(), &mut self.gone)?;
        self.ready = true;
        Ok(())
    }

    /// The first column of a plan, where one was kept that is not gone.
    pub(crate) fn find(&self, node: u32) -> Option<&Column>
        ensures { option_copied result ≡ kept_at self.now.here node }
    {
        if self.gone.get(node) {
            return None;
        }
        self.kept.find(node)
    }

    /// Whether a column of the plan was kept, gone or not.
    pub(crate) fn is_kept(&self, node: u32) -> bool
        ensures { MatchBool result (IsKept self.now.all node) (kept_at self.now.all node ≡ None) }
    {
        if self.gone.get(node) {
            return true;
        }
        self.kept.find(node).is_some()
    }

    /// The columns that are stored: each that is here, and perhaps one for a leaf whose column is gone.
    pub(crate) fn stored(&self) -> &[KeptValue]
        ensures here { (n : ℕ) → IsKept self.now.here n → IsKept (map kept_data result.now) n }
        ensures only { (n : ℕ) → IsKept (map kept_data result.now) n → IsKept self.now.all n }
    {
        self.kept.columns()
    }

    /// Says that what is here is among all.
    pub(crate) fn are_among_all(&self)
        ensures { AreAmongAll self.now }
    {
        let _ = &self.gone;
    }

    /// Keeps the column of a plan of which none was kept yet, so that others can share its rows: copies of it, and
    /// ranges of all its rows, then copy none.
    pub(crate) fn keep_shared(
        &mut self,
        alloc: Global,
        node: u32,
        column: Column,
    ) -> Result<(), AllocError>
        requires { kept_at self.old.all node ≡ None }
        ensures kept { OnOk result (AddsColumn node column self.old self.new) }
        ensures as_before { OnErr result (self.new ≡ self.old) }
    {
        self.gone.reach(node)?;
        self.decoded.push(SeenColumn {
            node: PlanRef(node),
            column: Snapshot::of(&column),
        })?;
        if self.kept.keep_shared(alloc, node, column).is_err() {
            drop(self.decoded.pop());
            return Err(AllocError);
        }
        Ok(())
    }

    /// Forgets the column of a plan, if one was kept: only clauses remember it. It takes no memory.
    pub(crate) fn forget(&mut self, alloc: Global, node: u32)
        requires ready { self.old.ready ≡ true }
        ensures { Forgets node self.old self.new }
    {
        if self.kept.find(node).is_none() {
            return;
        }
        self.gone.mark(node);
        // A column of no rows takes no memory.
        let empty = Column::from_numbers(alloc, Vec::new(alloc));
        if let Ok(column) = empty {
            self.kept.replace(node, column);
        }
    }

    /// Forgets the columns of all plans that have a place in the index, at once: only clauses remember them. The others are
    /// indexed again; where there is no memory for that, they are looked through from now on.
    pub(crate) fn forget_all(&mut self, alloc: Global, apart: &PlaceTable)
        requires { self.old.ready ≡ true }
        ensures { ForgetsApart apart.now self.old self.new }
    {
        mark_apart(self.kept.columns(), apart, &mut self.gone);
        self.kept.drop_marked(alloc, &self.gone);
        let _indexed = self.kept.index();
    }

    /// The columns that stand for all, in their order: each of whose plan one is here, and perhaps one for another; and the
    /// places of the first ones, where all are indexed. It takes no memory.
    pub(crate) fn into_indexed(self) -> Result<(Vec<KeptValue>, PlaceTable), Vec<KeptValue>>
        ensures { MatchResult result (λ found. StandFor self.here self.all (map kept_data found.0.items) × ArePlaces found.1 (map kept_data found.0.items)) (λ columns. StandFor self.here self.all (map kept_data columns.items)) }
    {
        let LeafColumns {
            kept,
            gone,
            handed,
            decoded,
            ..
        } = self;
        drop(gone);
        drop(handed);
        drop(decoded);
        kept.into_indexed()
    }
}
