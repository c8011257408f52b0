//! What a scan holds of leaves: their columns, and the segments that still have a leaf without one.

ghost use Rattle.std.specs.Prelude.{◌≡◌, [], List, map, true, OnOk};
ghost use Rattle.vx_plan.specs.Nodes.{Node};
ghost use Rattle.vx_steps.specs.Kept.{kept_data};
ghost use Rattle.vx_steps.specs.OpenSegments.{AreCounted};

use crate::kept::KeptValue;
use crate::leaf_columns::LeafColumns;
use crate::open_segments::OpenSegments;
use std::alloc::{AllocError, Global};
use vx_plan::PlanTable;

/// The columns of leaves, and the segments that still have a leaf without one.
#[derive(Drop)]
pub(crate) struct LeafStore {
    pub(crate) columns: LeafColumns,
    pub(crate) segments: OpenSegments,
}

impl LeafStore {
    /// No columns, and no leaves are counted. It takes no memory.
    pub(crate) fn new(alloc: Global) -> LeafStore
        ensures all { result.columns.all ≡ [] }
        ensures here { result.columns.here ≡ [] }
        ensures counted { (nodes : List Node) → AreCounted nodes [] result.segments }
    {
        LeafStore {
            columns: LeafColumns::new(alloc),
            segments: OpenSegments::new(alloc),
        }
    }

    /// These columns; no leaves are counted yet. It takes no memory.
    pub(crate) fn of(alloc: Global, columns: Vec<KeptValue>) -> LeafStore
        ensures all { result.columns.all ≡ map kept_data columns.items }
        ensures here { result.columns.here ≡ map kept_data columns.items }
        ensures counted { (nodes : List Node) → AreCounted nodes (map kept_data columns.items) result.segments }
    {
        LeafStore {
            columns: LeafColumns::of(alloc, columns),
            segments: OpenSegments::new(alloc),
        }
    }

    /// Indexes the columns, and counts for each segment the leaves over it whose columns are not kept, if there is a
    /// split after the first: the segment's bytes can go before it. Where memory is wanting, the columns are as before.
    pub(crate) fn make_ready(
        &mut self,
        alloc: Global,
        table: &PlanTable,
        splits: usize,
    ) -> Result<(), AllocError>
        requires { AreCounted table.now self.old.columns.all self.old.segments }
        ensures counted { AreCounted table.now self.new.columns.all self.new.segments }
        ensures all { self.new.columns.all ≡ self.old.columns.all }
        ensures here { self.new.columns.here ≡ self.old.columns.here }
        ensures ready { OnOk result (self.new.columns.ready ≡ true) }
    {
        self.columns.index()?;
        if splits < 2 {
            return Ok(());
        }
        self.segments.find(alloc, table, &self.columns)
    }
}
