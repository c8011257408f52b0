//! Plans of data that stands in zones.

ghost use Rattle.std.specs.Prelude.{◌≡◌, ◌<◌, [], ◌∷◌, ◌↔◌, length, IfErr, IfOk, IfSome, IsSome, OnErr};
ghost use Rattle.vx_plan.specs.Kinds.{zone_len_of, stats_of, zones_place, HasKind, IsLegacyStats, IsOverData, IsZoned};
ghost use Rattle.vx_plan.specs.Limits.{most_plans};
ghost use Rattle.vx_plan.specs.Refs.{number_of};
ghost use Rattle.vx_plan.specs.Rules.{legacy_node, node_at, nodes_at, zoned_node, RefusedBy};
ghost use Rattle.vx_plan.specs.Tables.{IsAdded, IsChildAt};

use crate::children::{PlanRef, two_children};
use crate::errors::PlanError;
use crate::nodes::{PlanKind, PlanNode};
use crate::plan_types::{LegacyStatsPlan, ZonedPlan};
use crate::tables::PlanTable;
use std::alloc::Global;
use vx_expr::Statistics;

impl ZonedPlan {
    /// A plan of the column's rows, of whose zones the other plan tells: rule 8.
    pub fn new(
        alloc: Global,
        table: &mut PlanTable,
        column: PlanRef,
        zones: PlanRef,
        zone_len: u64,
        stats: Statistics,
    ) -> Result<ZonedPlan, PlanError>
        requires room { length table.old < most_plans }
        requires column { number_of column < length table.old }
        requires zones { number_of zones < length table.old }
        ensures added { IfOk result (λ plan. IsAdded table.old table.new (zoned_node table.old (number_of column) (number_of zones) zone_len stats) (number_of plan.plan)) }
        ensures unchanged { OnErr result (table.new ≡ table.old) }
        ensures refused { IfErr result (RefusedBy (zoned_node table.old (number_of column) (number_of zones) zone_len stats) (nodes_at table.old (number_of column ∷ number_of zones ∷ []))) }
    {
        let dtype = table.shared_dtype(column)?;
        let children = two_children(alloc, column, zones)?;
        let node = PlanNode {
            kind: PlanKind::Zoned { zone_len, stats },
            dtype,
            row_count: table.row_count(column),
            children,
            row_offsets: Vec::new(alloc),
        };
        let plan = table.add(alloc, node)?;
        Ok(ZonedPlan { plan })
    }

    /// How many rows a zone has.
    pub fn zone_len(self, table: &PlanTable) -> u64
        requires { HasKind IsZoned table.now (number_of self.plan) }
        ensures { result ≡ zone_len_of (node_at table.now (number_of self.plan)).kind }
    {
        match table.node(self.plan.0).kind {
            PlanKind::Zoned { zone_len, .. } => zone_len,
            PlanKind::Pruning { zone_len, .. } => zone_len,
            _ => unreachable!(),
        }
    }

    /// What is told of each zone.
    pub fn stats(self, table: &PlanTable) -> &Statistics
        requires { HasKind IsZoned table.now (number_of self.plan) }
        ensures { result.now ≡ stats_of (node_at table.now (number_of self.plan)).kind }
    {
        match &table.node(self.plan.0).kind {
            PlanKind::Zoned { stats, .. } => stats,
            PlanKind::Pruning { stats, .. } => stats,
            _ => unreachable!(),
        }
    }

    /// The plan of the data, and `None` exactly on a pruning plan.
    pub fn data_plan(self, table: &PlanTable) -> Option<PlanRef>
        requires { HasKind IsZoned table.now (number_of self.plan) }
        ensures at { IfSome result (λ child. IsChildAt table.now (number_of self.plan) 0 (number_of child)) }
        ensures exactly { IsSome result ↔ HasKind IsOverData table.now (number_of self.plan) }
    {
        let node = table.node(self.plan.0);
        match node.kind {
            PlanKind::Zoned { .. } => Some(PlanRef(node.children.at(0))),
            _ => None,
        }
    }

    /// The plan of the zones.
    pub fn zones_plan(self, table: &PlanTable) -> PlanRef
        requires { HasKind IsZoned table.now (number_of self.plan) }
        ensures { IsChildAt table.now (number_of self.plan) (zones_place (node_at table.now (number_of self.plan)).kind) (number_of result) }
    {
        let node = table.node(self.plan.0);
        match node.kind {
            PlanKind::Zoned { .. } => PlanRef(node.children.at(1)),
            PlanKind::Pruning { .. } => PlanRef(node.children.at(0)),
            _ => unreachable!(),
        }
    }
}

impl LegacyStatsPlan {
    /// A plan of the column's rows, of whose zones the other plan tells in an older form: rule 8.
    pub fn new(
        alloc: Global,
        table: &mut PlanTable,
        column: PlanRef,
        zones: PlanRef,
        zone_len: u64,
        stats: Statistics,
    ) -> Result<LegacyStatsPlan, PlanError>
        requires room { length table.old < most_plans }
        requires column { number_of column < length table.old }
        requires zones { number_of zones < length table.old }
        ensures added { IfOk result (λ plan. IsAdded table.old table.new (legacy_node table.old (number_of column) (number_of zones) zone_len stats) (number_of plan.plan)) }
        ensures unchanged { OnErr result (table.new ≡ table.old) }
        ensures refused { IfErr result (RefusedBy (legacy_node table.old (number_of column) (number_of zones) zone_len stats) (nodes_at table.old (number_of column ∷ number_of zones ∷ []))) }
    {
        let dtype = table.shared_dtype(column)?;
        let children = two_children(alloc, column, zones)?;
        let node = PlanNode {
            kind: PlanKind::LegacyStats { zone_len, stats },
            dtype,
            row_count: table.row_count(column),
            children,
            row_offsets: Vec::new(alloc),
        };
        let plan = table.add(alloc, node)?;
        Ok(LegacyStatsPlan { plan })
    }

    /// How many rows a zone has.
    pub fn zone_len(self, table: &PlanTable) -> u64
        requires { HasKind IsLegacyStats table.now (number_of self.plan) }
        ensures { result ≡ zone_len_of (node_at table.now (number_of self.plan)).kind }
    {
        match table.node(self.plan.0).kind {
            PlanKind::LegacyStats { zone_len, .. } => zone_len,
            _ => unreachable!(),
        }
    }

    /// What is told of each zone.
    pub fn stats(self, table: &PlanTable) -> &Statistics
        requires { HasKind IsLegacyStats table.now (number_of self.plan) }
        ensures { result.now ≡ stats_of (node_at table.now (number_of self.plan)).kind }
    {
        match &table.node(self.plan.0).kind {
            PlanKind::LegacyStats { stats, .. } => stats,
            _ => unreachable!(),
        }
    }

    /// The plan of the data.
    pub fn data_plan(self, table: &PlanTable) -> PlanRef
        requires { HasKind IsLegacyStats table.now (number_of self.plan) }
        ensures { IsChildAt table.now (number_of self.plan) 0 (number_of result) }
    {
        PlanRef(table.node(self.plan.0).children.at(0))
    }

    /// The plan of the zones.
    pub fn zones_plan(self, table: &PlanTable) -> PlanRef
        requires { HasKind IsLegacyStats table.now (number_of self.plan) }
        ensures { IsChildAt table.now (number_of self.plan) 1 (number_of result) }
    {
        PlanRef(table.node(self.plan.0).children.at(1))
    }
}
