//! The rule on zones.

ghost use Rattle.std.specs.Prelude.{◌↔◌, map, slice_get, IsSomeAnd, IsTrue, IfOk};
ghost use Rattle.vx_base.specs.Views.{data_type};
ghost use Rattle.vx_plan.specs.Nodes.{node_data};
ghost use Rattle.vx_plan.specs.Rules.{nodes_at, AreZones, ZonesFit};
ghost use Rattle.vx_plan.specs.Tables.{AreIn};

use crate::checks::child_in;
use crate::nodes::{PlanKind, PlanNode};
use std::alloc::{AllocError, Global};
use vx_base::DType;
use vx_expr::Statistic;
use vx_rows::{stand_over, zones_type};

/// Whether the zones are a table of these statistics of so many rows of a dtype, with a row for each zone.
fn are_zones(
    alloc: Global,
    zone_len: u64,
    stats: &[Statistic],
    dtype: &DType,
    rows: u64,
    zones: &PlanNode,
) -> Result<bool, AllocError>
    ensures { IfOk result (λ fit. IsTrue fit ↔ AreZones zone_len stats.now (data_type dtype.now) rows (node_data zones.now)) }
{
    if zone_len == 0 || !stand_over(dtype, stats) {
        return Ok(false);
    }
    let asked = zones_type(alloc, dtype, stats)?;
    Ok(zones.dtype().same(&asked) && zones.row_count == rows.div_ceil(zone_len))
}

/// Whether the child at a place is a table of these statistics of the node's rows, which have this dtype.
fn has_zones(
    alloc: Global,
    nodes: &[PlanNode],
    node: &PlanNode,
    place: usize,
    zone_len: u64,
    stats: &[Statistic],
    dtype: &DType,
) -> Result<bool, AllocError>
    requires { AreIn (map node_data nodes.now) node.now.children }
    ensures { IfOk result (λ fit. IsTrue fit ↔ IsSomeAnd (slice_get (nodes_at (map node_data nodes.now) node.now.children) place) (AreZones zone_len stats.now (data_type dtype.now) node.now.row_count)) }
{
    match child_in(nodes, &node.children, place) {
        Some(zones) => Ok(are_zones(alloc, zone_len, stats, dtype, node.row_count, zones)?),
        None => Ok(false),
    }
}

/// Whether the zones of the node, if its kind has some, are a table of its statistics.
pub fn have_fitting_zones(
    alloc: Global,
    nodes: &[PlanNode],
    node: &PlanNode,
) -> Result<bool, AllocError>
    requires { AreIn (map node_data nodes.now) node.now.children }
    ensures { IfOk result (λ fit. IsTrue fit ↔ ZonesFit node.now.kind (node_data node.now).dtype node.now.row_count (nodes_at (map node_data nodes.now) node.now.children)) }
{
    match &node.kind {
        PlanKind::Zoned { zone_len, stats } | PlanKind::LegacyStats { zone_len, stats } => {
            let dtype = node.dtype();
            Ok(has_zones(alloc, nodes, node, 1, *zone_len, stats.items(), dtype)?)
        }
        PlanKind::Pruning {
            zone_len,
            stats,
            proof,
        } => {
            let dtype = proof.proof().predicate().root_dtype();
            Ok(has_zones(alloc, nodes, node, 0, *zone_len, stats.items(), dtype)?)
        }
        _ => Ok(true),
    }
}
