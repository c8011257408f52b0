//! The rules on the rows of children, and on zones.

ghost use Rattle.std.specs.Prelude.{◌≡◌, ◌+◌, ◌≤◌, ◌^◌, ◌↔◌, map, sum_by, IfOk, IsTrue};
ghost use Rattle.vx_base.specs.Fits.{nullability_of};
ghost use Rattle.vx_base.specs.Views.{data_type};
ghost use Rattle.vx_layout.specs.Nodes.{node_data};
ghost use Rattle.vx_layout.specs.Shape.{most_rows, rows_of, AreZones, RowsAt, RowsFit, ValidityRowsAt, ZonesCount, ZonesFit};

use crate::children::{child_at, has_rows_at, have_all_rows, node_of};
use crate::nodes::{LayoutKind, LayoutNode};
use std::alloc::{AllocError, Global};
use vx_expr::Statistic;
use vx_rows::{stand_over, zones_type};

/// The rows of the node of that number, 0 where there is none.
fn rows_of(nodes: &[LayoutNode], number: u32) -> u64
    ensures { result ≡ rows_of (map node_data nodes.now) number }
{
    match node_of(nodes, number) {
        Some(node) => node.row_count,
        None => 0,
    }
}

/// Whether the rows of these nodes add up to the number.
fn add_up(nodes: &[LayoutNode], children: &[u32], rows: u64) -> bool
    ensures { IsTrue result ↔ (sum_by (rows_of (map node_data nodes.now)) children.now ≡ rows) }
{
    let mut left = rows;
    for child in children {
        let more = rows_of(nodes, *child);
        if left < more {
            return false;
        }
        left -= more;
    }
    left == 0
}

/// Whether the child at the place has one row more than its parent.
fn has_one_more_at(nodes: &[LayoutNode], node: &LayoutNode, place: usize) -> bool
    ensures { IsTrue result ↔ RowsAt (map node_data nodes.now) (node_data node.now) place (node.now.row_count + 1) }
{
    match child_at(nodes, node, place) {
        Some(child) => child.row_count > node.row_count && child.row_count - node.row_count == 1,
        None => false,
    }
}

/// Whether the validity at the place has the rows of the node, where there is one.
fn has_validity_rows_at(nodes: &[LayoutNode], node: &LayoutNode, place: usize) -> bool
    ensures { IsTrue result
        ↔ ValidityRowsAt (map node_data nodes.now) (node_data node.now) place (nullability_of (data_type node.now.dtype)) }
{
    if node.dtype.is_nullable() {
        has_rows_at(nodes, node, place, node.row_count)
    } else {
        true
    }
}

/// Whether the rows of the children fit those of the node.
pub fn have_fitting_rows(nodes: &[LayoutNode], node: &LayoutNode) -> bool
    ensures { IsTrue result ↔ RowsFit (map node_data nodes.now) (node_data node.now) (node_data node.now).kind }
{
    match &node.kind {
        LayoutKind::Flat { .. } => true,
        LayoutKind::Chunked => add_up(nodes, &node.children, node.row_count),
        LayoutKind::Struct => have_all_rows(nodes, &node.children, node.row_count),
        LayoutKind::Dict => has_rows_at(nodes, node, 1, node.row_count),
        LayoutKind::List => has_one_more_at(nodes, node, 1) && has_validity_rows_at(nodes, node, 2),
        LayoutKind::Zoned { .. } | LayoutKind::LegacyStats { .. } => has_rows_at(
            nodes,
            node,
            0,
            node.row_count,
        ),
    }
}

/// Whether so many zones of the length hold the rows, where the length isn't 0.
fn is_zones_count(zone_len: u64, rows: u64, count: u64) -> bool
    ensures { IsTrue result ↔ ZonesCount zone_len rows count }
{
    if zone_len == 0 {
        true
    } else {
        count == rows.div_ceil(zone_len)
    }
}

/// Whether the second child is a table of these statistics, with a row for each zone.
fn has_zones(
    alloc: Global,
    nodes: &[LayoutNode],
    node: &LayoutNode,
    zone_len: u64,
    stats: &[Statistic],
) -> Result<bool, AllocError>
    ensures { IfOk result (λ fit. IsTrue fit ↔ AreZones (map node_data nodes.now) (node_data node.now) zone_len stats.now) }
{
    if !stand_over(&node.dtype, stats) {
        return Ok(false);
    }
    match child_at(nodes, node, 1) {
        Some(zones) => {
            let dtype = zones_type(alloc, &node.dtype, stats)?;
            Ok(
                zones.dtype.same(&dtype)
                    && is_zones_count(zone_len, node.row_count, zones.row_count),
            )
        }
        None => Ok(false),
    }
}

/// Whether the zones of the node, if its kind has some, are a table of its statistics.
pub fn have_fitting_zones(
    alloc: Global,
    nodes: &[LayoutNode],
    node: &LayoutNode,
) -> Result<bool, AllocError>
    ensures { IfOk result (λ fit. IsTrue fit
        ↔ ZonesFit (map node_data nodes.now) (node_data node.now) (node_data node.now).kind) }
{
    match &node.kind {
        LayoutKind::Zoned { zone_len, stats } | LayoutKind::LegacyStats { zone_len, stats } => {
            has_zones(alloc, nodes, node, *zone_len, stats.items())
        }
        _ => Ok(true),
    }
}
