//! Kinds of node as they are printed.

use std::alloc::AllocError;
use vx_base::Coding;
use vx_expr::{Statistic, Statistics};
use vx_layout::LayoutKind;

/// Appends the rows of a zone, and the statistics as one sign each.
fn write_zones(
    name: &str,
    zone_len: u64,
    stats: &Statistics,
    out: &mut String,
) -> Result<(), AllocError> {
    write!(out, "{name}:{zone_len}:")?;
    for stat in stats.items() {
        out.push(match stat {
            Statistic::Min => '<',
            Statistic::Max => '>',
            Statistic::NullCount => '0',
        })?;
    }
    Ok(())
}

/// Appends the segment of a flat node, and its coding where that isn't the plain one.
fn write_flat(segment: u32, coding: Coding, out: &mut String) -> Result<(), AllocError> {
    write!(out, "flat:{segment}")?;
    match coding {
        Coding::Plain => Ok(()),
        Coding::Constant => out.push_str(":constant"),
        Coding::Runs => out.push_str(":runs"),
    }
}

/// Appends the kind.
pub(crate) fn write_kind(kind: &LayoutKind, out: &mut String) -> Result<(), AllocError> {
    match kind {
        LayoutKind::Flat { segment, coding } => write_flat(*segment, *coding, out),
        LayoutKind::Chunked => out.push_str("chunked"),
        LayoutKind::Struct => out.push_str("struct"),
        LayoutKind::Dict => out.push_str("dict"),
        LayoutKind::List => out.push_str("list"),
        LayoutKind::Zoned { zone_len, stats } => write_zones("zoned", *zone_len, stats, out),
        LayoutKind::LegacyStats { zone_len, stats } => write_zones("legacy", *zone_len, stats, out),
    }
}
