//! Commands that ask for a plan.

ghost use Rattle.std.specs.Prelude.{◌<◌, length};
ghost use Rattle.vx_plan.specs.Kinds.{HasKind, IsZoned};
ghost use Rattle.vx_plan.specs.Refs.{number_of};

use std::alloc::{AllocError, Global};
use vx_base::{Coding, DType, Fields};
use vx_expr::{BoundExpression, Statistic, Statistics};
use vx_notation::dtype_text;
use vx_plan::{PlanRef, PlanTable, ZonedPlan};

/// The kind, dtype and rows of a plan.
fn write_kind(
    alloc: Global,
    table: &PlanTable,
    plan: PlanRef,
    out: &mut String,
) -> Result<(), AllocError>
    requires { number_of plan < length table.now }
{
    let rows = table.row_count(plan);
    let Ok(dtype) = dtype_text(alloc, table.dtype(plan)) else {
        return Err(AllocError);
    };
    let written = write!(out, "{}({dtype}, rows={rows})", table.id(plan).text());
    drop(dtype);
    written
}

/// The kind, dtype and rows of a plan, and its children by their names.
pub(crate) fn write_plan(
    alloc: Global,
    table: &PlanTable,
    plan: PlanRef,
    out: &mut String,
) -> Result<(), AllocError>
    requires { number_of plan < length table.now }
{
    write_kind(alloc, table, plan, out)?;
    for place in 0..table.child_count(plan) {
        let child = table.child_required(plan, place).0;
        let name = table.child_name(alloc, plan, place)?;
        let written = write!(out, " {}:{child}", name.as_str());
        drop(name);
        written?;
    }
    Ok(())
}

/// Appends the first row of each chunk.
fn write_offsets(offsets: &[u64], out: &mut String) -> Result<(), AllocError> {
    out.push_str("concat")?;
    for offset in offsets {
        write!(out, " {offset}")?;
    }
    Ok(())
}

/// Appends an expression, and the plan that it is over.
fn write_expression(
    alloc: Global,
    expression: &BoundExpression,
    child: PlanRef,
    out: &mut String,
) -> Result<(), AllocError> {
    match String::from_utf8(expression.text(alloc)?) {
        Ok(text) => write!(out, "eval {text} over {}", child.0),
        Err(_) => out.push_str("eval of a name that is no text"),
    }
}

/// What is got from a plan of chunks, of an expression, or of one other plan; else nothing.
fn write_one(
    alloc: Global,
    table: &PlanTable,
    plan: PlanRef,
    out: &mut String,
) -> Result<(), AllocError>
    requires { number_of plan < length table.now }
{
    if let Some(concat) = table.as_concat(plan) {
        return write_offsets(concat.row_offsets(table), out);
    }
    if let Some(eval) = table.as_eval(plan) {
        return write_expression(alloc, eval.expression(table), eval.child_plan(table), out);
    }
    if let Some(filter) = table.as_filter(plan) {
        return write!(out, "filter {}", filter.child_plan(table).0);
    }
    if let Some(share) = table.as_share(plan) {
        return write!(out, "share {}", share.child_plan(table).0);
    }
    Ok(())
}

/// Appends a plan, and `-` for none.
fn write_validity(validity: Option<PlanRef>, out: &mut String) -> Result<(), AllocError> {
    match validity {
        Some(plan) => write!(out, " validity {}", plan.0),
        None => out.push_str(" validity -"),
    }
}

/// Appends how many fields there are, and their names.
fn write_fields(count: usize, fields: &Fields, out: &mut String) -> Result<(), AllocError> {
    write!(out, "pack of {count}:")?;
    for field in fields.items() {
        write!(out, " {}", field.name.as_str())?;
    }
    Ok(())
}

/// Appends the coding of a segment where that isn't the plain one.
fn write_coding(coding: Coding, out: &mut String) -> Result<(), AllocError> {
    match coding {
        Coding::Plain => Ok(()),
        Coding::Constant => out.push_str(" constant"),
        Coding::Runs => out.push_str(" runs"),
    }
}

/// What is got from a plan of structs, of a look-up, of lists, or of a leaf; else nothing.
fn write_many(table: &PlanTable, plan: PlanRef, out: &mut String) -> Result<(), AllocError>
    requires { number_of plan < length table.now }
{
    if let Some(pack) = table.as_pack(plan) {
        write_fields(pack.nfields(table), pack.fields(table), out)?;
        return write_validity(pack.validity(table), out);
    }
    if let Some(take) = table.as_take(plan) {
        let (codes, values) = (take.codes(table).0, take.values(table).0);
        return write!(out, "take codes {codes} values {values}");
    }
    if let Some(list) = table.as_list_pack(plan) {
        let (elements, offsets) = (list.elements(table).0, list.offsets(table).0);
        write!(out, "list_pack elements {elements} offsets {offsets}")?;
        return write_validity(list.validity(table), out);
    }
    if table.as_row_idx(plan).is_some() {
        return out.push_str("row_idx");
    }
    if let Some(scan) = table.as_segment_scan(plan) {
        write!(out, "segment_scan {}", scan.segment_id(table))?;
        return write_coding(scan.coding(table), out);
    }
    Ok(())
}

/// Appends the dtype of the rows that a predicate is over.
fn write_dtype(alloc: Global, dtype: &DType, out: &mut String) -> Result<(), AllocError> {
    let Ok(text) = dtype_text(alloc, dtype) else {
        return Err(AllocError);
    };
    let written = write!(out, " over {text}");
    drop(text);
    written
}

/// Appends what plans of zones are called, their length, their zones, and the statistics as one sign each.
fn write_stats(
    name: &str,
    len: u64,
    zones: PlanRef,
    stats: &Statistics,
    out: &mut String,
) -> Result<(), AllocError> {
    write!(out, "{name} by {len} zones {} stats ", zones.0)?;
    for stat in stats.items() {
        let sign = match stat {
            Statistic::Min => '<',
            Statistic::Max => '>',
            Statistic::NullCount => '0',
        };
        out.push(sign)?;
    }
    Ok(())
}

/// What is got from a pruning plan: the predicate by which it prunes, and the dtype of the rows that this is over.
fn write_proof(
    alloc: Global,
    table: &PlanTable,
    zoned: ZonedPlan,
    out: &mut String,
) -> Result<(), AllocError>
    requires { HasKind IsZoned table.now (number_of zoned.plan) }
{
    match (
        zoned.is_pruning(table),
        zoned.pruning_proof(table),
        zoned.pruning_column_dtype(table),
    ) {
        (true, Some(proof), Some(dtype)) => {
            let text = proof.predicate().text(alloc)?;
            let Ok(text) = String::from_utf8(text) else {
                return out.push_str(" prune by a name that is no text");
            };
            let written = write!(out, " prune {text}");
            drop(text);
            written?;
            write_dtype(alloc, dtype, out)
        }
        (false, None, None) => Ok(()),
        _ => out.push_str(" half a pruning plan"),
    }
}

/// What is got from a plan of zones; else nothing.
fn write_zones(
    alloc: Global,
    table: &PlanTable,
    plan: PlanRef,
    out: &mut String,
) -> Result<(), AllocError>
    requires { number_of plan < length table.now }
{
    let data = if let Some(zoned) = table.as_zoned(plan) {
        let (len, zones) = (zoned.zone_len(table), zoned.zones_plan(table));
        write_stats("zoned", len, zones, zoned.stats(table), out)?;
        write_proof(alloc, table, zoned, out)?;
        zoned.data_plan(table)
    } else if let Some(legacy) = table.as_legacy_stats(plan) {
        let (len, zones) = (legacy.zone_len(table), legacy.zones_plan(table));
        write_stats("legacy_stats", len, zones, legacy.stats(table), out)?;
        Some(legacy.data_plan(table))
    } else {
        None
    };
    match data {
        Some(data) => write!(out, " data {}", data.0),
        None => Ok(()),
    }
}

/// What the calls of a plan's own kind give.
pub(crate) fn write_parts(
    alloc: Global,
    table: &PlanTable,
    plan: PlanRef,
    out: &mut String,
) -> Result<(), AllocError>
    requires { number_of plan < length table.now }
{
    write_one(alloc, table, plan, out)?;
    write_many(table, plan, out)?;
    write_zones(alloc, table, plan, out)
}

/// All plans of a table of fewer than a hundred, one behind the other.
pub(crate) fn state_text(alloc: Global, table: &PlanTable) -> Result<String, AllocError> {
    let mut out = String::new(alloc);
    if table.len() < 100 {
        for number in 0..table.len() {
            write_plan(alloc, table, PlanRef(number), &mut out)
                .and(out.push(';'))
                .and(write_parts(alloc, table, PlanRef(number), &mut out))
                .and(out.push(';'))?;
        }
    }
    Ok(out)
}
