//! Which segments selected rows of a plan could read.

ghost use Rattle.std.specs.Prelude.{◌≡◌, ◌+◌, ◌-◌, ◌<◌, ◌≤◌, ◌^◌, [], ◌∷◌, ◌++◌, Some, length, option_map, IfOk, IfSome, OnOk};
ghost use Rattle.vx_plan.specs.declared.parts.Part.TheVariants.{Rows};
ghost use Rattle.vx_plan.specs.PartReaches.{part_reach};
ghost use Rattle.vx_plan.specs.Plans.{plan_at};
ghost use Rattle.vx_plan.specs.Reaches.{all_rows, any_row, chosen_rows, fits, fixed, reached, reached_at, selected_of};
ghost use Rattle.vx_plan.specs.Refs.{number_of};
ghost use Rattle.vx_plan.specs.Rules.{node_at};

use crate::children::PlanRef;
use crate::parts::{ChildRows, Part, PartPlace};
use crate::reaching::{Reach, SegmentReach};
use crate::shapes::Shape;
use crate::tables::PlanTable;
use std::alloc::{AllocError, Global};
use std::ops::Range;
use vx_base::Mask;

/// So many rows of a plan from a first one on, and the row of the mask that the first of them is.
#[derive(Clone, Copy)]
struct Span {
    start: u64,
    count: u64,
    skip: u64,
}

/// Whether one of so many rows of the mask, from a first one on, is selected.
fn is_any_of(mask: &Mask, skip: u64, count: u64) -> bool
    requires within { skip + count ≤ length mask.now }
    requires fits { skip + count < 2 ^ 64 }
    ensures { result ≡ any_row (chosen_rows (Some mask.now) skip count) }
{
    for row in skip..skip + count {
        if mask.value(row) {
            return true;
        }
    }
    false
}

/// Whether one of these rows is selected: where there is no mask, all are.
fn is_any(mask: Option<&Mask>, span: Span) -> bool
    requires within { IfSome mask (λ rows. span.skip + span.count ≤ length rows.now) }
    requires fits { span.skip + span.count < 2 ^ 64 }
    ensures { result ≡ any_row (chosen_rows (option_map (λ rows. rows.now) mask.entry) span.skip span.count) }
{
    match mask {
        None => span.count > 0,
        Some(mask) => is_any_of(mask, span.skip, span.count),
    }
}

/// Appends the segment of a leaf, for the root's rows of the span.
fn collect_leaf(
    segment: u32,
    span: Span,
    at: &Reach,
    out: &mut Vec<SegmentReach>,
) -> Result<(), AllocError>
    requires end { span.start + span.count < 2 ^ 64 }
    requires reach { fits at.now (span.start + span.count) }
    ensures { OnOk result (out.new.items ≡ out.old.items ++ reached_at at.now span.start span.count segment ∷ []) }
{
    out.push(SegmentReach {
        segment,
        rows: at.root(&(span.start..span.start + span.count)),
    })?;
    Ok(())
}

/// Appends what a plan's rows of the span could read.
#[cycle(collecting)]
fn collect(
    table: &PlanTable,
    plan: PlanRef,
    span: Span,
    mask: Option<&Mask>,
    at: &Reach,
    out: &mut Vec<SegmentReach>,
) -> Result<(), AllocError>
    requires known { number_of plan < length table.now }
    requires inside { span.start + span.count ≤ (node_at table.now (number_of plan)).rows }
    requires masked { IfSome mask (λ rows. span.skip + span.count ≤ length rows.now) }
    requires end { span.start + span.count < 2 ^ 64 }
    requires skip { span.skip + span.count < 2 ^ 64 }
    requires reach { fits at.now (node_at table.now (number_of plan)).rows }
    ensures { OnOk result (out.new.items ≡ out.old.items ++ selected_of (plan_at table.now (number_of plan)) at.now span.start (chosen_rows (option_map (λ rows. rows.now) mask.entry) span.skip span.count)) }
{
    if !is_any(mask, span) {
        return Ok(());
    }
    if let Shape::Leaf(segment) = table.shape(plan) {
        return collect_leaf(segment, span, at, out);
    }
    let mut place = PartPlace::first();
    while let Some(next) = table.next_part(plan, span.start, span.count, place) {
        match next.part {
            Part::Rows(rows) => collect_rows(table, rows, span, mask, at, out)?,
            Part::Whole(_, child) => collect_whole(table, PlanRef(child), span, at, out)?,
            Part::All(child) => collect_whole(table, PlanRef(child), span, at, out)?,
        }
        place = next.behind;
    }
    Ok(())
}

/// Appends what rows of a child could read, which stand among those of the span.
#[cycle(collecting)]
fn collect_rows(
    table: &PlanTable,
    rows: ChildRows,
    span: Span,
    mask: Option<&Mask>,
    at: &Reach,
    out: &mut Vec<SegmentReach>,
) -> Result<(), AllocError>
    requires known { rows.child < length table.now }
    requires forwards { rows.from ≤ rows.to }
    requires asked { rows.to ≤ span.count }
    requires inside { rows.start + (rows.to - rows.from) ≤ (node_at table.now rows.child).rows }
    requires behind { rows.start ≤ span.start + rows.from }
    requires masked { IfSome mask (λ rows. span.skip + span.count ≤ length rows.now) }
    requires skip { span.skip + span.count < 2 ^ 64 }
    requires end { span.start + span.count < 2 ^ 64 }
    requires reach { fits at.now (span.start + rows.from - rows.start + (node_at table.now rows.child).rows) }
    ensures { OnOk result (out.new.items ≡ out.old.items ++ part_reach table.now at.now span.start (chosen_rows (option_map (λ rows. rows.now) mask.entry) span.skip span.count) (Rows rows)) }
{
    table.numbers_fit(PlanRef(rows.child));
    let met = Span {
        start: rows.start,
        count: rows.to - rows.from,
        skip: span.skip + rows.from,
    };
    let by = span.start + rows.from - rows.start;
    collect(table, PlanRef(rows.child), met, mask, &at.shift(by), out)
}

/// Appends what all rows of a plan could read, for the root's rows of the span, whichever they are.
#[cycle(collecting)]
fn collect_whole(
    table: &PlanTable,
    plan: PlanRef,
    span: Span,
    at: &Reach,
    out: &mut Vec<SegmentReach>,
) -> Result<(), AllocError>
    requires known { number_of plan < length table.now }
    requires end { span.start + span.count < 2 ^ 64 }
    requires reach { fits at.now (span.start + span.count) }
    ensures { OnOk result (out.new.items ≡ out.old.items ++ selected_of (plan_at table.now (number_of plan)) (fixed at.now span.start (span.start + span.count)) 0 (all_rows (node_at table.now (number_of plan)).rows)) }
{
    let fixed = at.fixed(&(span.start..span.start + span.count));
    let whole = Span {
        start: 0,
        count: table.row_count(plan),
        skip: 0,
    };
    collect(table, plan, whole, None, &fixed, out)
}

/// What all of these rows of a plan could read: one entry for each leaf, with the root's rows for which it is.
pub fn reach(
    alloc: Global,
    table: &PlanTable,
    plan: PlanRef,
    rows: Range<u64>,
    at: &Reach,
) -> Result<Vec<SegmentReach>, AllocError>
    requires known { number_of plan < length table.now }
    requires forwards { rows.start ≤ rows.end }
    requires inside { rows.end ≤ (node_at table.now (number_of plan)).rows }
    requires reach { fits at.now (node_at table.now (number_of plan)).rows }
    ensures { IfOk result (λ found. found.items ≡ reached (plan_at table.now (number_of plan)) at.now rows.start rows.end) }
{
    let mut out = Vec::new(alloc);
    let span = Span {
        start: rows.start,
        count: rows.end - rows.start,
        skip: 0,
    };
    collect(table, plan, span, None, at, &mut out)?;
    Ok(out)
}

/// What those of these rows of a plan could read that the mask selects.
pub fn selected(
    alloc: Global,
    table: &PlanTable,
    plan: PlanRef,
    rows: Range<u64>,
    mask: &Mask,
    at: &Reach,
) -> Result<Vec<SegmentReach>, AllocError>
    requires known { number_of plan < length table.now }
    requires forwards { rows.start ≤ rows.end }
    requires inside { rows.end ≤ (node_at table.now (number_of plan)).rows }
    requires mask { length mask.now ≡ rows.end - rows.start }
    requires reach { fits at.now (node_at table.now (number_of plan)).rows }
    ensures { IfOk result (λ found. found.items ≡ selected_of (plan_at table.now (number_of plan)) at.now rows.start mask.now) }
{
    let mut out = Vec::new(alloc);
    let span = Span {
        start: rows.start,
        count: rows.end - rows.start,
        skip: 0,
    };
    collect(table, plan, span, Some(mask), at, &mut out)?;
    Ok(out)
}
