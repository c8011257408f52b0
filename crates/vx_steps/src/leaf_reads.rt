//! Which leaves the selected rows of a plan read.

ghost use Rattle.std.specs.Prelude.{◌≡◌, ◌+◌, ◌-◌, ◌<◌, ◌≤◌, [], ◌∷◌, ◌++◌, length, option_map, IfSome, OnOk};
ghost use Rattle.std.specs.Bool.{MatchBool};
ghost use Rattle.vx_plan.specs.declared.parts.Part.TheVariants.{All, Rows};
ghost use Rattle.vx_plan.specs.declared.shapes.Shape.TheVariants.{Leaf};
ghost use Rattle.vx_plan.specs.Plans.{plan_at};
ghost use Rattle.vx_plan.specs.Rules.{node_at};
ghost use Rattle.vx_plan.specs.Shapes.{HasShape};
ghost use Rattle.vx_steps.specs.Given.{handed_by};
ghost use Rattle.vx_steps.specs.Needs.{Adds, AreLeaves, IsUnderWhole, NoneGiven};
ghost use Rattle.vx_steps.specs.PartVisits.{PartVisits};
ghost use Rattle.vx_steps.specs.Visits.{SomeVisit, IsLeafRead};

use crate::kept::KeptColumns;
use crate::picking::selects_none;
use std::alloc::{AllocError, Global};
use vx_base::Mask;
use vx_plan::{ChildRows, Part, PartPlace, PlanRef, PlanTable, Shape};

/// A leaf that rows of a plan read: its plan, and the segment that it names.
#[derive(Clone, Copy, Debug, PartialEq, Eq)]
pub struct LeafRead {
    pub(crate) leaf: u32,
    pub(crate) segment: u32,
}

/// The leaf of the number, where the plan is one.
pub(crate) fn leaf_at(table: &PlanTable, plan: u32) -> Option<LeafRead>
    requires { plan < length table.now }
    ensures { IfSome result (λ leaf. (leaf.leaf ≡ plan) × HasShape table.now plan (Leaf leaf.segment)) }
{
    match table.shape(PlanRef(plan)) {
        Shape::Leaf(segment) => {
            Some(LeafRead {
                leaf: plan,
                segment,
            })
        }
        _ => None,
    }
}

/// Whether whole values were handed in for the number.
fn is_handed(given: Option<&KeptColumns>, whole: u32) -> bool
    ensures { MatchBool result (NoneGiven (option_map (λ kept. kept.now) given.entry) whole → ⊥) (NoneGiven (option_map (λ kept. kept.now) given.entry) whole) }
{
    match given {
        Some(given) => given.find(whole).is_some(),
        None => false,
    }
}

/// Adds a leaf that is read.
fn add_leaf(leaf: u32, segment: u32, reads: &mut Vec<LeafRead>) -> Result<(), AllocError>
    ensures { OnOk result (reads.new.items ≡ reads.old.items ++ record { leaf = leaf; segment = segment } ∷ []) }
{
    reads.push(LeafRead { leaf, segment })?;
    Ok(())
}

/// Adds the leaves that the selected rows of a plan read. Where whole values were handed in for a take or a share, none
/// is read for them; where no row is selected, none is read at all. While whole values are made nothing is handed in.
#[cycle(leaf_reads)]
pub(crate) fn add_reads(
    alloc: Global,
    table: &PlanTable,
    given: Option<&KeptColumns>,
    plan: u32,
    start: u64,
    mask: &Mask,
    reads: &mut Vec<LeafRead>,
) -> Result<(), AllocError>
    requires known { plan < length table.now }
    requires inside { start + length mask.now ≤ (node_at table.now plan).rows }
    ensures added { OnOk result (Adds (λ read. SomeVisit (IsLeafRead read) (handed_by table.now (option_map (λ kept. kept.now) given.entry)) (plan_at table.now plan) start mask.now) reads.old.items reads.new.items) }
    ensures leaves { OnOk result (AreLeaves table.now reads.old.items → AreLeaves table.now reads.new.items) }
{
    if selects_none(mask) {
        return Ok(());
    }
    if let Shape::Leaf(segment) = table.shape(PlanRef(plan)) {
        return add_leaf(plan, segment, reads);
    }
    let mut place = PartPlace::first();
    while let Some(next) = table.next_part(PlanRef(plan), start, mask.len(), place) {
        match next.part {
            Part::Rows(rows) => add_row_reads(alloc, table, given, rows, mask, reads)?,
            Part::Whole(whole, child) => {
                add_whole_reads(alloc, table, given, whole, child, reads)?
            }
            Part::All(child) => add_all_reads(alloc, table, given, child, reads)?,
        }
        place = next.behind;
    }
    Ok(())
}

/// Adds the leaves that rows of a child read which the mask selects at their places.
#[cycle(leaf_reads)]
fn add_row_reads(
    alloc: Global,
    table: &PlanTable,
    given: Option<&KeptColumns>,
    rows: ChildRows,
    mask: &Mask,
    reads: &mut Vec<LeafRead>,
) -> Result<(), AllocError>
    requires known { rows.child < length table.now }
    requires forwards { rows.from ≤ rows.to }
    requires asked { rows.to ≤ length mask.now }
    requires inside { rows.start + (rows.to - rows.from) ≤ (node_at table.now rows.child).rows }
    ensures added { OnOk result (Adds (λ read. PartVisits (IsLeafRead read) table.now (option_map (λ kept. kept.now) given.entry) mask.now (Rows rows)) reads.old.items reads.new.items) }
    ensures leaves { OnOk result (AreLeaves table.now reads.old.items → AreLeaves table.now reads.new.items) }
{
    if rows.from == 0 && rows.to == mask.len() {
        return add_reads(alloc, table, given, rows.child, rows.start, mask, reads);
    }
    let some = mask.slice(alloc, rows.from..rows.to)?;
    add_reads(alloc, table, given, rows.child, rows.start, &some, reads)
}

/// Adds the leaves that all rows of a plan read.
#[cycle(leaf_reads)]
fn add_all_reads(
    alloc: Global,
    table: &PlanTable,
    given: Option<&KeptColumns>,
    plan: u32,
    reads: &mut Vec<LeafRead>,
) -> Result<(), AllocError>
    requires known { plan < length table.now }
    ensures added { OnOk result (Adds (λ read. PartVisits (IsLeafRead read) table.now (option_map (λ kept. kept.now) given.entry) [] (All plan)) reads.old.items reads.new.items) }
    ensures leaves { OnOk result (AreLeaves table.now reads.old.items → AreLeaves table.now reads.new.items) }
{
    let all = Mask::new_true(alloc, table.row_count(PlanRef(plan)))?;
    add_reads(alloc, table, given, plan, 0, &all, reads)
}

/// Adds the leaves that all rows of a plan read, unless whole values were handed in for the number.
#[cycle(leaf_reads)]
pub(crate) fn add_whole_reads(
    alloc: Global,
    table: &PlanTable,
    given: Option<&KeptColumns>,
    whole: u32,
    plan: u32,
    reads: &mut Vec<LeafRead>,
) -> Result<(), AllocError>
    requires known { plan < length table.now }
    ensures added { OnOk result (Adds (λ read. IsUnderWhole table.now (option_map (λ kept. kept.now) given.entry) whole (IsLeafRead read) plan) reads.old.items reads.new.items) }
    ensures leaves { OnOk result (AreLeaves table.now reads.old.items → AreLeaves table.now reads.new.items) }
{
    if is_handed(given, whole) {
        return Ok(());
    }
    let all = Mask::new_true(alloc, table.row_count(PlanRef(plan)))?;
    add_reads(alloc, table, None, plan, 0, &all, reads)
}
