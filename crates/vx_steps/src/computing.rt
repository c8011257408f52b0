//! The column of the selected rows of a plan, from the columns of its leaves. This is no walk of the parts of a plan
//! (`PlanTable::next_part`), since each shape joins the columns of its children in its own way.

ghost use Rattle.std.specs.Prelude.{◌≡◌, ◌+◌, ◌-◌, ◌<◌, ◌≤◌, length, slice_range, true, Err, IfErr, IfOk, IfSome, IsTrue};
ghost use Rattle.std.specs.List.{All, AllByRecursion};
ghost use Rattle.std.specs.Option.{option_copied};
ghost use Rattle.vx_base.specs.ColumnCalls.{IsFitting};
ghost use Rattle.vx_base.specs.Masks.{true_count};
ghost use Rattle.vx_picking.specs.Rows.{SelectsSome};
ghost use Rattle.vx_plan.specs.declared.shapes.Shape.TheVariants.{Chunks, Fields, LookUp, Over, Pruned, Shared};
ghost use Rattle.vx_plan.specs.Kinds.{HasKind, IsPack};
ghost use Rattle.vx_plan.specs.Rules.{node_at};
ghost use Rattle.vx_plan.specs.Shapes.{HasShape};
ghost use Rattle.vx_plan.specs.Tables.{IsGoodTable};
ghost use Rattle.vx_steps.specs.Computed.{whole_in, AreChunkParts, AreParts, AreReady, AreReadyWhole, Computes, ComputesWhole};
ghost use Rattle.vx_steps.specs.Held.{held, IsHeld, IsLeafColumn};

use crate::childless::{leaf_of, no_rows, numbers_of};
use crate::errors::StepError;
use crate::kept::KeptColumns;
use crate::leaf_columns::LeafColumns;
use crate::picking::{joined, looked_up, picked_range, selects_none, structs, worked_out};
use crate::pruned::pruned_of;
use std::alloc::Global;
use std::ops::Range;
use vx_base::{Column, Mask};
use vx_picking::picked;
use vx_plan::{PlanRef, PlanTable, Shape, chunk_at};

/// What columns are computed from: the plans, the columns of their leaves, the whole values that were handed in, which
/// are none while whole values are made, those that were made, and what is added to the numbers of rows.
#[derive(Clone, Copy)]
pub(crate) struct Sources<'a> {
    pub(crate) table: &'a PlanTable,
    pub(crate) leaves: &'a LeafColumns,
    pub(crate) given: Option<&'a KeptColumns>,
    pub(crate) made: &'a KeptColumns,
    pub(crate) offset: u64,
}

impl<'a> Sources<'a> {
    /// The whole values that are there for a plan: handed in, or else made. None where there are none.
    fn whole(self, plan: u32) -> Option<&'a Column>
        ensures { option_copied result ≡ whole_in (held self.entry) plan }
    {
        if let Some(given) = self.given {
            if let Some(column) = given.find(plan) {
                return Some(column);
            }
        }
        self.made.find(plan)
    }

    /// The column of a plan of a shape, where that is to scan a segment.
    fn leaf(self, plan: u32, shape: Shape) -> Option<&'a Column>
        requires { HasShape self.table.now plan shape }
        ensures { IfSome (option_copied result) (IsLeafColumn (held self.entry) plan) }
    {
        match shape {
            Shape::Leaf(_) => self.leaves.find(plan),
            _ => None,
        }
    }
}

/// The column of the selected rows of a plan, over the leaves' columns.
#[cycle(computing)]
pub(crate) fn column_of(
    alloc: Global,
    from: Sources<'_>,
    plan: u32,
    start: u64,
    mask: &Mask,
) -> Result<Column, StepError>
    requires known { plan < length from.table.now }
    requires inside { start + length mask.now ≤ (node_at from.table.now plan).rows }
    requires held { IsHeld (held from) }
    requires ready { AreReady (held from) plan start mask.now }
    ensures dtype { IfOk result (λ column. column.dtype ≡ (node_at from.entry.table.now plan).dtype) }
    ensures rows { IfOk result (λ column. length column.values ≡ true_count mask.now) }
    ensures computed { Computes (held from.entry) plan start mask.now result }
{
    if selects_none(mask) {
        return no_rows(alloc, from.table, plan);
    }
    match from.table.shape(PlanRef(plan)) {
        Shape::Leaf(_) => leaf_of(alloc, from, plan, start, mask),
        Shape::Same(child) => column_of(alloc, from, child, start, mask),
        Shape::Zoned(content, _) => column_of(alloc, from, content, start, mask),
        Shape::Chunks => chunks_of(alloc, from, plan, start, mask),
        Shape::Fields(_) => structs_of(alloc, from, plan, start, mask),
        Shape::LookUp(codes, values) => take_of(alloc, from, plan, codes, values, start, mask),
        Shape::Over(child) => eval_of(alloc, from, plan, child, start, mask),
        Shape::Shared(child) => share_of(alloc, from, plan, child, start, mask),
        Shape::RowNumbers => numbers_of(alloc, from, plan, start, mask),
        Shape::Pruned(zones) => prune_of(alloc, from, plan, zones, start, mask),
        Shape::Lists => Err(StepError::Unsupported(PlanRef(plan))),
    }
}

/// The column of all rows of a plan, in which nothing that was handed in is used.
#[cycle(computing)]
pub(crate) fn whole_of_plan(
    alloc: Global,
    from: Sources<'_>,
    plan: u32,
) -> Result<Column, StepError>
    requires good { IsGoodTable from.table.now }
    requires known { plan < length from.table.now }
    requires held { IsHeld (held from) }
    requires ready { AreReadyWhole (held from) plan }
    ensures dtype { IfOk result (λ column. column.dtype ≡ (node_at from.entry.table.now plan).dtype) }
    ensures rows { IfOk result (λ column. length column.values ≡ (node_at from.entry.table.now plan).rows) }
    ensures computed { ComputesWhole (held from.entry) plan result }
{
    let all = Mask::new_true(alloc, from.table.row_count(PlanRef(plan)))?;
    let alone = Sources {
        given: None,
        ..from
    };
    column_of(alloc, alone, plan, 0, &all)
}

/// The selected rows of each child of a concat that holds a row of the range, one after another.
#[cycle(computing)]
fn chunk_parts(
    alloc: Global,
    from: Sources<'_>,
    plan: u32,
    start: u64,
    mask: &Mask,
) -> Result<Vec<Column>, StepError>
    requires good { IsGoodTable from.table.now }
    requires known { plan < length from.table.now }
    requires concat { HasShape from.table.now plan Chunks }
    requires inside { start + length mask.now ≤ (node_at from.table.now plan).rows }
    requires held { IsHeld (held from) }
    requires ready { AreReady (held from) plan start mask.now }
    ensures parts { IfOk result (λ parts. AreChunkParts (held from.entry) plan start mask.now parts.items) }
    ensures fault { IfErr result (λ error. Computes (held from.entry) plan start mask.now (Err error)) }
{
    from.table.numbers_fit(PlanRef(plan));
    let selects_all = mask.all_true();
    let mut parts = Vec::new(alloc);
    let mut done: u64 = 0;
    let mut place: usize = 0;
    while done < mask.len() {
        let row = start + done;
        let chunk = chunk_at(from.table, plan, row, place);
        let here = (chunk.end - row).min(mask.len() - done);
        let part = match range_of(
            alloc,
            from,
            chunk.child,
            row - chunk.start,
            mask,
            selects_all,
            done..done + here,
        ) {
            Ok(part) => part,
            Err(error) => return Err(error),
        };
        parts.push(part)?;
        done += here;
        place = chunk.next;
    }
    Ok(parts)
}

/// The selected rows of a concat.
#[cycle(computing)]
fn chunks_of(
    alloc: Global,
    from: Sources<'_>,
    plan: u32,
    start: u64,
    mask: &Mask,
) -> Result<Column, StepError>
    requires good { IsGoodTable from.table.now }
    requires known { plan < length from.table.now }
    requires concat { HasShape from.table.now plan Chunks }
    requires inside { start + length mask.now ≤ (node_at from.table.now plan).rows }
    requires held { IsHeld (held from) }
    requires ready { AreReady (held from) plan start mask.now }
    ensures dtype { IfOk result (λ column. column.dtype ≡ (node_at from.entry.table.now plan).dtype) }
    ensures rows { IfOk result (λ column. length column.values ≡ true_count mask.now) }
    ensures computed { Computes (held from.entry) plan start mask.now result }
{
    match chunk_parts(alloc, from, plan, start, mask) {
        Ok(parts) => Ok(joined(alloc, from.table, plan, parts)?),
        Err(error) => Err(error),
    }
}

/// The rows of a plan that a range of a mask selects. Those of a segment are picked out of its column at once.
#[cycle(computing)]
fn range_of(
    alloc: Global,
    from: Sources<'_>,
    plan: u32,
    start: u64,
    mask: &Mask,
    selects_all: bool,
    range: Range<u64>,
) -> Result<Column, StepError>
    requires known { plan < length from.table.now }
    requires all { IsTrue selects_all → All (λ bit. bit ≡ true) mask.now }
    requires forwards { range.start ≤ range.end }
    requires masked { range.end ≤ length mask.now }
    requires inside { start + (range.end - range.start) ≤ (node_at from.table.now plan).rows }
    requires held { IsHeld (held from) }
    requires ready { AreReady (held from) plan start (slice_range mask.now range.start range.end) }
    ensures dtype { IfOk result (λ column. column.dtype ≡ (node_at from.entry.table.now plan).dtype) }
    ensures rows { IfOk result (λ column. length column.values ≡ true_count (slice_range mask.now range.start range.end)) }
    ensures computed { Computes (held from.entry) plan start (slice_range mask.now range.start range.end) result }
{
    let shape = from.table.shape(PlanRef(plan));
    if let Shape::Same(child) = shape {
        return range_of(alloc, from, child, start, mask, selects_all, range);
    }
    if let Some(column) = from.leaf(plan, shape) {
        return Ok(picked_range(alloc, column, start, mask, selects_all, range)?);
    }
    let some = mask.slice(alloc, range)?;
    column_of(alloc, from, plan, start, &some)
}

/// The selected rows of each child, of which the last may be a validity.
#[cycle(computing)]
fn parts_of(
    alloc: Global,
    from: Sources<'_>,
    plan: u32,
    start: u64,
    mask: &Mask,
) -> Result<Vec<Column>, StepError>
    requires good { IsGoodTable from.table.now }
    requires known { HasKind IsPack from.table.now plan }
    requires inside { start + length mask.now ≤ (node_at from.table.now plan).rows }
    requires held { IsHeld (held from) }
    requires ready { AreReady (held from) plan start mask.now }
    ensures parts { IfOk result (λ parts. AreParts (held from.entry) start mask.now (node_at from.entry.table.now plan).children parts.items) }
    ensures rows { IfOk result (λ parts. AllByRecursion (λ part. length part.values ≡ true_count mask.now) parts.items) }
    ensures fit { IfOk result (λ parts. AllByRecursion IsFitting parts.items) }
    ensures fault { IfErr result (λ error. Computes (held from.entry) plan start mask.now (Err error)) }
{
    let mut parts = Vec::new(alloc);
    for place in 0..from.table.child_count(PlanRef(plan)) {
        let child = from.table.child_required(PlanRef(plan), place);
        match column_of(alloc, from, child.0, start, mask) {
            Ok(part) => {
                // The contract of `len` says that the values fit the dtype.
                let _rows = part.len();
                parts.push(part)?;
            }
            Err(error) => return Err(error),
        }
    }
    Ok(parts)
}

/// The selected rows of structs of the fields.
#[cycle(computing)]
fn structs_of(
    alloc: Global,
    from: Sources<'_>,
    plan: u32,
    start: u64,
    mask: &Mask,
) -> Result<Column, StepError>
    requires good { IsGoodTable from.table.now }
    requires known { HasKind IsPack from.table.now plan }
    requires inside { start + length mask.now ≤ (node_at from.table.now plan).rows }
    requires held { IsHeld (held from) }
    requires ready { AreReady (held from) plan start mask.now }
    ensures dtype { IfOk result (λ column. column.dtype ≡ (node_at from.entry.table.now plan).dtype) }
    ensures rows { IfOk result (λ column. length column.values ≡ true_count mask.now) }
    ensures computed { Computes (held from.entry) plan start mask.now result }
{
    match parts_of(alloc, from, plan, start, mask) {
        Ok(parts) => Ok(structs(alloc, from.table, plan, parts, mask.true_count())?),
        Err(error) => Err(error),
    }
}

/// The values at the codes of the selected rows of a take.
#[cycle(computing)]
fn take_of(
    alloc: Global,
    from: Sources<'_>,
    plan: u32,
    codes: u32,
    values: u32,
    start: u64,
    mask: &Mask,
) -> Result<Column, StepError>
    requires good { IsGoodTable from.table.now }
    requires known { plan < length from.table.now }
    requires take { HasShape from.table.now plan (LookUp codes values) }
    requires inside { start + length mask.now ≤ (node_at from.table.now plan).rows }
    requires some { SelectsSome mask.now }
    requires held { IsHeld (held from) }
    requires ready { AreReady (held from) plan start mask.now }
    ensures dtype { IfOk result (λ column. column.dtype ≡ (node_at from.entry.table.now plan).dtype) }
    ensures rows { IfOk result (λ column. length column.values ≡ true_count mask.now) }
    ensures computed { Computes (held from.entry) plan start mask.now result }
{
    from.table.numbers_fit(PlanRef(plan));
    let codes = match column_of(alloc, from, codes, start, mask) {
        Ok(codes) => codes,
        Err(error) => return Err(error),
    };
    if let Some(values) = from.whole(values) {
        let made = looked_up(alloc, plan, &codes, values, start, mask);
        drop(codes);
        return made;
    }
    match whole_of_plan(alloc, from, values) {
        Ok(values) => {
            let made = looked_up(alloc, plan, &codes, &values, start, mask);
            drop(values);
            drop(codes);
            made
        }
        Err(error) => {
            drop(codes);
            Err(error)
        }
    }
}

/// The selected rows of a share, whose child is read whole.
#[cycle(computing)]
fn share_of(
    alloc: Global,
    from: Sources<'_>,
    plan: u32,
    child: u32,
    start: u64,
    mask: &Mask,
) -> Result<Column, StepError>
    requires good { IsGoodTable from.table.now }
    requires known { plan < length from.table.now }
    requires share { HasShape from.table.now plan (Shared child) }
    requires inside { start + length mask.now ≤ (node_at from.table.now plan).rows }
    requires some { SelectsSome mask.now }
    requires held { IsHeld (held from) }
    requires ready { AreReady (held from) plan start mask.now }
    ensures dtype { IfOk result (λ column. column.dtype ≡ (node_at from.entry.table.now plan).dtype) }
    ensures rows { IfOk result (λ column. length column.values ≡ true_count mask.now) }
    ensures computed { Computes (held from.entry) plan start mask.now result }
{
    if let Some(column) = from.whole(plan) {
        return Ok(picked(alloc, column, start, mask)?);
    }
    match whole_of_plan(alloc, from, child) {
        Ok(column) => {
            let rows = picked(alloc, &column, start, mask);
            drop(column);
            let rows = rows?;
            Ok(rows)
        }
        Err(error) => Err(error),
    }
}

/// Of each selected row of a pruning plan whether its zone is pruned, by all rows of its zones.
#[cycle(computing)]
fn prune_of(
    alloc: Global,
    from: Sources<'_>,
    plan: u32,
    zones: u32,
    start: u64,
    mask: &Mask,
) -> Result<Column, StepError>
    requires good { IsGoodTable from.table.now }
    requires known { plan < length from.table.now }
    requires pruning { HasShape from.table.now plan (Pruned zones) }
    requires inside { start + length mask.now ≤ (node_at from.table.now plan).rows }
    requires some { SelectsSome mask.now }
    requires held { IsHeld (held from) }
    requires ready { AreReady (held from) plan start mask.now }
    ensures dtype { IfOk result (λ column. column.dtype ≡ (node_at from.entry.table.now plan).dtype) }
    ensures rows { IfOk result (λ column. length column.values ≡ true_count mask.now) }
    ensures computed { Computes (held from.entry) plan start mask.now result }
{
    from.table.numbers_fit(PlanRef(plan));
    let all = Mask::new_true(alloc, from.table.row_count(PlanRef(zones)))?;
    match column_of(alloc, from, zones, 0, &all) {
        Ok(told) => pruned_of(alloc, from.table, plan, told, start, mask),
        Err(error) => Err(error),
    }
}

/// The expression of a plan at the selected rows of its child.
#[cycle(computing)]
fn eval_of(
    alloc: Global,
    from: Sources<'_>,
    plan: u32,
    child: u32,
    start: u64,
    mask: &Mask,
) -> Result<Column, StepError>
    requires good { IsGoodTable from.table.now }
    requires known { plan < length from.table.now }
    requires eval { HasShape from.table.now plan (Over child) }
    requires inside { start + length mask.now ≤ (node_at from.table.now plan).rows }
    requires held { IsHeld (held from) }
    requires ready { AreReady (held from) plan start mask.now }
    ensures dtype { IfOk result (λ column. column.dtype ≡ (node_at from.entry.table.now plan).dtype) }
    ensures rows { IfOk result (λ column. length column.values ≡ true_count mask.now) }
    ensures computed { Computes (held from.entry) plan start mask.now result }
{
    from.table.numbers_fit(PlanRef(plan));
    let root = match column_of(alloc, from, child, start, mask) {
        Ok(root) => root,
        Err(error) => return Err(error),
    };
    match from.table.as_eval(PlanRef(plan)) {
        Some(eval) => {
            let made = worked_out(alloc, eval.expression(from.table), &root, start, mask);
            drop(root);
            made
        }
        None => unreachable!(),
    }
}
