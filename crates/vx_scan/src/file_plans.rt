//! From a file to what its scan runs: a table with the plan of the projection, and the chunks of the rows.

ghost use Rattle.std.specs.Prelude.{◌≡◌, ◌+◌, ◌<◌, ◌≤◌, Some, length, map, IfOk};
ghost use Rattle.std.specs.List.{AllByRecursion};
ghost use Rattle.vx_base.specs.Limits.{most_segments};
ghost use Rattle.vx_base.specs.Masks.{true_count};
ghost use Rattle.vx_expr.specs.Bound.{IsBoundTo};
ghost use Rattle.vx_expr.specs.Types.{type_of};
ghost use Rattle.vx_layout.specs.Trees.{head_of, subtree};
ghost use Rattle.vx_plan.specs.Limits.{most_before_four};
ghost use Rattle.vx_plan.specs.Refs.{number_of};
ghost use Rattle.vx_plan.specs.Rules.{node_at};
ghost use Rattle.vx_plan.specs.Tables.{IsGoodTable};
ghost use Rattle.vx_splits.specs.Taken.{selected_rows};
ghost use Rattle.vx_splits.specs.Trimmed.{chosen_rows};
ghost use Rattle.vx_drive.specs.Plans.{AreInOrder};
ghost use Rattle.vx_scan.specs.Answer.{limited, pieces_of, size_of};
ghost use Rattle.vx_scan.specs.Admission.{BeginsOver};
ghost use Rattle.vx_scan.specs.Builders.{counted_from as offset_of};
ghost use Rattle.vx_scan.specs.PlanTexts.{projection_of};
ghost use Rattle.vx_scan.specs.FilePlans.{AreChunksOf, AreEnough, ArePlansOf, IsCutBy, IsPlannedFor, IsProjectedIn, LiesInside, is_met};
ghost use Rattle.vx_scan.specs.Settings.{scan_by};
ghost use Rattle.vx_scan.specs.Valid.{IsBound};

use crate::settings::Settings;
use std::alloc::{AllocError, Global};
use std::ops::Range;
use vx_drive::ScanPlans;
use vx_expr::BoundExpression;
use vx_io::segment_ranges;
use vx_layout::{LayoutTree, ScanFile};
use vx_lower::{Lowered, lower, plan_row_idx_expression};
use vx_plan::{PlanError, PlanRef, PlanTable};
use vx_splits::{
    SelectedRows, Selection, WorkScope, first_chunk, limit_rows, rows_per_chunk, select_rows,
};

/// How many rows a chunk has where the projection isn't the bare root.
const CHUNK_ROWS: u64 = 65536;

/// Whether so many rows are as many as the limit, if one is given.
fn is_met(limit: Option<u64>, count: u64) -> bool
    ensures { result ≡ is_met limit count }
{
    match limit {
        Some(limit) => limit <= count,
        None => false,
    }
}

/// How many rows were counted with those of one more chunk. They are counted only where there is a limit.
fn counted(limit: Option<u64>, count: u64, chunk: &SelectedRows) -> u64
    ensures { result ≤ count + true_count chunk.now.mask }
{
    match limit {
        Some(_) => count.saturating_add(chunk.mask.true_count()),
        None => count,
    }
}

/// The rows of a range that the selection selects, cut at the multiples of the size, each chunk trimmed to its first
/// and last selected row. A chunk without a selected row is left out, and so is each behind the one by which they have as
/// many rows as the limit.
fn cut_chunks(
    alloc: Global,
    rows: Range<u64>,
    size: u64,
    selection: &Selection,
    limit: Option<u64>,
) -> Result<Vec<SelectedRows>, AllocError>
    requires { 0 < size }
    ensures pieces { IfOk result (λ chunks. AreEnough limit (pieces_of size (selected_rows selection.now rows.start rows.end)) (map chosen_rows chunks.items)) }
    ensures inside { IfOk result (λ chunks. AllByRecursion (LiesInside rows.end) chunks.items) }
    ensures ordered { IfOk result (λ chunks. AreInOrder chunks.items) }
    ensures trimmed { IfOk result (λ chunks. AllByRecursion (IsCutBy selection.now) chunks.items) }
{
    let mut left = rows;
    let mut chunks = Vec::new(alloc);
    let mut count: u64 = 0;
    while left.start < left.end && !is_met(limit, count) {
        let rows = first_chunk(&left, size);
        left.start = rows.end;
        let scope = WorkScope {
            file_ordinal: 0,
            rows,
        };
        if let Some(chunk) = select_rows(alloc, scope, selection)? {
            count = counted(limit, count, &chunk);
            chunks.push(chunk)?;
        }
    }
    Ok(chunks)
}

/// The first of the rows of a range that the selection selects, up to the limit, if one is given, in chunks as
/// `cut_chunks` gives them. The last one is trimmed once more, to the row that meets the limit.
fn cut_first_chunks(
    alloc: Global,
    rows: Range<u64>,
    size: u64,
    selection: &Selection,
    limit: Option<u64>,
) -> Result<Vec<SelectedRows>, AllocError>
    requires { 0 < size }
    ensures pieces { IfOk result (λ chunks. map chosen_rows chunks.items ≡ pieces_of size (limited limit (selected_rows selection.now rows.start rows.end))) }
    ensures inside { IfOk result (λ chunks. AllByRecursion (LiesInside rows.end) chunks.items) }
    ensures ordered { IfOk result (λ chunks. AreInOrder chunks.items) }
    ensures trimmed { IfOk result (λ chunks. AllByRecursion (IsCutBy selection.now) chunks.items) }
{
    let chunks = cut_chunks(alloc, rows, size, selection, limit)?;
    match limit {
        Some(limit) => limit_rows(alloc, chunks, limit),
        None => Ok(chunks),
    }
}

/// How many rows of the file a chunk has.
fn chunk_rows(file: &ScanFile, settings: &Settings) -> u64
    requires { length file.now.locations.items ≤ most_segments }
    ensures size { result ≡ size_of (scan_by file.now settings.now) }
    ensures some { 0 < result }
{
    let row_count = file.layout.row_count();
    if settings.projection.is_root() {
        rows_per_chunk(row_count, &file.locations)
    } else {
        CHUNK_ROWS
    }
}

/// The chunks of the scan, whose rows are those of the range that are selected, up to the limit, if one is given.
pub(crate) fn cut_file(
    alloc: Global,
    file: &ScanFile,
    settings: &Settings,
    rows: Range<u64>,
) -> Result<Vec<SelectedRows>, AllocError>
    requires few { length file.now.locations.items ≤ most_segments }
    requires begins { BeginsOver (scan_by file.now settings.now) rows }
    ensures { IfOk result (λ chunks. AreChunksOf (scan_by file.now settings.now) chunks.items) }
{
    let size = chunk_rows(file, settings);
    cut_first_chunks(alloc, rows, size, &settings.selection, settings.limit)
}

/// Plans the projection over the lowered tree: the root alone is the tree's own plan.
fn plan_projection(
    alloc: Global,
    table: &mut PlanTable,
    root: PlanRef,
    projection: &BoundExpression,
) -> Result<PlanRef, AllocError>
    requires room { length table.old < most_before_four }
    requires good { IsGoodTable table.old }
    requires last { number_of root + 1 ≡ length table.old }
    requires typed { type_of (node_at table.old (number_of root)).dtype projection.now.term ≡ Some projection.now.dtype }
    ensures { IfOk result (λ plan. IsProjectedIn table.old table.new projection.now (number_of root) (number_of plan)) }
{
    if projection.is_root() {
        return Ok(root);
    }
    let bound = projection.with_root(alloc, table.dtype(root))?;
    match plan_row_idx_expression(alloc, table, &bound, root) {
        Ok(plan) => {
            drop(bound);
            Ok(plan)
        }
        Err(PlanError::Memory) => {
            drop(bound);
            Err(AllocError)
        }
        Err(PlanError::BadPlan { .. }) => unreachable!(),
    }
}

/// The plan of the projection over the lowered layout, of which no more is lowered than the projection keeps.
pub(crate) fn plan_layout(
    alloc: Global,
    layout: &LayoutTree,
    projection: &BoundExpression,
) -> Result<Lowered, AllocError>
    requires bound { IsBoundTo projection.now (head_of (subtree layout.now 0)).dtype }
    ensures { IfOk result (λ made. IsPlannedFor (projection_of layout.now projection.now) made.table (number_of made.root)) }
{
    // The contract of `dtype` says that the expression has its dtype.
    layout.keeps_rules();
    let _dtype = projection.dtype();
    let kept = layout.kept(alloc, projection)?;
    let Lowered { mut table, root } = lower(alloc, layout, &kept)?;
    let root = plan_projection(alloc, &mut table, root, projection)?;
    Ok(Lowered { table, root })
}

/// From which number on rows are counted: the offset, where their numbers are used.
fn counted_from(projection: &BoundExpression, row_offset: u64) -> u64
    ensures { result ≡ offset_of projection.now row_offset }
{
    if projection.uses_row_idx() {
        row_offset
    } else {
        0
    }
}

/// What the chunks of the file share: the plan of the projection; where the segments lie; and from which number on rows
/// are counted, where their numbers are used.
pub(crate) fn plan_file(
    alloc: Global,
    file: ScanFile,
    settings: &Settings,
) -> Result<ScanPlans, AllocError>
    requires few { length file.locations.items ≤ most_segments }
    requires bound { IsBound (scan_by file settings.now) }
    ensures { IfOk result (ArePlansOf (scan_by file settings.now) settings.now.idle_limit) }
{
    let ScanFile { layout, locations } = file;
    let ranges = segment_ranges(alloc, &locations)?;
    let Lowered { table, root } = plan_layout(alloc, &layout, &settings.projection)?;
    let row_offset = counted_from(&settings.projection, settings.row_offset);
    Ok(ScanPlans {
        table,
        projection: root,
        locations,
        ranges,
        row_offset,
        idle_limit: settings.idle_limit,
    })
}
