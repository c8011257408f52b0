//! The columns of needed leaves, decoded from what was delivered.

ghost use Rattle.std.specs.Prelude.{◌≡◌, ◌<◌, length, map, None, Some, true, false, IfOk, IfErr, OnOk};
ghost use Rattle.std.specs.List.{slice_get};
ghost use Rattle.std.specs.Bool.{MatchBool};
ghost use Rattle.vx_plan.specs.declared.shapes.Shape.TheVariants.{Leaf};
ghost use Rattle.vx_plan.specs.Shapes.{HasShape};
ghost use Rattle.vx_steps.specs.Delivered.{KeepsLeaves, HasTornCause};
ghost use Rattle.vx_steps.specs.Kept.{kept_at, IsKept};
ghost use Rattle.vx_steps.specs.LeafStores.{KeepsHere};
ghost use Rattle.vx_steps.specs.Needs.{AreLeaves};
ghost use Rattle.vx_steps.specs.OpenSegments.{AreCounted};
ghost use Rattle.vx_steps.specs.Pieces.{read_of};
ghost use Rattle.vx_steps.specs.ReadTable.{IsGone, KeepsGone, bytes_of};
ghost use Rattle.vx_steps.specs.Releasing.{AreHeld, IsServed, LetsSpentGo};
ghost use Rattle.vx_steps.specs.Running.{AreDecoded};
ghost use Rattle.vx_steps.specs.Tries.{DecodesNeeds, IsTornAt, LacksNext, MovesNext};
ghost use Rattle.vx_steps.specs.Wants.{IsNeededLeaf};
ghost use Rattle.vx_steps.specs.Wholes.{AddsOnly};

use crate::errors::StepError;
use crate::leaf_columns::LeafColumns;
use crate::leaf_reads::LeafRead;
use crate::open_segments::OpenSegments;
use crate::placed_reads::PlacedRead;
use crate::reads::ReadTable;
use std::alloc::Global;
use vx_base::{DecodeError, decode_as};
use vx_plan::{PlanRef, PlanTable};

/// Decodes a needed leaf, unless its column is kept already, and says whether its column is there.
fn decode_need(
    alloc: Global,
    table: &PlanTable,
    need: LeafRead,
    reads: &ReadTable,
    leaves: &mut LeafColumns,
) -> Result<bool, StepError>
    requires known { need.leaf < length table.now }
    requires leaf { HasShape table.now need.leaf (Leaf need.segment) }
    requires held { IsGone reads.now.stored need.segment → IsKept leaves.old.all need.leaf }
    ensures keeps { KeepsLeaves table.now reads.now.wanted leaves.old.all leaves.new.all }
    ensures only { AddsOnly (λ n. need.leaf ≡ n) leaves.old.all leaves.new.all }
    ensures here { KeepsHere leaves.old leaves.new }
    ensures there { IfOk result (λ there. MatchBool there (IsKept leaves.new.all need.leaf) ((kept_at leaves.old.all need.leaf ≡ None) × (bytes_of reads.now.wanted need.segment ≡ None))) }
    ensures torn { IfErr result (HasTornCause table.now reads.now.wanted need) }
    ensures lacking { IfErr result (λ _. kept_at leaves.old.all need.leaf ≡ None) }
{
    if leaves.is_kept(need.leaf) {
        return Ok(true);
    }
    let bytes = match reads.bytes(need.segment) {
        Some(bytes) => bytes,
        None => return Ok(false),
    };
    table.keeps_rules();
    let plan = PlanRef(need.leaf);
    let coding = table.coding(plan);
    let column = match decode_as(
        alloc,
        table.dtype(plan),
        coding,
        table.row_count(plan),
        bytes,
    ) {
        Ok(column) => column,
        Err(DecodeError::BadSegment) => return Err(StepError::BadSegment(need.segment)),
        Err(DecodeError::Memory) => return Err(StepError::Memory),
    };
    leaves.keep_shared(alloc, need.leaf, column)?;
    Ok(true)
}

/// Decodes a needed leaf, unless its column is kept already, and says whether its column is there. The bytes of its
/// segment are let go where it was the last leaf over it without a column: nothing is decoded from them any more.
fn decode_open(
    alloc: Global,
    table: &PlanTable,
    segments: &mut OpenSegments,
    need: LeafRead,
    reads: &mut ReadTable,
    leaves: &mut LeafColumns,
) -> Result<bool, StepError>
    requires known { need.leaf < length table.now }
    requires leaf { HasShape table.now need.leaf (Leaf need.segment) }
    requires held { IsGone reads.old.stored need.segment → IsKept leaves.old.all need.leaf }
    requires counted { AreCounted table.now leaves.old.all segments.old }
    ensures counted { AreCounted table.now leaves.new.all segments.new }
    ensures keeps { KeepsLeaves table.now reads.old.wanted leaves.old.all leaves.new.all }
    ensures only { AddsOnly (λ n. need.leaf ≡ n) leaves.old.all leaves.new.all }
    ensures here { KeepsHere leaves.old leaves.new }
    ensures lets { LetsSpentGo table.now leaves.new.all reads.old reads.new }
    ensures there { IfOk result (λ there. MatchBool there (IsKept leaves.new.all need.leaf) ((kept_at leaves.old.all need.leaf ≡ None) × (bytes_of reads.old.wanted need.segment ≡ None))) }
    ensures torn { IfErr result (HasTornCause table.now reads.old.wanted need) }
{
    if leaves.is_kept(need.leaf) {
        return Ok(true);
    }
    match decode_need(alloc, table, need, reads, leaves) {
        Ok(true) => {}
        Ok(false) => return Ok(false),
        Err(error) => return Err(error),
    }
    if !segments.close(need.segment) {
        return Ok(true);
    }
    reads.let_go(need.segment);
    Ok(true)
}

/// What is read at a place among the needs.
fn read_at(needs: &[PlacedRead], place: usize) -> LeafRead
    requires { place < length needs.now }
    ensures { slice_get (map read_of needs.now) place ≡ Some result }
{
    let need = needs[place];
    LeafRead {
        leaf: need.leaf,
        segment: need.segment,
    }
}

/// Decodes the needed leaves from the next one on, and moves it to the first whose column isn't there, which is past the last
/// where there is none. The bytes of a segment are let go once each leaf over it has its column.
fn decode_from(
    alloc: Global,
    table: &PlanTable,
    segments: &mut OpenSegments,
    needs: &[PlacedRead],
    next: &mut usize,
    reads: &mut ReadTable,
    leaves: &mut LeafColumns,
) -> Result<(), StepError>
    requires known { AreLeaves table.now (map read_of needs.now) }
    requires held { AreHeld leaves.old.all reads.old.stored (map read_of needs.now) }
    requires counted { AreCounted table.now leaves.old.all segments.old }
    ensures counted { AreCounted table.now leaves.new.all segments.new }
    ensures keeps { KeepsLeaves table.now reads.old.wanted leaves.old.all leaves.new.all }
    ensures only { AddsOnly (IsNeededLeaf (map read_of needs.now)) leaves.old.all leaves.new.all }
    ensures here { KeepsHere leaves.old leaves.new }
    ensures lets { LetsSpentGo table.now leaves.new.all reads.old reads.new }
    ensures moves { MovesNext needs.now leaves.new.all next.old next.new }
    ensures missing { OnOk result (next.new < length needs.now → LacksNext reads.old.wanted leaves.old.all needs.now next.new) }
    ensures torn { IfErr result (IsTornAt table.now reads.old.wanted needs.now next.new) }
{
    'needs: while *next < needs.len() {
        let need = read_at(needs, *next);
        match decode_open(alloc, table, segments, need, reads, leaves) {
            Ok(true) => *next += 1,
            Ok(false) => return Ok(()),
            Err(error) => return Err(error),
        }
    }
    Ok(())
}

/// The same for the last split while no other is active: the bytes of a segment are let go once the last need that names it
/// is passed.
fn decode_last(
    alloc: Global,
    table: &PlanTable,
    needs: &[PlacedRead],
    next: &mut usize,
    reads: &mut ReadTable,
    leaves: &mut LeafColumns,
) -> Result<(), StepError>
    requires known { AreLeaves table.now (map read_of needs.now) }
    requires served { IsServed leaves.old.all reads.old (map read_of needs.now) }
    requires decoded { AreDecoded leaves.old.all needs.now next.old }
    ensures served { IsServed leaves.new.all reads.new (map read_of needs.now) }
    ensures still_gone { KeepsGone reads.old.stored reads.new.stored }
    ensures wanted { reads.new.wanted ≡ reads.old.wanted }
    ensures handed { reads.new.handed ≡ reads.old.handed }
    ensures keeps { KeepsLeaves table.now reads.old.wanted leaves.old.all leaves.new.all }
    ensures only { AddsOnly (IsNeededLeaf (map read_of needs.now)) leaves.old.all leaves.new.all }
    ensures here { KeepsHere leaves.old leaves.new }
    ensures moves { MovesNext needs.now leaves.new.all next.old next.new }
    ensures missing { OnOk result (next.new < length needs.now → LacksNext reads.old.wanted leaves.old.all needs.now next.new) }
    ensures torn { IfErr result (IsTornAt table.now reads.old.wanted needs.now next.new) }
{
    for place in reads.passed()..needs.len() {
        *next = (*next).max(place);
        let need = read_at(needs, place);
        match decode_need(alloc, table, need, reads, leaves) {
            Ok(true) => reads.pass(need.segment, place + 1),
            Ok(false) => return Ok(()),
            Err(error) => return Err(error),
        }
    }
    *next = (*next).max(needs.len());
    Ok(())
}

/// Decodes the needs of a split from the next one on, as far as their bytes came. The bytes of a segment are let go once the
/// last leaf over it is decoded; in the last split, while no other is active, once the last one over it that it needs is.
pub(crate) fn decode_needs(
    alloc: Global,
    table: &PlanTable,
    segments: &mut OpenSegments,
    last: bool,
    needs: &[PlacedRead],
    next: &mut usize,
    reads: &mut ReadTable,
    leaves: &mut LeafColumns,
) -> Result<(), StepError>
    requires known { AreLeaves table.now (map read_of needs.now) }
    requires served { IsServed leaves.old.all reads.old (map read_of needs.now) }
    requires decoded { AreDecoded leaves.old.all needs.now next.old }
    requires counted { AreCounted table.now leaves.old.all segments.old }
    ensures counted { AreCounted table.now leaves.new.all segments.new }
    ensures decoded { DecodesNeeds table.now last (map read_of needs.now) reads.old reads.new leaves.old.all leaves.new.all }
    ensures here { KeepsHere leaves.old leaves.new }
    ensures moves { MovesNext needs.now leaves.new.all next.old next.new }
    ensures missing { OnOk result (next.new < length needs.now → LacksNext reads.old.wanted leaves.old.all needs.now next.new) }
    ensures torn { IfErr result (IsTornAt table.now reads.old.wanted needs.now next.new) }
{
    if last {
        return decode_last(alloc, table, needs, next, reads, leaves);
    }
    decode_from(alloc, table, segments, needs, next, reads, leaves)
}
