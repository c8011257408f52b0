//! The selected rows of a pruning plan: of each whether its zone is pruned, by the column of all its zones.

ghost use Rattle.std.specs.Prelude.{◌≡◌, ◌+◌, ◌*◌, ◌<◌, ◌≤◌, ◌^◌, length, map, Some, IfErr, IfOk};
ghost use Rattle.vx_base.specs.declared.dtypes.Nullability.TheVariants.{NonNullable};
ghost use Rattle.vx_base.specs.Data.{bool_type, truth};
ghost use Rattle.vx_base.specs.Masks.{true_count};
ghost use Rattle.vx_plan.specs.Kinds.{proof_of, HasKind, IsPruning, IsZoned};
ghost use Rattle.vx_plan.specs.Refs.{number_of};
ghost use Rattle.vx_plan.specs.Rules.{node_at};
ghost use Rattle.vx_steps.specs.declared.errors.StepError.TheVariants.{Memory};
ghost use Rattle.vx_steps.specs.Pruned.{rows_pruned, ArePruned, TellOfRows, TellsOfZones};

use crate::errors::StepError;
use std::alloc::{AllocError, Global};
use vx_arrays::Array;
use vx_base::{Column, DType, Mask, Nullability};
use vx_plan::{PlanRef, PlanTable, ZonedPlan};
use vx_zones::{ZoneError, ZoneProof, ZoneTable};

/// The pruning plan of the number.
fn pruning_at(table: &PlanTable, plan: u32) -> ZonedPlan
    requires known { plan < length table.now }
    requires pruning { HasKind IsPruning table.now plan }
    ensures number { number_of result.plan ≡ plan }
    ensures zoned { HasKind IsZoned table.now (number_of result.plan) }
{
    match table.as_zoned(PlanRef(plan)) {
        Some(zoned) => zoned,
        None => unreachable!(),
    }
}

/// The proof by which a pruning plan prunes.
fn proof_at(table: &PlanTable, plan: u32) -> &ZoneProof
    requires known { plan < length table.now }
    requires pruning { HasKind IsPruning table.now plan }
    ensures { Some result.now ≡ proof_of (node_at table.now plan).kind }
{
    let zoned = pruning_at(table, plan);
    match zoned.pruning_proof(table) {
        Some(proof) => proof,
        None => unreachable!(),
    }
}

/// Which zones of a pruning plan are pruned, by the column of all of them.
fn zones_pruned(
    alloc: Global,
    table: &PlanTable,
    plan: u32,
    told: Column,
) -> Result<Mask, StepError>
    requires known { plan < length table.now }
    requires pruning { HasKind IsPruning table.now plan }
    requires told { TellsOfZones (node_at table.now plan) told }
    ensures pruned { IfOk result (ArePruned (node_at table.now plan) told.values) }
    ensures memory { IfErr result (λ error. error ≡ Memory) }
{
    let zoned = pruning_at(table, plan);
    let proof = proof_at(table, plan);
    match ZoneTable::try_new(
        alloc,
        proof.predicate().root_dtype(),
        zoned.stats(table),
        told,
        zoned.zone_len(table),
        table.row_count(PlanRef(plan)),
    ) {
        Ok(zones) => {
            let pruned = zones.prune(alloc, proof, u64::MAX);
            drop(zones);
            Ok(pruned?)
        }
        Err(ZoneError::BadZones) => unreachable!(),
        Err(ZoneError::Memory) => Err(StepError::Memory),
    }
}

/// Of each selected row whether its zone is one of those that are pruned.
fn rows_pruned(
    alloc: Global,
    pruned: &Mask,
    zone_len: u64,
    start: u64,
    mask: &Mask,
) -> Result<Mask, AllocError>
    requires some_rows { 0 < zone_len }
    requires zoned { start + length mask.now ≤ length pruned.now * zone_len }
    requires few { start + length mask.now < 2 ^ 64 }
    ensures { IfOk result (λ rows. rows ≡ rows_pruned pruned.now zone_len start mask.now) }
{
    let mut rows = Vec::with_capacity(alloc, mask.true_count() as usize)?;
    for row in 0..mask.len() {
        if mask.value(row) {
            rows.push(pruned.value((start + row) / zone_len))?;
        }
    }
    Mask::of(alloc, rows)
}

/// The column of truth values that are never null.
fn truth_column(alloc: Global, truths: Mask) -> Result<Column, AllocError>
    ensures dtype { IfOk result (λ column. column.dtype ≡ bool_type NonNullable) }
    ensures values { IfOk result (λ column. column.values ≡ map truth truths) }
{
    let valid = Mask::new_true(alloc, truths.len())?;
    let array = Array::of_truths(valid, truths);
    Ok(Column::of_array(DType::Bool(Nullability::NonNullable), array))
}

/// Of each selected row of a pruning plan whether its zone is pruned, by the column of all its zones.
pub(crate) fn pruned_of(
    alloc: Global,
    table: &PlanTable,
    plan: u32,
    told: Column,
    start: u64,
    mask: &Mask,
) -> Result<Column, StepError>
    requires known { plan < length table.now }
    requires pruning { HasKind IsPruning table.now plan }
    requires told { TellsOfZones (node_at table.now plan) told }
    requires inside { start + length mask.now ≤ (node_at table.now plan).rows }
    requires few { (node_at table.now plan).rows < 2 ^ 64 }
    ensures dtype { IfOk result (λ column. column.dtype ≡ bool_type NonNullable) }
    ensures rows { IfOk result (λ column. length column.values ≡ true_count mask.now) }
    ensures values { IfOk result (λ column. TellOfRows (node_at table.now plan) told.values start mask.now column.values) }
    ensures memory { IfErr result (λ error. error ≡ Memory) }
{
    let zoned = pruning_at(table, plan);
    let zone_len = zoned.zone_len(table);
    match zones_pruned(alloc, table, plan, told) {
        Ok(pruned) => {
            let rows = rows_pruned(alloc, &pruned, zone_len, start, mask)?;
            Ok(truth_column(alloc, rows)?)
        }
        Err(error) => Err(error),
    }
}
