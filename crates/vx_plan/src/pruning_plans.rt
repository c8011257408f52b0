//! Plans that tell of each row whether its zone is pruned.

ghost use Rattle.std.specs.Prelude.{◌≡◌, ◌<◌, ◌↔◌, length, option_map, IfErr, IfOk, IfSome, IsFalse, IsNone, IsSome, IsTrue, OnErr};
ghost use Rattle.vx_base.specs.ColumnCalls.{IsBool};
ghost use Rattle.vx_base.specs.Views.{data_type};
ghost use Rattle.vx_expr.specs.Bound.{IsBoundTo};
ghost use Rattle.vx_plan.specs.declared.errors.PlanError.TheVariants.{Memory};
ghost use Rattle.vx_plan.specs.Kinds.{proof_of, HasKind, IsOverData, IsPruning, IsZoned};
ghost use Rattle.vx_plan.specs.Limits.{most_plans};
ghost use Rattle.vx_plan.specs.Nodes.{node_data};
ghost use Rattle.vx_plan.specs.Refs.{number_of};
ghost use Rattle.vx_plan.specs.Rules.{node_at, pruning_node};
ghost use Rattle.vx_plan.specs.Tables.{CanPrune, IsAdded, IsGoodTable};

use crate::children::{PlanRef, one_child};
use crate::errors::PlanError;
use crate::nodes::{PlanKind, PlanNode, PruningProof};
use crate::plan_types::ZonedPlan;
use crate::tables::PlanTable;
use std::alloc::{AllocError, Global};
use std::sync::Arc;
use vx_base::{DType, Nullability};
use vx_expr::{BoundExpression, Statistics};
use vx_zones::{ZoneProof, falsify};

/// The node of a pruning plan over the zones of a plan.
fn pruning_node(
    alloc: Global,
    table: &PlanTable,
    zoned: PlanRef,
    proof: ZoneProof,
) -> Result<PlanNode, AllocError>
    requires { HasKind IsOverData table.now (number_of zoned) }
    ensures node { IfOk result (λ node. node_data node ≡ pruning_node table.now (number_of zoned) proof) }
    ensures good { IsGoodTable table.now }
{
    let node = table.node(zoned.0);
    match &node.kind {
        PlanKind::Zoned { zone_len, stats } => {
            let stats = Statistics::from_vec(Vec::from_slice(alloc, stats.items())?);
            let proof = PruningProof::of(alloc, proof)?;
            let dtype = Arc::new(alloc, DType::Bool(Nullability::NonNullable))?;
            Ok(PlanNode {
                kind: PlanKind::Pruning {
                    zone_len: *zone_len,
                    stats,
                    proof,
                },
                dtype,
                row_count: node.row_count,
                children: one_child(PlanRef(node.children.at(1))),
                row_offsets: Vec::new(alloc),
            })
        }
        _ => unreachable!(),
    }
}

impl ZonedPlan {
    /// A plan that tells of each row, as a truth value that is never null, whether its zone is pruned by the predicate
    /// where no bound is told. It is over the zones alone. None exactly where this plan prunes already, or no zone can be
    /// shown to lack rows at which the predicate is true. It is refused for want of memory alone.
    pub fn with_pruning(
        self,
        alloc: Global,
        table: &mut PlanTable,
        predicate: &BoundExpression,
    ) -> Result<Option<ZonedPlan>, PlanError>
        requires room { length table.old < most_plans }
        requires zoned { HasKind IsZoned table.old (number_of self.plan) }
        requires truths { IsBool predicate.now.dtype }
        requires bound { IsBoundTo predicate.now (node_at table.old (number_of self.plan)).dtype }
        ensures exactly { IfOk result (λ made. IsSome made ↔ CanPrune table.old (number_of self.plan) predicate.now) }
        ensures added { IfOk result (λ made. IfSome made (λ plan. IsAdded table.old table.new (pruning_node table.old (number_of self.plan) predicate.now) (number_of plan.plan))) }
        ensures none { IfOk result (λ made. IsNone made → table.new ≡ table.old) }
        ensures unchanged { OnErr result (table.new ≡ table.old) }
        ensures refused { IfErr result (λ error. error ≡ Memory) }
    {
        if self.is_pruning(table) {
            return Ok(None);
        }
        match falsify(alloc, predicate)? {
            None => Ok(None),
            Some(proof) => {
                let node = pruning_node(alloc, table, self.plan, proof)?;
                match table.add(alloc, node) {
                    Ok(plan) => Ok(Some(ZonedPlan { plan })),
                    Err(error) => Err(error),
                }
            }
        }
    }

    /// Whether it tells of each row whether its zone is pruned.
    pub fn is_pruning(self, table: &PlanTable) -> bool
        requires { HasKind IsZoned table.now (number_of self.plan) }
        ensures pruning { IsTrue result ↔ HasKind IsPruning table.now (number_of self.plan) }
        ensures over { IsFalse result ↔ HasKind IsOverData table.now (number_of self.plan) }
    {
        match table.node(self.plan.0).kind {
            PlanKind::Pruning { .. } => true,
            _ => false,
        }
    }

    /// The proof by which a pruning plan prunes, and `None` exactly on any other. It takes no memory.
    pub fn pruning_proof(self, table: &PlanTable) -> Option<&ZoneProof>
        requires { HasKind IsZoned table.now (number_of self.plan) }
        ensures { option_map (λ proof. proof.now) result ≡ proof_of (node_at table.now (number_of self.plan)).kind }
    {
        match &table.node(self.plan.0).kind {
            PlanKind::Pruning { proof, .. } => Some(proof.proof()),
            _ => None,
        }
    }

    /// The dtype of the rows that a pruning plan's predicate is over, and `None` exactly on any other. It takes no memory.
    pub fn pruning_column_dtype(self, table: &PlanTable) -> Option<&DType>
        requires { HasKind IsZoned table.now (number_of self.plan) }
        ensures { option_map (λ dtype. data_type dtype.now) result ≡ option_map (λ proof. proof.root) (proof_of (node_at table.now (number_of self.plan)).kind) }
    {
        match &table.node(self.plan.0).kind {
            PlanKind::Pruning { proof, .. } => Some(proof.proof().predicate().root_dtype()),
            _ => None,
        }
    }
}
