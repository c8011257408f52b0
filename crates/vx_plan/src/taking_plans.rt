//! Plans of values that are looked up by codes.

ghost use Rattle.std.specs.Prelude.{◌≡◌, ◌<◌, [], ◌∷◌, length, IfErr, IfOk, OnErr};
ghost use Rattle.std.specs.Arc.{arc_value};
ghost use Rattle.vx_base.specs.ColumnCalls.{nullable_where};
ghost use Rattle.vx_base.specs.Fits.{nullability_of};
ghost use Rattle.vx_base.specs.Views.{data_type};
ghost use Rattle.vx_plan.specs.Kinds.{HasKind, IsTake};
ghost use Rattle.vx_plan.specs.Limits.{most_plans};
ghost use Rattle.vx_plan.specs.Refs.{number_of};
ghost use Rattle.vx_plan.specs.Rules.{node_at, nodes_at, take_node, RefusedBy};
ghost use Rattle.vx_plan.specs.Tables.{IsAdded, IsChildAt};

use crate::children::{PlanRef, two_children};
use crate::errors::PlanError;
use crate::nodes::{PlanKind, PlanNode};
use crate::plan_types::TakePlan;
use crate::tables::PlanTable;
use std::alloc::{AllocError, Global};
use std::sync::Arc;
use vx_base::DType;

/// The dtype of what is looked up: that of the values, which takes nulls also where the codes do. It is shared with
/// the values unless it differs from theirs.
#[tactic(auto, using(crate::proofs::SharedTypes::nullable_already))]
fn looked_up_type(
    alloc: Global,
    table: &PlanTable,
    codes: PlanRef,
    values: PlanRef,
) -> Result<Arc<DType, Global>, AllocError>
    requires codes { number_of codes < length table.now }
    requires values { number_of values < length table.now }
    ensures { IfOk result (λ dtype. data_type (arc_value dtype) ≡ nullable_where (nullability_of (node_at table.now (number_of codes)).dtype) (node_at table.now (number_of values)).dtype) }
{
    if table.dtype(codes).is_nullable() && !table.dtype(values).is_nullable() {
        let dtype = table.dtype(values).as_nullable(alloc)?;
        Ok(Arc::new(alloc, dtype)?)
    } else {
        table.shared_dtype(values)
    }
}

impl TakePlan {
    /// A plan of the values at the codes: rule 6.
    pub fn new(
        alloc: Global,
        table: &mut PlanTable,
        codes: PlanRef,
        values: PlanRef,
    ) -> Result<TakePlan, PlanError>
        requires room { length table.old < most_plans }
        requires codes { number_of codes < length table.old }
        requires values { number_of values < length table.old }
        ensures added { IfOk result (λ plan. IsAdded table.old table.new (take_node table.old (number_of codes) (number_of values)) (number_of plan.plan)) }
        ensures unchanged { OnErr result (table.new ≡ table.old) }
        ensures refused { IfErr result (RefusedBy (take_node table.old (number_of codes) (number_of values)) (nodes_at table.old (number_of codes ∷ number_of values ∷ []))) }
    {
        let dtype = looked_up_type(alloc, table, codes, values)?;
        let children = two_children(alloc, codes, values)?;
        let node = PlanNode {
            kind: PlanKind::Take,
            dtype,
            row_count: table.row_count(codes),
            children,
            row_offsets: Vec::new(alloc),
        };
        let plan = table.add(alloc, node)?;
        Ok(TakePlan { plan })
    }

    /// The plan of the codes.
    pub fn codes(self, table: &PlanTable) -> PlanRef
        requires { HasKind IsTake table.now (number_of self.plan) }
        ensures { IsChildAt table.now (number_of self.plan) 0 (number_of result) }
    {
        PlanRef(table.node(self.plan.0).children.at(0))
    }

    /// The plan of the values.
    pub fn values(self, table: &PlanTable) -> PlanRef
        requires { HasKind IsTake table.now (number_of self.plan) }
        ensures { IsChildAt table.now (number_of self.plan) 1 (number_of result) }
    {
        PlanRef(table.node(self.plan.0).children.at(1))
    }
}
