//! Plans of lists.

ghost use Rattle.std.specs.Prelude.{◌≡◌, ◌<◌, ◌↔◌, ◌∷◌, length, IfErr, IfOk, IfSome, IsSome, IsTrue, OnErr, option_map};
ghost use Rattle.std.specs.Arc.{arc_value};
ghost use Rattle.vx_base.specs.Data.{list_type};
ghost use Rattle.vx_base.specs.Views.{data_type};
ghost use Rattle.vx_plan.specs.Kinds.{has_validity_of, validity_of, HasKind, IsListPack};
ghost use Rattle.vx_plan.specs.Limits.{most_plans};
ghost use Rattle.vx_plan.specs.Refs.{number_of};
ghost use Rattle.vx_plan.specs.Rules.{given_validity, list_node, node_at, nodes_at, RefusedBy};
ghost use Rattle.vx_plan.specs.Tables.{IsAdded, IsChildAt};

use crate::children::{PlanRef, two_children, with_validity};
use crate::errors::PlanError;
use crate::nodes::{PlanKind, PlanNode};
use crate::plan_types::ListPackPlan;
use crate::tables::PlanTable;
use std::alloc::{AllocError, Global};
use std::sync::Arc;
use vx_base::{DType, Element, Nullability};

/// The dtype of lists of the elements, behind a handle.
fn lists_of(
    alloc: Global,
    elements: &DType,
    nullability: Nullability,
) -> Result<Arc<DType, Global>, AllocError>
    ensures { IfOk result (λ dtype. data_type (arc_value dtype) ≡ list_type (data_type elements.now) nullability) }
{
    let element = Element::of(alloc, elements.copy(alloc)?)?;
    let dtype = Arc::new(alloc, DType::List(element, nullability))?;
    Ok(dtype)
}

impl ListPackPlan {
    /// A plan of lists of the elements, cut at the offsets, null where the validity is false: rules 1, 2 and 5.
    pub fn try_new(
        alloc: Global,
        table: &mut PlanTable,
        nullability: Nullability,
        row_count: u64,
        elements: PlanRef,
        offsets: PlanRef,
        validity: Option<PlanRef>,
    ) -> Result<ListPackPlan, PlanError>
        requires room { length table.old < most_plans }
        requires elements { number_of elements < length table.old }
        requires offsets { number_of offsets < length table.old }
        requires validity { IfSome validity (λ plan. number_of plan < length table.old) }
        ensures added { IfOk result (λ plan. IsAdded table.old table.new (list_node table.old nullability row_count (number_of elements) (number_of offsets) (option_map number_of validity)) (number_of plan.plan)) }
        ensures unchanged { OnErr result (table.new ≡ table.old) }
        ensures refused { IfErr result (RefusedBy (list_node table.old nullability row_count (number_of elements) (number_of offsets) (option_map number_of validity)) (nodes_at table.old (number_of elements ∷ number_of offsets ∷ given_validity (option_map number_of validity)))) }
    {
        let has_validity = validity.is_some();
        let dtype = lists_of(alloc, table.dtype(elements), nullability)?;
        let children = with_validity(alloc, two_children(alloc, elements, offsets)?, validity)?;
        let node = PlanNode {
            kind: PlanKind::ListPack { has_validity },
            dtype,
            row_count,
            children,
            row_offsets: Vec::new(alloc),
        };
        let plan = table.add(alloc, node)?;
        Ok(ListPackPlan { plan })
    }

    /// The plan of the elements.
    pub fn elements(self, table: &PlanTable) -> PlanRef
        requires { HasKind IsListPack table.now (number_of self.plan) }
        ensures { IsChildAt table.now (number_of self.plan) 0 (number_of result) }
    {
        PlanRef(table.node(self.plan.0).children.at(0))
    }

    /// The plan of the offsets.
    pub fn offsets(self, table: &PlanTable) -> PlanRef
        requires { HasKind IsListPack table.now (number_of self.plan) }
        ensures { IsChildAt table.now (number_of self.plan) 1 (number_of result) }
    {
        PlanRef(table.node(self.plan.0).children.at(1))
    }

    /// The plan of the validity, and `None` exactly where none was given.
    pub fn validity(self, table: &PlanTable) -> Option<PlanRef>
        requires { HasKind IsListPack table.now (number_of self.plan) }
        ensures last { option_map number_of result ≡ validity_of (node_at table.now (number_of self.plan)) }
        ensures given { IsSome result ↔ IsTrue (has_validity_of (node_at table.now (number_of self.plan)).kind) }
    {
        table.validity(self.plan)
    }
}
