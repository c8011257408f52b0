//! Plans of structs.

ghost use Rattle.std.specs.Prelude.{◌≡◌, ◌<◌, ◌↔◌, ◌++◌, length, IfErr, IfOk, IfSome, IsSome, IsTrue, OnErr, option_map};
ghost use Rattle.std.specs.Arc.{arc_value};
ghost use Rattle.vx_base.specs.Views.{data_type, fields_in};
ghost use Rattle.vx_rows.specs.TypeForms.{IsStruct};
ghost use Rattle.vx_plan.specs.Kinds.{has_validity_of, validity_of, HasKind, IsPack};
ghost use Rattle.vx_plan.specs.Limits.{most_plans};
ghost use Rattle.vx_plan.specs.Refs.{number_of};
ghost use Rattle.vx_plan.specs.Rules.{given_validity, members_at, node_at, nodes_at, pack_node, packed_node, RefusedBy};
ghost use Rattle.vx_plan.specs.Tables.{AreIn, IsAdded};

use crate::children::{PlanChildren, PlanRef, with_validity};
use crate::errors::PlanError;
use crate::nodes::{PlanKind, PlanNode};
use crate::plan_types::PackPlan;
use crate::tables::PlanTable;
use std::alloc::Global;
use std::sync::Arc;
use vx_base::{DType, Fields, Nullability};

impl PackPlan {
    /// A plan of structs of the fields, which the children give, null where the validity is false: rules 1, 2
    /// and 5.
    pub fn try_new(
        alloc: Global,
        table: &mut PlanTable,
        fields: Fields,
        nullability: Nullability,
        row_count: u64,
        field_plans: PlanChildren,
        validity: Option<PlanRef>,
    ) -> Result<PackPlan, PlanError>
        requires room { length table.old < most_plans }
        requires known { AreIn table.old field_plans }
        requires validity { IfSome validity (λ plan. number_of plan < length table.old) }
        ensures added { IfOk result (λ plan. IsAdded table.old table.new (pack_node fields nullability row_count field_plans (option_map number_of validity)) (number_of plan.plan)) }
        ensures unchanged { OnErr result (table.new ≡ table.old) }
        ensures refused { IfErr result (RefusedBy (pack_node fields nullability row_count field_plans (option_map number_of validity)) (nodes_at table.old (field_plans ++ given_validity (option_map number_of validity)))) }
    {
        let dtype = Arc::new(alloc, DType::Struct(fields, nullability))?;
        PackPlan::sharing(alloc, table, dtype, row_count, field_plans, validity)
    }

    /// The same, whose struct dtype is shared with whoever else holds it.
    pub fn sharing(
        alloc: Global,
        table: &mut PlanTable,
        dtype: Arc<DType, Global>,
        row_count: u64,
        field_plans: PlanChildren,
        validity: Option<PlanRef>,
    ) -> Result<PackPlan, PlanError>
        requires room { length table.old < most_plans }
        requires known { AreIn table.old field_plans }
        requires validity { IfSome validity (λ plan. number_of plan < length table.old) }
        requires structs { IsStruct (data_type (arc_value dtype)) }
        ensures added { IfOk result (λ plan. IsAdded table.old table.new (packed_node (data_type (arc_value dtype)) row_count field_plans (option_map number_of validity)) (number_of plan.plan)) }
        ensures unchanged { OnErr result (table.new ≡ table.old) }
        ensures refused { IfErr result (RefusedBy (packed_node (data_type (arc_value dtype)) row_count field_plans (option_map number_of validity)) (nodes_at table.old (field_plans ++ given_validity (option_map number_of validity)))) }
    {
        let has_validity = validity.is_some();
        let children = with_validity(alloc, field_plans, validity)?;
        let node = PlanNode {
            kind: PlanKind::Pack { has_validity },
            dtype,
            row_count,
            children,
            row_offsets: Vec::new(alloc),
        };
        let plan = table.add(alloc, node)?;
        Ok(PackPlan { plan })
    }

    /// The fields.
    pub fn fields(self, table: &PlanTable) -> &Fields
        requires { HasKind IsPack table.now (number_of self.plan) }
        ensures { result.now ≡ members_at table.now (number_of self.plan) }
    {
        match table.node(self.plan.0).dtype() {
            DType::Struct(fields, _) => fields,
            _ => unreachable!(),
        }
    }

    /// How many fields there are.
    pub fn nfields(self, table: &PlanTable) -> usize
        requires { HasKind IsPack table.now (number_of self.plan) }
        ensures { result ≡ length (fields_in (members_at table.now (number_of self.plan))) }
    {
        self.fields(table).len()
    }

    /// The plan of the validity, and `None` exactly where none was given.
    pub fn validity(self, table: &PlanTable) -> Option<PlanRef>
        requires { HasKind IsPack table.now (number_of self.plan) }
        ensures last { option_map number_of result ≡ validity_of (node_at table.now (number_of self.plan)) }
        ensures given { IsSome result ↔ IsTrue (has_validity_of (node_at table.now (number_of self.plan)).kind) }
    {
        table.validity(self.plan)
    }
}
