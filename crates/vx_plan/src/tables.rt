//! The table of plans.

ghost use Rattle.std.specs.Prelude.{◌≡◌, ◌^◌, ◌<◌, ◌↔◌, [], length, map, IfErr, IfOk, IsSome, IsTrue, OnErr, Some, option_map, slice_get, take};
ghost use Rattle.std.specs.Arc.{arc_value};
ghost use Rattle.vx_base.specs.Views.{data_type};
ghost use Rattle.vx_plan.specs.Kinds.{coding_of, has_validity_of, id_of, validity_of};
ghost use Rattle.vx_plan.specs.Limits.{most_plans};
ghost use Rattle.vx_plan.specs.Nodes.{node_data};
ghost use Rattle.vx_plan.specs.Refs.{number_of};
ghost use Rattle.vx_plan.specs.Rules.{node_at, nodes_at, IsMade, RefusedBy};
ghost use Rattle.vx_plan.specs.Tables.{AreIn, IsAdded, IsGoodTable};

use crate::checks::check;
use crate::children::{PlanChildren, PlanRef};
use crate::errors::PlanError;
use crate::kinds::PlanId;
use crate::nodes::{PlanKind, PlanNode};
use std::alloc::{AllocError, Global};
use std::marker::Model;
use std::sync::Arc;
use vx_base::{Coding, DType};

/// A table of plans: nodes that keep the rules of their kinds, with children below their parents.
pub struct PlanTable {
    nodes: Vec<PlanNode>,
}

impl Drop for PlanTable {
    fn drop(self) {
        let PlanTable { nodes: _ } = self;
    }
}

impl Model for PlanTable {
    ghost use Rattle.std.specs.Prelude.{List, map};
    ghost use Rattle.vx_plan.specs.Nodes.{Node};
    ghost use Rattle.vx_plan.specs.NodeCodes.{coded_nodes};

    ghost Value = { List Node };

    ghost coded = { coded_nodes };

    ghost use Rattle.std.specs.Prelude.{◌≤◌, length};
    ghost use Rattle.vx_plan.specs.Limits.{most_plans};
    ghost use Rattle.vx_plan.specs.Nodes.{node_data};
    ghost use Rattle.vx_plan.specs.Tables.{IsGoodTable};

    ghost view = { λ a. map node_data a.nodes.items };

    ghost invariant = { λ a. IsGoodTable (map node_data a.nodes.items) × (length a.nodes.items ≤ most_plans) };
}

/// The last child, where that is a validity.
fn last_validity(node: &PlanNode) -> Option<PlanRef>
    ensures { option_map number_of result ≡ validity_of (node_data node.now) }
{
    match node.kind {
        PlanKind::Pack { has_validity: true } | PlanKind::ListPack { has_validity: true } => {
            node.children.get(node.children.len().saturating_sub(1))
        }
        _ => None,
    }
}

impl PlanTable {
    /// A table of no plans.
    pub fn new(alloc: Global) -> PlanTable
        ensures empty { result ≡ [] }
        ensures good { IsGoodTable result }
    {
        PlanTable {
            nodes: Vec::new(alloc),
        }
    }

    /// A table of no plans, with room for so many, so that it takes no memory as these are added.
    pub fn with_capacity(alloc: Global, plans: u32) -> Result<PlanTable, AllocError>
        ensures empty { IfOk result (λ table. table ≡ []) }
        ensures good { IfOk result IsGoodTable }
    {
        Ok(PlanTable {
            nodes: Vec::with_capacity(alloc, plans as usize)?,
        })
    }

    /// How many plans there are.
    pub fn len(&self) -> u32
        ensures count { result ≡ length self.now }
        ensures good { IsGoodTable self.now }
    {
        self.nodes.len() as u32
    }

    /// The table keeps its rules: a call that is made for this alone.
    pub fn keeps_rules(&self)
        ensures { IsGoodTable self.now }
    {
        let _count = self.nodes.len();
    }

    /// A plan of the table.
    pub(crate) fn node(&self, plan: u32) -> &PlanNode
        requires { plan < length self.now }
        ensures at { slice_get self.now plan ≡ Some (node_data result.now) }
        ensures good { IsGoodTable self.now }
    {
        &self.nodes[plan as usize]
    }

    /// The plans of the table.
    pub(crate) fn nodes(&self) -> &[PlanNode]
        ensures { map node_data result.now ≡ self.now }
    {
        self.nodes.as_slice()
    }

    /// Which kind of plan it is.
    pub fn id(&self, plan: PlanRef) -> PlanId
        requires { number_of plan < length self.now }
        ensures { result ≡ id_of (node_at self.now (number_of plan)).kind }
    {
        PlanId::of(&self.node(plan.0).kind)
    }

    /// The dtype of the rows.
    pub fn dtype(&self, plan: PlanRef) -> &DType
        requires { number_of plan < length self.now }
        ensures { data_type result.now ≡ (node_at self.now (number_of plan)).dtype }
    {
        self.node(plan.0).dtype()
    }

    /// How the segment of a scan is coded; plain where the plan is of another kind.
    pub fn coding(&self, plan: PlanRef) -> Coding
        requires { number_of plan < length self.now }
        ensures { result ≡ coding_of (node_at self.now (number_of plan)).kind }
    {
        match self.node(plan.0).kind {
            PlanKind::SegmentScan { coding, .. } => coding,
            _ => Coding::Plain,
        }
    }

    /// The dtype of the rows, to be shared with a plan over this one.
    pub(crate) fn shared_dtype(&self, plan: PlanRef) -> Result<Arc<DType, Global>, AllocError>
        requires { number_of plan < length self.now }
        ensures { IfOk result (λ dtype. data_type (arc_value dtype) ≡ (node_at self.now (number_of plan)).dtype) }
    {
        Arc::try_clone(&self.node(plan.0).dtype)
    }

    /// How many rows there are.
    pub fn row_count(&self, plan: PlanRef) -> u64
        requires { number_of plan < length self.now }
        ensures { result ≡ (node_at self.now (number_of plan)).rows }
    {
        self.node(plan.0).row_count
    }

    /// The rows of a plan are so few that their numbers fit: a call that is made for this alone.
    pub fn numbers_fit(&self, plan: PlanRef)
        requires { number_of plan < length self.now }
        ensures { (node_at self.now (number_of plan)).rows < 2 ^ 64 }
    {
        let _count = self.node(plan.0).row_count;
    }

    /// The children, in order.
    pub fn children(&self, plan: PlanRef) -> &PlanChildren
        requires { number_of plan < length self.now }
        ensures { result.now ≡ (node_at self.now (number_of plan)).children }
    {
        &self.node(plan.0).children
    }

    /// How many children there are.
    pub fn child_count(&self, plan: PlanRef) -> usize
        requires { number_of plan < length self.now }
        ensures { result ≡ length (node_at self.now (number_of plan)).children }
    {
        self.children(plan).len()
    }

    /// The child at a place, and `None` past the last.
    pub fn child(&self, plan: PlanRef, place: usize) -> Option<PlanRef>
        requires { number_of plan < length self.now }
        ensures { option_map number_of result ≡ slice_get (node_at self.now (number_of plan)).children place }
    {
        self.children(plan).get(place)
    }

    /// The child at a place that there is.
    pub fn child_required(&self, plan: PlanRef, place: usize) -> PlanRef
        requires known { number_of plan < length self.now }
        requires place { place < length (node_at self.now (number_of plan)).children }
        ensures at { slice_get (node_at self.now (number_of plan)).children place ≡ Some (number_of result) }
        ensures lower { number_of result < number_of plan }
    {
        PlanRef(self.node(plan.0).children.at(place))
    }

    /// The plan of the validity, and `None` exactly where none was given.
    pub(crate) fn validity(&self, plan: PlanRef) -> Option<PlanRef>
        requires { number_of plan < length self.now }
        ensures last { option_map number_of result ≡ validity_of (node_at self.now (number_of plan)) }
        ensures given { IsSome result ↔ IsTrue (has_validity_of (node_at self.now (number_of plan)).kind) }
    {
        last_validity(self.node(plan.0))
    }

    /// The row at which each child starts, and none for a plan of another kind than a concat.
    pub(crate) fn offsets(&self, plan: PlanRef) -> &[u64]
        requires { number_of plan < length self.now }
        ensures { result.now ≡ (node_at self.now (number_of plan)).offsets }
    {
        self.node(plan.0).row_offsets.as_slice()
    }

    /// Takes away the plans behind the first so many, as a caller does that runs out of memory between its plans, so
    /// that the table is as it was after every refusal. It takes no memory.
    pub fn truncate(&mut self, count: u32)
        ensures left { self.new ≡ take count self.old }
    {
        self.nodes.truncate(count as usize);
    }

    /// Adds a plan that is made as its kind asks, where it keeps the rules. It asks only for the room that it needs, as
    /// each plan's constructor does: fewer plans than a `u32` can number.
    pub(crate) fn add(&mut self, alloc: Global, node: PlanNode) -> Result<PlanRef, PlanError>
        requires room { length self.old < most_plans }
        requires known { AreIn self.old node.children }
        requires made { IsMade (node_data node) (nodes_at self.old node.children) }
        ensures added { IfOk result (λ plan. IsAdded self.old self.new (node_data node) (number_of plan)) }
        ensures unchanged { OnErr result (self.new ≡ self.old) }
        ensures refused { IfErr result (RefusedBy (node_data node) (nodes_at self.old node.children)) }
    {
        check(alloc, &self.nodes, &node)?;
        let number = self.nodes.len() as u32;
        self.nodes.push(node)?;
        Ok(PlanRef(number))
    }
}
