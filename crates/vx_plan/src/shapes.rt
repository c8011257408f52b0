//! What a plan of the table is over.

ghost use Rattle.std.specs.Prelude.{◌<◌, length};
ghost use Rattle.vx_plan.specs.Refs.{number_of};
ghost use Rattle.vx_plan.specs.Shapes.{HasShape};
ghost use Rattle.vx_plan.specs.Tables.{IsGoodTable};

use crate::children::PlanRef;
use crate::nodes::PlanKind;
use crate::tables::PlanTable;

/// What a plan is over, by the numbers of its children.
#[derive(Clone, Copy)]
pub enum Shape {
    /// A segment.
    Leaf(u32),
    /// The rows of this plan.
    Same(u32),
    /// The rows of the children, one after another.
    Chunks,
    /// A field from each child, but from the last one where it is a validity.
    Fields(bool),
    /// The codes, and the values that they look up.
    LookUp(u32, u32),
    /// An expression at each row of this plan.
    Over(u32),
    /// The rows of this plan, which is read whole.
    Shared(u32),
    /// Elements, offsets, and a validity where one is given.
    Lists,
    /// The numbers of the rows.
    RowNumbers,
    /// The rows of the first plan, of whose zones the second tells.
    Zoned(u32, u32),
    /// Whether the zone of each row is pruned, by all rows of this plan.
    Pruned(u32),
}

impl PlanTable {
    /// What a plan is over.
    pub fn shape(&self, plan: PlanRef) -> Shape
        requires { number_of plan < length self.now }
        ensures shape { HasShape self.now (number_of plan) result }
        ensures good { IsGoodTable self.now }
    {
        let node = self.node(plan.0);
        match &node.kind {
            PlanKind::Concat => Shape::Chunks,
            PlanKind::Eval(_) => Shape::Over(node.children.at(0)),
            PlanKind::Filter => Shape::Same(node.children.at(0)),
            PlanKind::Pack { has_validity } => Shape::Fields(*has_validity),
            PlanKind::Take => Shape::LookUp(node.children.at(0), node.children.at(1)),
            PlanKind::Share => Shape::Shared(node.children.at(0)),
            PlanKind::ListPack { .. } => Shape::Lists,
            PlanKind::RowIdx => Shape::RowNumbers,
            PlanKind::SegmentScan { segment, .. } => Shape::Leaf(*segment),
            PlanKind::Zoned { .. } => Shape::Zoned(node.children.at(0), node.children.at(1)),
            PlanKind::LegacyStats { .. } => Shape::Zoned(node.children.at(0), node.children.at(1)),
            PlanKind::Pruning { .. } => Shape::Pruned(node.children.at(0)),
        }
    }
}
