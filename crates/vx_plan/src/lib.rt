//! Plans: a table of nodes that keep the rules of their kinds, what a plan is over, what its rows are worth and
//! read, and which segments it reaches.
//!
//! - Plans by number, and the table that holds them: [`PlanRef`], [`PlanChildren`], [`PlanTable`] with [`PlanError`];
//!   the nodes inside are [`PlanNode`] of a [`PlanKind`], which may hold an [`EvalExpression`] or a [`PruningProof`], and
//!   keep each [`PlanRule`].
//! - The kinds of plan, with their constructors: [`ConcatPlan`], [`EvalPlan`], [`FilterPlan`], [`PackPlan`],
//!   [`TakePlan`], [`SharePlan`], [`ListPackPlan`], [`RowIdxPlan`], [`SegmentScanPlan`], [`ZonedPlan`],
//!   [`LegacyStatsPlan`]; which of them a plan is: [`PlanId`].
//! - What a plan is over: [`Shape`]; the children that its rows are read through, one after another:
//!   [`PlanTable::next_part`] with [`Part`], [`ChildRows`], [`PartPlace`], [`NextPart`]; of a concat, which child holds a
//!   row: [`chunk_at`] with [`Chunk`].
//! - Which segments its rows could read: [`reach`], [`selected`], with [`Reach`] and [`SegmentReach`].
//! - The laws: [`plans_unfold`], [`reached_is_read`], [`plans_are_alike`], [`alike_plans_are_worth_the_same`]; plans by hand: [`reach_by_hand`], [`rows_by_hand`].
#![tactic(auto)]

mod by_hand;
mod checks;
mod child_names;
mod children;
mod chunks;
mod concat_plans;
mod errors;
mod field_checks;
mod field_plans;
mod kinds;
mod laws;
mod list_plans;
mod nodes;
mod parts;
mod plan_types;
mod pruning_plans;
mod reaching;
mod row_plans;
mod rules;
mod segments;
mod shapes;
mod tables;
mod taking_plans;
mod zone_checks;
mod zoned_plans;

pub use by_hand::{reach_by_hand, rows_by_hand};
pub use children::{PlanChildren, PlanRef};
pub use chunks::{Chunk, chunk_at};
pub use errors::PlanError;
pub use kinds::PlanId;
pub use laws::{alike_plans_are_worth_the_same, plans_are_alike, plans_unfold, reached_is_read};
pub use nodes::{EvalExpression, PlanKind, PlanNode, PruningProof};
pub use parts::{ChildRows, NextPart, Part, PartPlace};
pub use plan_types::{
    ConcatPlan, EvalPlan, FilterPlan, LegacyStatsPlan, ListPackPlan, PackPlan, RowIdxPlan,
    SegmentScanPlan, SharePlan, TakePlan, ZonedPlan,
};
pub use reaching::{Reach, SegmentReach};
pub use rules::PlanRule;
pub use segments::{reach, selected};
pub use shapes::Shape;
pub use tables::PlanTable;
