//! From layout trees to plans: a tree is lowered to the plan of its rows, an expression is planned over a plan and
//! the numbers of its rows, and plans are printed.
//!
//! - [`lower`] gives [`Lowered`]: a table of plans, and the plan of the whole.
//! - [`plan_row_idx_expression`] plans an expression over a plan and the numbers of its rows, of [`row_idx_dtype`].
//! - The text of a plan and all that it is over: [`PlanTreeDisplay`], with the [`PlanSummaryExtractor`] and others of
//!   a caller's own, each a [`PlanTreeExtractor`].
//! - The laws: [`lowering_keeps`], [`lowering_is_small`], [`row_index_keeps`], [`planned_is_projected`],
//!   [`numbers_are_told`], [`alike_plans_serve`], [`tables_hold_plans`], [`texts_unfold`]; by hand: [`plans_by_hand`],
//!   [`zones_by_hand`], [`kept_plans_by_hand`], [`projections_by_hand`], [`projected_rows_by_hand`], [`texts_by_hand`].
#![tactic(auto)]

mod adding;
mod by_hand;
mod keeping;
mod laws;
mod lowered;
mod lowering_kept;
mod lowering_roots;
mod lowering_whole;
mod node_parts;
mod plan_extractors;
mod plan_texts;
mod row_index_plans;
mod text_laws;

pub use by_hand::{
    kept_plans_by_hand, plans_by_hand, projected_rows_by_hand, projections_by_hand, zones_by_hand,
};
pub use laws::{
    alike_plans_serve, lowering_is_small, lowering_keeps, numbers_are_told, planned_is_projected,
    row_index_keeps, tables_hold_plans,
};
pub use lowered::Lowered;
pub use lowering_roots::lower;
pub use plan_extractors::{PlanSummaryExtractor, PlanTreeExtractor};
pub use plan_texts::PlanTreeDisplay;
pub use row_index_plans::{plan_row_idx_expression, row_idx_dtype};
pub use text_laws::{texts_by_hand, texts_unfold};
