//! Expressions: their binding to a dtype, their meaning row by row, and filters as conjuncts.
//!
//! - Expressions and their parts: [`Expr`], with a short constructor for each form, [`Operand`],
//!   [`NamedExprs`], [`CompareOp`], [`ArithOp`].
//! - Binding: [`bind`] with [`BindError`], and [`BoundExpression`].
//! - Meaning row by row: [`apply`] with [`ApplyError`].
//! - Filters: [`FilterExpr`].
//! - What is told of a zone of rows: [`Statistic`], [`Statistics`].
//! - The laws: [`meaning_fits`], [`strict_is_null`], [`conjuncts_tell`], [`rewriting_keeps`] and
//!   [`expressions_by_hand`].
#![tactic(auto)]

mod applying;
mod applying_runs;
mod binding;
mod bound_expressions;
mod by_hand;
mod constructors;
mod depths;
mod dtype_rules;
mod evaluated;
mod evaluation;
mod expression_texts;
mod expressions;
mod field_typing;
mod filters;
mod finding;
mod fitting;
mod found;
mod indexed_roots;
mod laws;
mod mentions;
mod packing;
mod rewriting;
mod root_fields;
mod row_values;
mod statistics;
mod steps;
mod struct_steps;
mod typing;

pub use applying::{ApplyError, apply};
pub use binding::BindError;
pub use bound_expressions::{BoundExpression, bind};
pub use by_hand::expressions_by_hand;
pub use expressions::{Expr, NamedExprs, Operand};
pub use filters::FilterExpr;
pub use laws::{conjuncts_tell, meaning_fits, rewriting_keeps, strict_is_null};
pub use statistics::{Statistic, Statistics};
pub use vx_operators::{ArithOp, CompareOp, operators};
