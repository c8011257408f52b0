//! What is asked of a filter.

ghost use Rattle.std.specs.Prelude.{IsTrue};
ghost use Rattle.vx_base.specs.ColumnCalls.{IsBool};
ghost use Rattle.vx_base.specs.Views.{data_type};

use crate::case_states::CaseState;
use crate::queries::{write_dtype, write_text};
use std::alloc::{AllocError, Global};
use std::mem::replace;
use vx_base::DType;
use vx_expr::{BindError, BoundExpression, FilterExpr, bind};
use vx_expr_notation::spelled;
use vx_notation::bits_of;

/// Whether it is a dtype of truth values.
fn is_bool(dtype: &DType) -> bool
    ensures { IsTrue result → IsBool (data_type dtype.now) }
{
    matches!(dtype, DType::Bool(_))
}

/// The expression that the words spell, bound to the root.
pub(crate) fn bound_of(
    alloc: Global,
    root: &DType,
    words: &str,
) -> Result<BoundExpression, BindError> {
    let expr = spelled(alloc, words)?;
    let bound = bind(alloc, &expr, root);
    drop(expr);
    bound
}

/// The filter that the words spell. None where they spell none.
fn filter_of(alloc: Global, root: &DType, words: &str) -> Option<FilterExpr> {
    let bound = bound_of(alloc, root, words).ok()?;
    if !is_bool(bound.dtype()) {
        drop(bound);
        return None;
    }
    FilterExpr::new(alloc, bound).ok()
}

/// Reports to a conjunct, as the number of it and the permille, `0:900`, or so many times the same,
/// `0:900^10`. To no such conjunct there is none.
fn report(filter: &mut FilterExpr, word: &str) -> Result<(), AllocError> {
    let (word, times) = word.split_once('^').unwrap_or((word, "1"));
    let (conjunct, permille) = word.split_once(':').unwrap_or((word, ""));
    let conjunct = conjunct.parse::<usize>().unwrap_or(usize::MAX);
    let permille = permille.parse::<u64>().unwrap_or(0);
    for _time in 0..times.parse::<u64>().unwrap_or(0) {
        if filter.conjuncts().len() <= conjunct {
            return Ok(());
        }
        filter.report_selectivity(conjunct, permille)?;
    }
    Ok(())
}

/// Appends the ordering of the conjuncts.
fn write_ordering(filter: &FilterExpr, out: &mut String) -> Result<(), AllocError> {
    out.push_str("order")?;
    for conjunct in filter.ordering() {
        write!(out, " {conjunct}")?;
    }
    Ok(())
}

/// Appends a conjunct with its dtype, or that it takes other roots.
fn write_conjunct(
    alloc: Global,
    root: &DType,
    conjunct: &BoundExpression,
    out: &mut String,
) -> Result<(), AllocError> {
    if !conjunct.is_root_bound_to(root) {
        return out.push_str("another root; ");
    }
    write_text(alloc, conjunct, out)?;
    out.push_str(": ")?;
    write_dtype(alloc, conjunct.dtype(), out)?;
    out.push_str("; ")
}

/// The conjuncts with their dtypes, and their ordering.
fn write_filter(
    alloc: Global,
    root: &DType,
    filter: &FilterExpr,
    out: &mut String,
) -> Result<(), AllocError> {
    for conjunct in filter.conjuncts() {
        write_conjunct(alloc, root, conjunct, out)?;
    }
    write_ordering(filter, out)
}

/// The next of the conjuncts that remain: a bit for each of them, as `101`.
fn write_next(filter: &FilterExpr, remaining: &[bool], out: &mut String) -> Result<(), AllocError> {
    if filter.conjuncts().len() != remaining.len() {
        return Ok(());
    }
    match filter.next_conjunct(remaining) {
        Some(conjunct) => write!(out, "{conjunct}"),
        None => out.push_str("none"),
    }
}

/// Whether the conjunct depends on the bound.
fn write_is_dynamic(
    filter: &FilterExpr,
    conjunct: usize,
    out: &mut String,
) -> Result<(), AllocError> {
    if filter.conjuncts().len() <= conjunct {
        return Ok(());
    }
    let answer = filter.dynamic_updates(conjunct);
    out.push_str(if answer { "yes" } else { "no" })
}

/// The ordering after these reports.
fn write_reported(
    filter: &mut FilterExpr,
    words: &str,
    out: &mut String,
) -> Result<(), AllocError> {
    for word in words.split_whitespace() {
        report(filter, word)?;
    }
    write_ordering(filter, out)
}

/// The answer to a command about the filter that is set; without one nothing.
pub(crate) fn write_of_filter(
    alloc: Global,
    filter: &mut Option<FilterExpr>,
    command: &str,
    words: &str,
    out: &mut String,
) -> Result<(), AllocError> {
    let Some(filter) = filter else {
        return Ok(());
    };
    match command {
        "report" => write_reported(filter, words, out),
        "next" => write_next(
            filter,
            &bits_of(alloc, words).unwrap_or(Vec::new(alloc)),
            out,
        ),
        _ => write_is_dynamic(filter, words.parse::<usize>().unwrap_or(usize::MAX), out),
    }
}

/// Sets the filter that the words spell, and tells it.
pub(crate) fn write_new_filter(
    alloc: Global,
    case_state: &mut CaseState,
    words: &str,
    out: &mut String,
) -> Result<(), AllocError> {
    let made = filter_of(alloc, case_state.rows.dtype(), words);
    drop(replace(&mut case_state.filter, made));
    match &case_state.filter {
        Some(filter) => write_filter(alloc, case_state.rows.dtype(), filter, out),
        None => Ok(()),
    }
}
