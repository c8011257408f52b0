//! The builder of a scan of the file, and its settings as words.

ghost use Rattle.std.specs.Prelude.{◌≡◌, ◌≤◌, length, IfOk, IfSome};
ghost use Rattle.vx_base.specs.Limits.{most_segments};

use crate::commands::CaseState;
use crate::files::{numbers_of, places_of};
use std::alloc::{AllocError, Global};
use std::ops::Range;
use vx_base::DType;
use vx_expr::{ArithOp, BoundExpression, Expr, bind};
use vx_layout::LayoutTree;
use vx_scan::{ScanBuilder, ScanFile};
use vx_splits::{Selection, StrictSorted};
use vx_tree_notation::{dtype_in, tree_of};

/// The builder of a scan of the tree, whose segments lie at these places.
fn scan_of(alloc: Global, layout: LayoutTree, places: &str) -> Result<ScanBuilder, AllocError>
    ensures { IfOk result (λ builder. length builder.locations ≤ most_segments) }
{
    let locations = places_of(alloc, places);
    ScanBuilder::new(alloc, ScanFile { layout, locations })
}

/// The scan of as many rows at most as the word says, and of all where it is no number.
fn at_most(builder: ScanBuilder, most: &str) -> ScanBuilder
    ensures { result.locations ≡ builder.locations }
{
    match most.parse::<u64>() {
        Ok(rows) => builder.with_limit(rows),
        Err(_) => builder,
    }
}

/// The builder of a scan of the whole file; none where its nodes are no tree.
pub(crate) fn builder_of(alloc: Global, case_state: CaseState<'_>) -> Option<ScanBuilder>
    ensures { IfSome result (λ builder. length builder.locations ≤ most_segments) }
{
    let layout = tree_of(alloc, case_state.nodes)?;
    let builder = scan_of(alloc, layout, case_state.places).ok()?;
    Some(at_most(builder, case_state.most))
}

/// The row's number for `row`, the root less the row's number for `less`, and the root for any other word.
fn expression_of(alloc: Global, word: &str) -> Result<Expr, AllocError> {
    match word {
        "row" => Ok(Expr::RowIdx),
        "less" => Expr::arith(alloc, ArithOp::Sub, Expr::Root, Expr::RowIdx),
        _ => Ok(Expr::Root),
    }
}

/// The expression of that word over a root of the dtype.
fn bound(alloc: Global, dtype: &DType, word: &str) -> Option<BoundExpression> {
    let expression = expression_of(alloc, word).ok()?;
    let bound = bind(alloc, &expression, dtype).ok();
    drop(expression);
    bound
}

/// The row's number for `row`, the root for `root`, the root less the row's number for `less`, and for any other word the
/// root of that dtype.
fn projection_of(alloc: Global, dtype: &DType, word: &str) -> Option<BoundExpression> {
    if word == "row" || word == "root" || word == "less" {
        return bound(alloc, dtype, word);
    }
    let Some(root) = dtype_in(alloc, word) else {
        return bound(alloc, dtype, word);
    };
    let projection = bound(alloc, &root, word);
    drop(root);
    projection
}

/// The scan of the file with the projection of that word; none where there is no tree, or it can't be bound.
fn projected(alloc: Global, case_state: CaseState<'_>, word: &str) -> Option<ScanBuilder>
    ensures { IfSome result (λ builder. length builder.locations ≤ most_segments) }
{
    let layout = tree_of(alloc, case_state.nodes)?;
    let Some(projection) = projection_of(alloc, layout.dtype(), word) else {
        drop(layout);
        return None;
    };
    let Ok(builder) = scan_of(alloc, layout, case_state.places) else {
        drop(projection);
        return None;
    };
    Some(builder.with_projection(projection))
}

/// The numbers of rows that are written so; none where they don't ascend.
fn indices_of(alloc: Global, words: &str) -> Option<StrictSorted> {
    StrictSorted::try_new(numbers_of(alloc, words)).ok()
}

/// The selection that is written so: `all` is every row, and numbers are the rows that have them.
fn selection_of(alloc: Global, words: &str) -> Option<Selection> {
    if words == "all" {
        return Some(Selection::All);
    }
    Some(Selection::IncludeByIndex(indices_of(alloc, words)?))
}

/// The range that is written so, as `1..4`.
fn range_of(words: &str) -> Range<u64> {
    let (start, end) = words.split_once("..").unwrap_or((words, ""));
    start.parse::<u64>().unwrap_or(0)..end.parse::<u64>().unwrap_or(0)
}

/// The scan of the file with settings that are written so: `1..4 0,3 7 row` is of the rows 0 and 3 in a range, counted
/// from 7, and projects their numbers; `1..4 all 7 row` is of all rows of the range. None where there is no tree, or they
/// can't be set.
pub(crate) fn set_of(alloc: Global, case_state: CaseState<'_>, words: &str) -> Option<ScanBuilder>
    ensures { IfSome result (λ builder. length builder.locations ≤ most_segments) }
{
    let (range, words) = words.split_once(' ').unwrap_or((words, ""));
    let (indices, words) = words.split_once(' ').unwrap_or((words, ""));
    let (offset, root) = words.split_once(' ').unwrap_or((words, ""));
    let offset = offset.parse::<u64>().unwrap_or(0);
    let selection = selection_of(alloc, indices)?;
    let Some(builder) = projected(alloc, case_state, root) else {
        drop(selection);
        return None;
    };
    let builder = builder
        .with_ordered(false)
        .with_concurrency(2)
        .with_row_range(range_of(range))
        .with_selection(selection)
        .with_row_offset(offset);
    Some(at_most(builder, case_state.most))
}
