//! Evaluations of a reader, begun as words ask, and their turns at a source.

ghost use Rattle.std.specs.Prelude.{◌≡◌, ◌-◌, ◌≤◌, length, IfOk, IfSome, IsTrue};
ghost use Rattle.vx_base.specs.ColumnCalls.{IsBool};
ghost use Rattle.vx_base.specs.Views.{data_type};
ghost use Rattle.vx_expr.specs.Bound.{IsBoundTo};
ghost use Rattle.vx_readers.specs.ReaderData.{reader_head};
ghost use Rattle.vx_readers_cases.specs.Running.{Starts};

use crate::answers::write_source;
use crate::commands::CaseState;
use crate::files::source_of;
use crate::rows::{Selected, selected_of};
use crate::running::Running;
use crate::turns::{Both, write_both, write_turns};
use std::alloc::{AllocError, Global};
use std::ops::Range;
use vx_base::{DType, Mask, ScriptSource};
use vx_expr::BoundExpression;
use vx_readers::LayoutReader;

/// Whether it is a dtype of truth values.
pub(crate) fn is_bool(dtype: &DType) -> bool
    ensures { IsTrue result → IsBool (data_type dtype.now) }
{
    matches!(dtype, DType::Bool(_))
}

/// The state of a filter, or of pruning.
fn begun_mask<'a, L: LayoutReader<'a>>(
    alloc: Global,
    reader: &L,
    command: &str,
    rows: Range<u64>,
    expression: &'a BoundExpression,
    mask: Mask,
) -> Result<Running<'a>, AllocError>
    requires forwards { rows.start ≤ rows.end }
    requires inside { rows.end ≤ L.all_rows reader.now }
    requires masked { length mask ≡ rows.end - rows.start }
    requires bound { IsBoundTo expression.now (reader_head (L.borrowed reader.now)).dtype }
    requires bool { IsBool expression.now.dtype }
    ensures { IfOk result Starts }
{
    if command == "prune" {
        reader
            .pruning_evaluation(alloc, rows, expression, mask)
            .map(Running::Mask)
    } else {
        reader
            .filter_evaluation(alloc, rows, expression, mask)
            .map(Running::Mask)
    }
}

/// Whether the rows lie within so many, with a mask of their length.
fn is_inside(row_count: u64, selected: &Selected) -> bool
    ensures forwards { IsTrue result → selected.now.rows.start ≤ selected.now.rows.end }
    ensures inside { IsTrue result → selected.now.rows.end ≤ row_count }
    ensures masked { IsTrue result → length selected.now.mask ≡ selected.now.rows.end - selected.now.rows.start }
{
    let start = selected.rows.start;
    let end = selected.rows.end;
    start <= end && end <= row_count && selected.mask.len() == end - start
}

/// The state that the words ask for, as `project 0..3:101`; none where the rows don't lie in the reader, or the expression
/// of a filter isn't true or false.
fn begun<'a, L: LayoutReader<'a>>(
    alloc: Global,
    reader: &L,
    expression: &'a BoundExpression,
    command: &str,
    word: &str,
) -> Result<Option<Running<'a>>, AllocError>
    requires bound { IsBoundTo expression.now (reader_head (L.borrowed reader.now)).dtype }
    ensures { IfOk result (λ running. IfSome running Starts) }
{
    let selected = selected_of(alloc, word)?;
    if !is_inside(reader.row_count(), &selected) {
        drop(selected);
        return Ok(None);
    }
    let Selected { rows, mask } = selected;
    if command == "project" {
        return match reader.projection_evaluation(alloc, rows, expression, mask) {
            Ok(state) => Ok(Some(Running::Column(state))),
            Err(error) => Err(error),
        };
    }
    if !is_bool(expression.dtype()) {
        drop(mask);
        return Ok(None);
    }
    match begun_mask(alloc, reader, command, rows, expression, mask) {
        Ok(running) => Ok(Some(running)),
        Err(error) => Err(error),
    }
}

/// Appends the turns of one evaluation.
fn write_one<'a, L: LayoutReader<'a>>(
    alloc: Global,
    case_state: CaseState<'_>,
    reader: &L,
    expression: &'a BoundExpression,
    command: &str,
    word: &str,
    source: &mut ScriptSource,
    out: &mut String,
) -> Result<(), AllocError>
    requires bound { IsBoundTo expression.now (reader_head (L.borrowed reader.now)).dtype }
{
    match begun(alloc, reader, expression, command, word) {
        Ok(Some(running)) => write_turns(alloc, running, case_state.limit, source, out),
        Ok(None) => out.push_str(" not begun;"),
        Err(error) => Err(error),
    }
}

/// The state that the words ask for, as `project 0..3:101`.
fn begun_by<'a, L: LayoutReader<'a>>(
    alloc: Global,
    reader: &L,
    expression: &'a BoundExpression,
    words: &str,
) -> Result<Option<Running<'a>>, AllocError>
    requires bound { IsBoundTo expression.now (reader_head (L.borrowed reader.now)).dtype }
    ensures { IfOk result (λ running. IfSome running Starts) }
{
    let (command, word) = words.split_once(' ').unwrap_or((words, ""));
    begun(alloc, reader, expression, command, word)
}

/// The states that two parts of words ask for.
fn begun_both<'a, L: LayoutReader<'a>>(
    alloc: Global,
    reader: &L,
    expression: &'a BoundExpression,
    one: &str,
    two: &str,
) -> Result<Option<Both<'a>>, AllocError>
    requires bound { IsBoundTo expression.now (reader_head (L.borrowed reader.now)).dtype }
    ensures one { IfOk result (λ both. IfSome both (λ both. Starts both.one)) }
    ensures two { IfOk result (λ both. IfSome both (λ both. Starts both.two)) }
{
    let Some(one) = begun_by(alloc, reader, expression, one)? else {
        return Ok(None);
    };
    match begun_by(alloc, reader, expression, two) {
        Ok(Some(two)) => Ok(Some(Both { one, two })),
        Ok(None) => {
            drop(one);
            Ok(None)
        }
        Err(error) => {
            drop(one);
            Err(error)
        }
    }
}

/// Appends the turns of two evaluations, as `project 0..3 | filter 1..3 | 1221` asks.
fn write_two<'a, L: LayoutReader<'a>>(
    alloc: Global,
    reader: &L,
    expression: &'a BoundExpression,
    words: &str,
    source: &mut ScriptSource,
    out: &mut String,
) -> Result<(), AllocError>
    requires bound { IsBoundTo expression.now (reader_head (L.borrowed reader.now)).dtype }
{
    let (one, words) = words.split_once(" | ").unwrap_or((words, ""));
    let (two, order) = words.split_once(" | ").unwrap_or((words, ""));
    match begun_both(alloc, reader, expression, one, two) {
        Ok(Some(both)) => write_both(alloc, both, order, source, out),
        Ok(None) => out.push_str(" not begun;"),
        Err(error) => Err(error),
    }
}

/// Appends the turns of one evaluation of the reader's rows, or of two of them, and what their source was asked.
pub(crate) fn write_evaluated<'a, L: LayoutReader<'a>>(
    alloc: Global,
    case_state: CaseState<'_>,
    reader: &L,
    expression: &'a BoundExpression,
    command: &str,
    words: &str,
    out: &mut String,
) -> Result<(), AllocError>
    requires bound { IsBoundTo expression.now (reader_head (L.borrowed reader.now)).dtype }
{
    let mut source = source_of(alloc, case_state.bytes, case_state.script);
    let ran = if command == "both" {
        write_two(alloc, reader, expression, words, &mut source, out)
    } else {
        write_one(
            alloc,
            case_state,
            reader,
            expression,
            command,
            words,
            &mut source,
            out,
        )
    };
    let written = ran.and(write_source(&source, out));
    drop(source);
    written
}
