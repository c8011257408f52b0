//! The reader of the file's tree, and what commands ask of it.

ghost use Rattle.std.specs.Prelude.{IsFalse};
ghost use Rattle.vx_expr.specs.Bound.{IsBoundTo};
ghost use Rattle.vx_expr.specs.Mentions.{uses_row_number};
ghost use Rattle.vx_readers.specs.ReaderData.{reader_head};
ghost use Rattle.vx_readers.specs.Readers.{reader_data};

use crate::answers::{write_column, write_refusal, write_source};
use crate::commands::CaseState;
use crate::evaluations::write_evaluated;
use crate::files::{places_of, source_of};
use crate::rules::{rule_of, write_registered, write_split};
use std::alloc::{AllocError, Global};
use vx_base::{Column, ScriptSource, SegmentLocation};
use vx_expr::{BoundExpression, bind};
use vx_expr_notation::spelled;
use vx_layout::LayoutTree;
use vx_notation::dtype_text;
use vx_readers::{LayoutReader, Reader, RegistersSplits, read_rows};
use vx_tree_notation::tree_of;

/// Appends the kind of a reader, its rows, and its dtype.
fn write_opened(alloc: Global, reader: &Reader<'_>, out: &mut String) -> Result<(), AllocError> {
    let kind = match reader {
        Reader::Flat(_) => "flat",
        Reader::Chunked(_) => "chunked",
        Reader::Dict(_) => "dict",
        Reader::Zoned(_) => "zoned",
    };
    let dtype = dtype_text(alloc, reader.dtype()).unwrap_or(String::new(alloc));
    let rows = reader.row_count();
    write!(out, " {kind}, {rows} rows of {};", dtype.as_str())
}

/// Appends columns, one after another.
fn write_columns(alloc: Global, columns: &[Column], out: &mut String) -> Result<(), AllocError> {
    for column in columns {
        write_column(alloc, column, out)?;
    }
    Ok(())
}

/// Appends the columns of all rows, split by a rule, or why there are none.
fn write_read<'a>(
    alloc: Global,
    reader: &Reader<'a>,
    expression: &'a BoundExpression,
    rule: &str,
    limit: u64,
    source: &mut ScriptSource,
    out: &mut String,
) -> Result<(), AllocError>
    requires bound { IsBoundTo expression.now (reader_head (reader_data reader.now)).dtype }
    requires no_numbers { IsFalse (uses_row_number expression.now.term) }
{
    let rule = rule_of(rule);
    match read_rows(alloc, reader, &rule, expression, source, limit.max(1)) {
        Ok(columns) => {
            let written = write_columns(alloc, &columns, out);
            drop(columns);
            written
        }
        Err(error) => write_refusal(error, out),
    }
}

/// Appends the columns of all rows, and what their source was asked.
fn write_whole<'a>(
    alloc: Global,
    case_state: CaseState<'_>,
    reader: &Reader<'a>,
    expression: &'a BoundExpression,
    rule: &str,
    out: &mut String,
) -> Result<(), AllocError>
    requires { IsBoundTo expression.now (reader_head (reader_data reader.now)).dtype }
{
    if expression.uses_row_idx() {
        return out.push_str(" uses the row index;");
    }
    let mut source = source_of(alloc, case_state.bytes, case_state.script);
    let read = write_read(
        alloc,
        reader,
        expression,
        rule,
        case_state.limit,
        &mut source,
        out,
    );
    let written = read.and(write_source(&source, out));
    drop(source);
    written
}

/// Appends what a command over the expression gives, of the reader of the root's kind.
fn write_inner<'a>(
    alloc: Global,
    case_state: CaseState<'_>,
    reader: &Reader<'a>,
    expression: &'a BoundExpression,
    words: &str,
    out: &mut String,
) -> Result<(), AllocError>
    requires { IsBoundTo expression.now (reader_head (reader_data reader.now)).dtype }
{
    let (command, words) = words.split_once(' ').unwrap_or((words, ""));
    match reader {
        Reader::Flat(flat) => write_evaluated(
            alloc, case_state, flat, expression, command, words, out,
        ),
        Reader::Chunked(chunked) => write_evaluated(
            alloc, case_state, chunked, expression, command, words, out,
        ),
        Reader::Dict(dict) => write_evaluated(
            alloc, case_state, dict, expression, command, words, out,
        ),
        Reader::Zoned(zoned) => write_evaluated(
            alloc, case_state, zoned, expression, command, words, out,
        ),
    }
}

/// Appends what a command over the expression gives.
fn write_bound<'a>(
    alloc: Global,
    case_state: CaseState<'_>,
    reader: &Reader<'a>,
    expression: &'a BoundExpression,
    command: &str,
    words: &str,
    out: &mut String,
) -> Result<(), AllocError>
    requires { IsBoundTo expression.now (reader_head (reader_data reader.now)).dtype }
{
    match command {
        "read" => write_whole(alloc, case_state, reader, expression, words, out),
        "inner" => write_inner(alloc, case_state, reader, expression, words, out),
        "project" | "filter" | "prune" | "both" => write_evaluated(
            alloc, case_state, reader, expression, command, words, out,
        ),
        _ => out.push_str(" no command;"),
    }
}

/// Appends where the reader of the root's kind splits rows.
fn write_inner_splits(
    alloc: Global,
    reader: &Reader<'_>,
    words: &str,
    out: &mut String,
) -> Result<(), AllocError> {
    match reader {
        Reader::Flat(flat) => write_split(alloc, flat, words, out),
        Reader::Chunked(chunked) => write_split(alloc, chunked, words, out),
        Reader::Dict(dict) => write_split(alloc, dict, words, out),
        Reader::Zoned(zoned) => write_split(alloc, zoned, words, out),
    }
}

/// Appends the answer to a command over the reader.
fn write_over<'a>(
    alloc: Global,
    case_state: CaseState<'_>,
    reader: &Reader<'a>,
    expression: &'a BoundExpression,
    command: &str,
    words: &str,
    out: &mut String,
) -> Result<(), AllocError> {
    match command {
        "tree" => write_opened(alloc, reader, out),
        "splits" => write_split(alloc, reader, words, out),
        "inner_splits" => write_inner_splits(alloc, reader, words, out),
        "register" => write_registered(alloc, reader, words, out),
        _ => {
            if !expression.is_root_bound_to(reader.dtype()) {
                return out.push_str(" isn't bound;");
            }
            write_bound(alloc, case_state, reader, expression, command, words, out)
        }
    }
}

/// The tree of a file, where its segments lie, and an expression over its rows.
#[derive(Drop)]
struct File {
    tree: LayoutTree,
    locations: Vec<SegmentLocation>,
    expression: BoundExpression,
}

/// The expression over the tree's rows that is written so.
fn bound_of(alloc: Global, tree: &LayoutTree, words: &str) -> Option<BoundExpression> {
    let expr = spelled(alloc, words).ok()?;
    let bound = bind(alloc, &expr, tree.dtype()).ok();
    drop(expr);
    bound
}

/// The file as words; none where its nodes are no tree, or the expression isn't one over its rows.
fn file_of(alloc: Global, case_state: CaseState<'_>) -> Option<File> {
    let tree = tree_of(alloc, case_state.nodes)?;
    let Some(expression) = bound_of(alloc, &tree, case_state.expression) else {
        drop(tree);
        return None;
    };
    Some(File {
        tree,
        locations: places_of(alloc, case_state.places),
        expression,
    })
}

/// Appends the answer to a command over the reader of the file, or which node isn't read.
fn write_read_by(
    alloc: Global,
    case_state: CaseState<'_>,
    file: &File,
    command: &str,
    words: &str,
    out: &mut String,
) -> Result<(), AllocError> {
    match Reader::try_new(&file.tree, &file.locations) {
        Ok(reader) => write_over(
            alloc,
            case_state,
            &reader,
            &file.expression,
            command,
            words,
            out,
        ),
        Err(error) => write!(out, " {error};"),
    }
}

/// Appends the answer to a command over the file.
pub(crate) fn write_on_file(
    alloc: Global,
    case_state: CaseState<'_>,
    command: &str,
    words: &str,
    out: &mut String,
) -> Result<(), AllocError> {
    let Some(file) = file_of(alloc, case_state) else {
        return out.push_str(" no tree, or no expression over it;");
    };
    let written = write_read_by(alloc, case_state, &file, command, words, out);
    drop(file);
    written
}
