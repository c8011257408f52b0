//! The commands, and the tree that the last good list of nodes made. A value that was lent is let go by `drop`, so that
//! the proof takes it apart there alone.

use crate::large::large;
use crate::migrating::{write_many, write_migration};
use crate::nodes::write_node;
use std::alloc::{AllocError, Global};
use std::mem::replace;
use vx_expr::{BoundExpression, bind};
use vx_expr_notation::spelled;
use vx_layout::{Kept, LayoutError, LayoutNode, LayoutTree};
use vx_notation::dtype_text;
use vx_tree_notation::nodes_of;

/// Whether the nodes are a tree, which then stands, or which rule is broken first.
fn write_made(
    alloc: Global,
    tree: &mut Option<LayoutTree>,
    nodes: Vec<LayoutNode>,
    out: &mut String,
) -> Result<(), AllocError> {
    if nodes.len() >= 1073741824 {
        drop(nodes);
        return Ok(());
    }
    match LayoutTree::try_new(alloc, nodes) {
        Ok(made) => {
            drop(replace(tree, Some(made)));
            out.push_str("ok")
        }
        Err(error) => write!(out, "{error}"),
    }
}

/// The expression over the root that is written so.
fn bound(alloc: Global, tree: &LayoutTree, words: &str) -> Option<BoundExpression> {
    let expression = spelled(alloc, words).ok()?;
    let bound = bind(alloc, &expression, tree.dtype()).ok();
    drop(expression);
    bound
}

/// The fields of the root that an expression over it keeps.
fn kept(alloc: Global, tree: &LayoutTree, words: &str) -> Option<Kept> {
    let expression = bound(alloc, tree, words)?;
    let kept = tree.kept(alloc, &expression).ok();
    drop(expression);
    kept
}

/// The names of the fields that are kept, or that all are.
fn write_names(kept: &Kept, out: &mut String) -> Result<(), AllocError> {
    match kept {
        Kept::All => out.push_str("all"),
        Kept::Fields(names) => {
            out.push_str("fields")?;
            for name in names {
                write!(out, " {}", name.as_str())?;
            }
            Ok(())
        }
    }
}

/// The names of the fields that an expression keeps.
fn write_kept(
    alloc: Global,
    tree: &LayoutTree,
    words: &str,
    out: &mut String,
) -> Result<(), AllocError> {
    let Some(kept) = kept(alloc, tree, words) else {
        return Ok(());
    };
    let written = write_names(&kept, out);
    drop(kept);
    written
}

/// What the tree says of its root.
fn write_root(alloc: Global, tree: &LayoutTree, out: &mut String) -> Result<(), AllocError> {
    let (root, len, rows) = (tree.root(), tree.len(), tree.row_count());
    let dtype = dtype_text(alloc, tree.dtype()).unwrap_or(String::new(alloc));
    write!(out, "node {root} of {len}, {rows} rows of {dtype}")
}

/// A node, or its child at a place.
fn write_numbered(
    alloc: Global,
    tree: &LayoutTree,
    command: &str,
    words: &str,
    out: &mut String,
) -> Result<(), AllocError> {
    let (node, place) = words.split_once(' ').unwrap_or((words, ""));
    let node = node.parse::<u32>().unwrap_or(u32::MAX);
    if node >= tree.len() {
        return Ok(());
    }
    if command == "node" {
        return write_node(alloc, tree.node(node), out);
    }
    match tree.child(node, place.parse::<usize>().unwrap_or(0)) {
        Some(child) => write!(out, "{child}"),
        None => out.push_str("none"),
    }
}

/// The answer to a question about the tree.
fn write_asked(
    alloc: Global,
    tree: &LayoutTree,
    command: &str,
    words: &str,
    out: &mut String,
) -> Result<(), AllocError> {
    match command {
        "root" => write_root(alloc, tree, out),
        "kept" => write_kept(alloc, tree, words, out),
        "migrate" => write_migration(alloc, tree, words, out),
        _ => write_numbered(alloc, tree, command, words, out),
    }
}

/// The nodes that a command lists.
fn listed(alloc: Global, command: &str, words: &str) -> Option<Vec<LayoutNode>> {
    match command {
        "tree" => nodes_of(alloc, words),
        "chunks" | "levels" | "fields" => Some(large(alloc, command, words)),
        _ => None,
    }
}

/// Appends the answer to a line; to one that can't be read nothing.
fn write_answer(
    alloc: Global,
    tree: &mut Option<LayoutTree>,
    line: &str,
    out: &mut String,
) -> Result<(), AllocError> {
    let (command, words) = line.split_once(' ').unwrap_or((line, ""));
    if command == "memory" {
        return write!(out, "{}", LayoutError::Memory);
    }
    if command == "many" {
        return write_many(alloc, words, out);
    }
    if let Some(nodes) = listed(alloc, command, words) {
        return write_made(alloc, tree, nodes, out);
    }
    match tree {
        Some(tree) => write_asked(alloc, tree, command, words, out),
        None => Ok(()),
    }
}

/// Appends each line with its answer.
fn write_lines(
    alloc: Global,
    tree: &mut Option<LayoutTree>,
    lines: &str,
    out: &mut String,
) -> Result<(), AllocError> {
    for line in lines.lines() {
        out.push_str(line)?;
        if !line.is_empty() && !line.starts_with("# ") {
            out.push_str(" => ")?;
            write_answer(alloc, tree, line, out)?;
        }
        out.push('\n')?;
    }
    Ok(())
}

/// Appends each line with its answer, where there is no tree at first.
pub(crate) fn write_answers(
    alloc: Global,
    lines: &str,
    out: &mut String,
) -> Result<(), AllocError> {
    let mut tree = None;
    let written = write_lines(alloc, &mut tree, lines, out);
    drop(tree);
    written
}
