//! Lists of very many nodes.

use std::alloc::Global;
use vx_base::{Coding, DType, Field, Fields, Nullability, Text};
use vx_layout::{LayoutKind, LayoutNode};

/// A node of truth values that are never null.
fn truths(kind: LayoutKind, row_count: u64, children: Vec<u32>) -> LayoutNode {
    LayoutNode {
        kind,
        dtype: DType::Bool(Nullability::NonNullable),
        row_count,
        children,
    }
}

/// The numbers from 1 to the count. What has no room is left out, here and below.
fn numbers(alloc: Global, count: u32) -> Vec<u32> {
    let mut numbers = Vec::new(alloc);
    for number in 0..count {
        let _pushed = numbers.push(number.saturating_add(1)).ok();
    }
    numbers
}

/// The root, and so many flat nodes of one row, each over a segment of its own.
fn over_flats(alloc: Global, root: LayoutNode, count: u32) -> Vec<LayoutNode> {
    let mut nodes = Vec::new(alloc);
    let _pushed = nodes.push(root).ok();
    for segment in 0..count {
        let kind = LayoutKind::Flat {
            segment,
            coding: Coding::Plain,
        };
        let _pushed = nodes.push(truths(kind, 1, Vec::new(alloc))).ok();
    }
    nodes
}

/// A chunked node whose only chunk is the node of the next number.
fn level(alloc: Global, number: u32) -> LayoutNode {
    let mut children = Vec::new(alloc);
    let _pushed = children.push(number.saturating_add(1)).ok();
    truths(LayoutKind::Chunked, 1, children)
}

/// So many chunked nodes, each the only chunk of the one before it, and a flat node in the last.
fn levels(alloc: Global, count: u32) -> Vec<LayoutNode> {
    let mut nodes = Vec::new(alloc);
    for number in 0..count {
        let _pushed = nodes.push(level(alloc, number)).ok();
    }
    let kind = LayoutKind::Flat {
        segment: 0,
        coding: Coding::Plain,
    };
    let _pushed = nodes.push(truths(kind, 1, Vec::new(alloc))).ok();
    nodes
}

/// The name of the field of a number: `f1` and so on, and the last one.
fn field_name(alloc: Global, number: u32, count: u32, last: &str) -> Text {
    let name = if number < count {
        format!(in alloc; "f{number}")
    } else {
        String::from_str(alloc, last)
    };
    Text::from_string(name.unwrap_or(String::new(alloc)))
}

/// A struct of the fields `f1`, `f2` and so on, behind them the last one.
fn fields_type(alloc: Global, count: u32, last: &str) -> DType {
    let mut fields = Vec::new(alloc);
    for number in 1..count.saturating_add(1) {
        let name = field_name(alloc, number, count, last);
        let dtype = DType::Bool(Nullability::NonNullable);
        let _pushed = fields.push(Field { name, dtype }).ok();
    }
    let fields = Fields::from_vec(fields);
    DType::Struct(fields, Nullability::NonNullable)
}

/// The nodes of a command: so many `chunks` or `fields`, each a flat node, or so many `levels`.
pub(crate) fn large(alloc: Global, command: &str, words: &str) -> Vec<LayoutNode> {
    let (count, last) = words.split_once(' ').unwrap_or((words, ""));
    let count = count.parse::<u32>().unwrap_or(0);
    if command == "levels" {
        return levels(alloc, count);
    }
    let children = numbers(alloc, count);
    let root = if command == "fields" {
        LayoutNode {
            kind: LayoutKind::Struct,
            dtype: fields_type(alloc, count, last),
            row_count: 1,
            children,
        }
    } else {
        truths(LayoutKind::Chunked, u64::from(count), children)
    };
    over_flats(alloc, root, count)
}
