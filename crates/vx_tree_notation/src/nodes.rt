//! Nodes as words: kind, rows, children and dtype, as `chunked 9 1,2,3 i32`.

use crate::dtypes::dtype_in;
use crate::kinds::kind_of;
use std::alloc::{AllocError, Global};
use vx_layout::LayoutNode;

/// The numbers between commas; `-` is none.
fn children_of(alloc: Global, word: &str) -> Result<Vec<u32>, AllocError> {
    let mut children = Vec::new(alloc);
    for number in word.split(',') {
        if number != "-" {
            children.push(number.parse::<u32>().unwrap_or(0))?;
        }
    }
    Ok(children)
}

/// The node that is written so.
fn node_of(alloc: Global, text: &str) -> Option<LayoutNode> {
    let (kind, rest) = text.split_once(' ')?;
    let (rows, rest) = rest.split_once(' ')?;
    let (children, words) = rest.split_once(' ')?;
    let row_count = rows.parse::<u64>().unwrap_or(0);
    let children = children_of(alloc, children).ok()?;
    let kind = kind_of(alloc, kind)?;
    let dtype = dtype_in(alloc, words)?;
    Some(LayoutNode {
        kind,
        dtype,
        row_count,
        children,
    })
}

/// The nodes between semicolons; no words are no nodes. None where a node can't be read.
pub fn nodes_of(alloc: Global, text: &str) -> Option<Vec<LayoutNode>> {
    let mut nodes = Vec::new(alloc);
    if text.is_empty() {
        return Some(nodes);
    }
    for part in text.split(';') {
        let node = node_of(alloc, part.trim())?;
        nodes.push(node).ok()?;
    }
    Some(nodes)
}
