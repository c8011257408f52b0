//! Nodes as they are printed.

use crate::kinds::write_kind;
use std::alloc::{AllocError, Global};
use vx_layout::LayoutNode;
use vx_notation::dtype_text;

/// The words of a node.
pub(crate) fn write_node(
    alloc: Global,
    node: &LayoutNode,
    out: &mut String,
) -> Result<(), AllocError> {
    let dtype = dtype_text(alloc, &node.dtype).unwrap_or(String::new(alloc));
    let written = write_kind(&node.kind, out).and(write!(
        out,
        " {} rows of {dtype}, children",
        node.row_count
    ));
    drop(dtype);
    written?;
    for child in &node.children {
        write!(out, " {child}")?;
    }
    Ok(())
}
