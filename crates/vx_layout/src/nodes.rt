//! The nodes of a layout.

use vx_base::{Coding, DType};
use vx_expr::Statistics;

/// What a node is, and what its children are, in order.
#[derive(Debug, Drop)]
pub enum LayoutKind {
    /// One segment, the coding of its bytes, and no children.
    Flat { segment: u32, coding: Coding },
    /// The rows of its children, one child after another.
    Chunked,
    /// The validity where the dtype is nullable, then a child for each field.
    Struct,
    /// The values, and the codes that say for each row which of them it has.
    Dict,
    /// The elements, the offsets, and the validity where the dtype is nullable.
    List,
    /// The data, and a table with a row for each zone of so many rows.
    Zoned { zone_len: u64, stats: Statistics },
    /// As `Zoned`, in an older form.
    LegacyStats { zone_len: u64, stats: Statistics },
}

/// A node of a layout: its kind, the dtype and the number of its rows, and the numbers of its children.
#[derive(Debug)]
pub struct LayoutNode {
    pub kind: LayoutKind,
    pub dtype: DType,
    pub row_count: u64,
    pub children: Vec<u32>,
}

impl Drop for LayoutNode {
    fn drop(self) {
        let LayoutNode {
            kind: _,
            dtype: _,
            row_count: _,
            children: _,
        } = self;
    }
}
