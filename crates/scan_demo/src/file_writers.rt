//! A file as it is written: its nodes, its segments, and where these lie.

ghost use Rattle.std.specs.Prelude.{◌≡◌, ◌+◌, ◌^◌, ◌<◌, ◌≤◌, [], ◌∷◌, IfOk, OnOk, length};
ghost use Rattle.std.specs.List.{AllByRecursion, range_with_len};
ghost use Rattle.vx_base.specs.Leaf.{IsLeaf};
ghost use Rattle.vx_base.specs.Slots.{IsShort};
ghost use Rattle.vx_base.specs.Views.{data_type};
ghost use Rattle.vx_layout.specs.Nodes.{parent_node};
ghost use Rattle.scan_demo.specs.DemoBytes.{segment_of};
ghost use Rattle.scan_demo.specs.DemoNodes.{chunk_nodes, chunked_nodes, flat_node};
ghost use Rattle.scan_demo.specs.DemoRows.{most_demo_rows};
ghost use Rattle.scan_demo.specs.Flats.{chunk_count, chunk_flats};
ghost use Rattle.scan_demo.specs.Writing.{Wrote};

use crate::stored_columns::{CHUNK_ROWS, StoredColumn};
use std::alloc::{AllocError, Global};
use vx_base::{Coding, Column, DType, SegmentLocation, encode};
use vx_layout::{LayoutKind, LayoutNode};

/// A file as it is written.
#[derive(Drop)]
pub(crate) struct FileWriter {
    pub(crate) nodes: Vec<LayoutNode>,
    pub(crate) locations: Vec<SegmentLocation>,
    pub(crate) bytes: Vec<u8>,
}

/// So many numbers, from one on.
fn numbers_from(alloc: Global, first: u32, count: u32) -> Result<Vec<u32>, AllocError>
    requires { first + count < 2 ^ 32 }
    ensures { IfOk result (λ numbers. numbers.items ≡ range_with_len first count) }
{
    let mut numbers = Vec::with_capacity(alloc, count as usize)?;
    for place in 0..count {
        numbers.push(first + place)?;
    }
    Ok(numbers)
}

impl FileWriter {
    /// A file of no nodes and no bytes.
    pub(crate) fn new(alloc: Global) -> FileWriter
        ensures nodes { result.nodes.items ≡ [] }
        ensures locations { result.locations.items ≡ [] }
        ensures bytes { result.bytes.items ≡ [] }
    {
        FileWriter {
            nodes: Vec::new(alloc),
            locations: Vec::new(alloc),
            bytes: Vec::new(alloc),
        }
    }

    /// Writes a node over its children.
    pub(crate) fn push_node(
        &mut self,
        kind: LayoutKind,
        dtype: DType,
        row_count: u64,
        children: Vec<u32>,
    ) -> Result<(), AllocError>
        ensures { OnOk result (Wrote self.old self.new (parent_node kind (data_type dtype) row_count children.items ∷ []) []) }
    {
        self.nodes.push(LayoutNode {
            kind,
            dtype,
            row_count,
            children,
        })?;
        Ok(())
    }

    /// Writes the segment of a flat, and where it lies.
    fn push_segment(&mut self, alloc: Global, column: &Column) -> Result<(), AllocError>
        requires leaf { IsLeaf column.now.dtype }
        requires short { AllByRecursion IsShort column.now.values }
        requires small { length (segment_of column.now) < 2 ^ 32 }
        ensures { OnOk result (Wrote self.old self.new [] (column.now ∷ [])) }
    {
        let bytes = encode(alloc, column)?;
        self.locations.push(SegmentLocation {
            offset: self.bytes.len() as u64,
            length: bytes.len() as u32,
            alignment: 1,
        })?;
        self.bytes.extend_from_slice(&bytes)?;
        Ok(())
    }

    /// Writes a flat: its segment, which has this number, and its node.
    pub(crate) fn push_flat(
        &mut self,
        alloc: Global,
        segment: u32,
        column: &Column,
    ) -> Result<(), AllocError>
        requires leaf { IsLeaf column.now.dtype }
        requires short { AllByRecursion IsShort column.now.values }
        requires small { length (segment_of column.now) < 2 ^ 32 }
        ensures { OnOk result (Wrote self.old self.new (flat_node segment column.now ∷ []) (column.now ∷ [])) }
    {
        self.push_segment(alloc, column)?;
        let dtype = column.dtype().copy(alloc)?;
        let kind = LayoutKind::Flat {
            segment,
            coding: Coding::Plain,
        };
        self.push_node(kind, dtype, column.len(), Vec::new(alloc))?;
        Ok(())
    }

    /// Writes the chunks of a column of a file of so many rows. The first has this segment.
    fn push_chunks(
        &mut self,
        alloc: Global,
        column: StoredColumn,
        number: u64,
        segment: u32,
    ) -> Result<(), AllocError>
        requires few { number ≤ most_demo_rows }
        requires segments { segment ≤ 1000000 }
        ensures { OnOk result (Wrote self.old self.new (chunk_nodes column number segment) (chunk_flats column number)) }
    {
        for chunk in 0..number.div_ceil(CHUNK_ROWS) {
            let stored = column.chunk(alloc, number, chunk)?;
            self.push_flat(alloc, segment + chunk as u32, &stored)?;
        }
        Ok(())
    }

    /// Writes a chunked column of a file of so many rows: its node and its chunks. The first of them has this number
    /// and this segment.
    pub(crate) fn push_chunked(
        &mut self,
        alloc: Global,
        column: StoredColumn,
        number: u64,
        first: u32,
        segment: u32,
    ) -> Result<(), AllocError>
        requires few { number ≤ most_demo_rows }
        requires nodes { first ≤ 1000000 }
        requires segments { segment ≤ 1000000 }
        ensures { OnOk result (Wrote self.old self.new (chunked_nodes column number first segment) (chunk_flats column number)) }
    {
        let chunks = number.div_ceil(CHUNK_ROWS) as u32;
        let children = numbers_from(alloc, first, chunks)?;
        self.push_node(LayoutKind::Chunked, column.dtype(), number, children)?;
        self.push_chunks(alloc, column, number, segment)?;
        Ok(())
    }
}
