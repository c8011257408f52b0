//! The segments of a tree, written anew in other codings. The segment of each flat node is read once; besides the two
//! files there are the column and the new bytes of one node.

ghost use Rattle.std.specs.Prelude.{◌≡◌, ◌+◌, ◌<◌, ◌≤◌, ◌^◌, [], ◌∷◌, ◌++◌, length, map, Some, slice_get, IfErr, IfOk, OnOk};
ghost use Rattle.std.specs.List.{AllByRecursion};
ghost use Rattle.vx_base.specs.Leaf.{IsLeaf};
ghost use Rattle.vx_base.specs.Limits.{most_segments};
ghost use Rattle.vx_layout.specs.Migrations.{flat_count, moved_kind as kind_moved, AllCanMove, HasCountedRows, IsMigrated, MigrateRefusedBy};
ghost use Rattle.vx_layout.specs.Moving.{location_behind, node_over, HasWritten, IsJoined, IsPushed, RefusesFlat};
ghost use Rattle.vx_layout.specs.Nodes.{node_data};
ghost use Rattle.vx_layout.specs.Shape.{node_limit, IsGoodTree};

use crate::errors::LayoutError;
use crate::flat_kinds::flat_parts;
use crate::migrate_errors::MigrateError;
use crate::moved_segments::{FlatNode, moved_segment};
use crate::nodes::{LayoutKind, LayoutNode};
use crate::trees::LayoutTree;
use std::alloc::{AllocError, Global};
use vx_base::{Coding, SegmentLocation};
use vx_expr::Statistics;

/// A tree whose segments were written anew, where they lie, and the file.
#[derive(Drop)]
pub struct Migrated {
    pub tree: LayoutTree,
    pub locations: Vec<SegmentLocation>,
    pub file: Vec<u8>,
}

/// What was written of the tree so far.
#[derive(Drop)]
pub(crate) struct Written {
    pub(crate) nodes: Vec<LayoutNode>,
    pub(crate) locations: Vec<SegmentLocation>,
    pub(crate) file: Vec<u8>,
}

/// The statistics, in memory of their own.
fn stats_of(alloc: Global, stats: &Statistics) -> Result<Statistics, AllocError>
    ensures { IfOk result (λ copy. copy ≡ stats.now) }
{
    let mut items = Vec::with_capacity(alloc, stats.items().len())?;
    items.extend_from_slice(stats.items())?;
    Ok(Statistics::from_vec(items))
}

/// The kind, in memory of its own; a flat one over another segment in another coding.
fn moved_kind(
    alloc: Global,
    kind: &LayoutKind,
    place: u32,
    coding: Coding,
) -> Result<LayoutKind, AllocError>
    ensures { IfOk result (λ made. made ≡ kind_moved kind.now place (Some coding)) }
{
    match kind {
        LayoutKind::Flat { .. } => Ok(LayoutKind::Flat {
            segment: place,
            coding,
        }),
        LayoutKind::Chunked => Ok(LayoutKind::Chunked),
        LayoutKind::Struct => Ok(LayoutKind::Struct),
        LayoutKind::Dict => Ok(LayoutKind::Dict),
        LayoutKind::List => Ok(LayoutKind::List),
        LayoutKind::Zoned { zone_len, stats } => Ok(LayoutKind::Zoned {
            zone_len: *zone_len,
            stats: stats_of(alloc, stats)?,
        }),
        LayoutKind::LegacyStats { zone_len, stats } => Ok(LayoutKind::LegacyStats {
            zone_len: *zone_len,
            stats: stats_of(alloc, stats)?,
        }),
    }
}

/// The node, in memory of its own; a flat one over another segment in another coding.
fn moved_node(
    alloc: Global,
    node: &LayoutNode,
    place: u32,
    coding: Coding,
) -> Result<LayoutNode, AllocError>
    ensures { IfOk result (λ made. node_data made ≡ node_over (node_data node.now) place coding) }
{
    let mut children = Vec::with_capacity(alloc, node.children.len())?;
    children.extend_from_slice(&node.children)?;
    let dtype = node.dtype.copy(alloc)?;
    let kind = moved_kind(alloc, &node.kind, place, coding)?;
    Ok(LayoutNode {
        kind,
        dtype,
        row_count: node.row_count,
        children,
    })
}

/// The coding at a place that there is.
fn coding_at(codings: &[Coding], place: usize) -> Coding
    requires { place < length codings.now }
    ensures { slice_get codings.now place ≡ Some result }
{
    codings[place]
}

impl Written {
    /// Nothing is written yet.
    fn new(alloc: Global) -> Written
        ensures nodes { result.nodes.items ≡ [] }
        ensures locations { result.locations.items ≡ [] }
        ensures file { result.file.items ≡ [] }
    {
        Written {
            nodes: Vec::new(alloc),
            locations: Vec::new(alloc),
            file: Vec::new(alloc),
        }
    }

    /// Writes a segment behind the others.
    fn push_segment(&mut self, bytes: &[u8], alignment: u32) -> Result<(), AllocError>
        requires { length bytes.now < 2 ^ 32 }
        ensures nodes { self.new.nodes ≡ self.old.nodes }
        ensures file { OnOk result (self.new.file.items ≡ self.old.file.items ++ bytes.now) }
        ensures located { OnOk result (self.new.locations.items ≡ self.old.locations.items ++ location_behind self.old.file.items bytes.now alignment ∷ []) }
    {
        self.locations.push(SegmentLocation {
            offset: self.file.len() as u64,
            length: bytes.len() as u32,
            alignment,
        })?;
        self.file.extend_from_slice(bytes)?;
        Ok(())
    }

    /// Writes a node, over the segment of this number if it is flat.
    fn push_node(
        &mut self,
        alloc: Global,
        node: &LayoutNode,
        place: u32,
        coding: Coding,
    ) -> Result<(), AllocError>
        ensures locations { self.new.locations ≡ self.old.locations }
        ensures file { self.new.file ≡ self.old.file }
        ensures pushed { OnOk result (map node_data self.new.nodes.items ≡ map node_data self.old.nodes.items ++ node_over (node_data node.now) place coding ∷ []) }
    {
        let moved = moved_node(alloc, node, place, coding)?;
        self.nodes.push(moved)?;
        Ok(())
    }

    /// Writes a flat node, in its new coding, and its segment.
    fn push_moved(
        &mut self,
        alloc: Global,
        node: &LayoutNode,
        coding: Coding,
        bytes: &[u8],
        alignment: u32,
    ) -> Result<(), AllocError>
        requires few { length self.old.locations.items < 2 ^ 32 }
        requires small { length bytes.now < 2 ^ 32 }
        ensures { OnOk result (IsJoined (node_data node.now) coding bytes.now alignment self.old self.new) }
    {
        let place = self.locations.len() as u32;
        self.push_segment(bytes, alignment)?;
        self.push_node(alloc, node, place, coding)
    }

    /// Writes a flat node and what its segment holds, in its new coding.
    fn push_flat(
        &mut self,
        alloc: Global,
        node: &LayoutNode,
        flat: FlatNode,
        locations: &[SegmentLocation],
        file: &[u8],
    ) -> Result<(), MigrateError>
        requires few { length self.old.locations.items < 2 ^ 32 }
        requires leaf { IsLeaf (node_data node.now).dtype }
        requires counted { node.now.row_count < 2 ^ 32 }
        ensures pushed { OnOk result (IsPushed locations.now file.now (node_data node.now) flat.segment flat.old flat.new self.old self.new) }
        ensures refused { IfErr result (RefusesFlat locations.now file.now flat.number (node_data node.now) flat.segment flat.old flat.new) }
    {
        match moved_segment(alloc, node, flat, locations, file) {
            Ok(made) => match self.push_moved(alloc, node, flat.new, &made.0, made.1) {
                Ok(()) => Ok(()),
                Err(_) => Err(MigrateError::Memory),
            },
            Err(error) => Err(error),
        }
    }

    /// Writes the node of that number, and its segment if it is flat.
    fn push(
        &mut self,
        alloc: Global,
        tree: &LayoutTree,
        number: u32,
        locations: &[SegmentLocation],
        file: &[u8],
        codings: &[Coding],
    ) -> Result<(), MigrateError>
        requires so_far { HasWritten tree.now locations.now file.now codings.now number self.old }
        requires codings { length codings.now ≡ flat_count tree.now }
        requires counted { AllByRecursion HasCountedRows tree.now }
        requires known { number < length tree.now }
        requires few { length tree.now < node_limit }
        ensures written { OnOk result (HasWritten tree.now locations.now file.now codings.now (number + 1) self.new) }
        ensures refused { IfErr result (MigrateRefusedBy tree.now locations.now file.now codings.now) }
    {
        let node = tree.node(number);
        match flat_parts(&node.kind) {
            Some(parts) => {
                let place = self.locations.len();
                let new = coding_at(codings, place);
                let flat = FlatNode {
                    number,
                    segment: parts.0,
                    old: parts.1,
                    new,
                };
                self.push_flat(alloc, node, flat, locations, file)
            }
            None => match self.push_node(alloc, node, 0, Coding::Plain) {
                Ok(()) => Ok(()),
                Err(_) => Err(MigrateError::Memory),
            },
        }
    }
}

/// The tree of the written nodes.
fn closed(alloc: Global, written: Written) -> Result<Migrated, MigrateError>
    requires good { IsGoodTree (map node_data written.nodes.items) }
    requires few { length written.nodes.items < node_limit }
    ensures nodes { IfOk result (λ made. made.tree ≡ map node_data written.nodes.items) }
    ensures locations { IfOk result (λ made. made.locations.items ≡ written.locations.items) }
    ensures file { IfOk result (λ made. made.file.items ≡ written.file.items) }
    ensures memory { IfErr result (λ error. error ≡ MigrateError.Memory) }
{
    let Written {
        nodes,
        locations,
        file,
    } = written;
    match LayoutTree::try_new(alloc, nodes) {
        Ok(tree) => Ok(Migrated {
            tree,
            locations,
            file,
        }),
        Err(LayoutError::Memory) => Err(MigrateError::Memory),
        Err(LayoutError::BadLayout { .. }) => unreachable!(),
    }
}

/// The same rows in other codings, one for each flat node in ascending node number: each gets a segment of its own, and
/// these lie in that order, without gaps, with their old alignments.
pub fn migrate(
    alloc: Global,
    tree: &LayoutTree,
    locations: &[SegmentLocation],
    file: &[u8],
    codings: &[Coding],
) -> Result<Migrated, MigrateError>
    requires few { length locations.now ≤ most_segments }
    requires codings { length codings.now ≡ flat_count tree.now }
    requires counted { AllByRecursion HasCountedRows tree.now }
    ensures migrated { IfOk result (λ made. IsMigrated tree.now locations.now file.now codings.now made.tree made.locations.items made.file.items) }
    ensures possible { OnOk result (AllCanMove tree.now locations.now file.now codings.now) }
    ensures refused { IfErr result (MigrateRefusedBy tree.now locations.now file.now codings.now) }
{
    let mut written = Written::new(alloc);
    for number in 0..tree.len() {
        if let Err(error) = written.push(alloc, tree, number, locations, file, codings) {
            return Err(error);
        }
    }
    match closed(alloc, written) {
        Ok(made) => Ok(made),
        Err(error) => Err(error),
    }
}
