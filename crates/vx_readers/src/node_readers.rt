//! What all readers have in common: a node of a tree that is readable, and where segments lie.

ghost use Rattle.std.specs.Prelude.{◌≡◌, ◌↔◌, ℕ, [], ◌++◌, ◌-◌, ◌<◌, ◌≤◌, length, IfOk, IsFalse, IsTrue, OnErr, OnOk};
ghost use Rattle.vx_base.specs.ColumnCalls.{IsBool};
ghost use Rattle.vx_base.specs.Views.{data_type};
ghost use Rattle.vx_expr.specs.Bound.{IsBoundTo};
ghost use Rattle.vx_reads.specs.Readable.{AreReadable};
ghost use Rattle.vx_readers.specs.Begun.{BeginsOver, FiltersOver, MayHaveZones, PrunesOver};
ghost use Rattle.vx_readers.specs.ChunkEnds.{reader_ends, StandFirst};
ghost use Rattle.vx_readers.specs.Evaluations.{needed_by};
ghost use Rattle.vx_readers.specs.ReaderData.{reader_head};
ghost use Rattle.vx_readers.specs.ZonesOver.{zones_over};
ghost use Rattle.vx_layout.specs.Trees.{subtree};
ghost use Rattle.vx_split_rules.specs.Splits.{registered};

use crate::ends::add_ends;
use crate::evaluations::Evaluating;
use crate::filterings::Filtering;
use crate::prunings::Pruning;
use crate::states::{ColumnState, MaskState, Masking};
use std::alloc::{AllocError, Global};
use std::marker::Model;
use std::ops::Range;
use vx_base::{DType, Mask, SegmentLocation};
use vx_expr::BoundExpression;
use vx_layout::LayoutTree;
use vx_reads::parts::NodeParts;
use vx_reads::{dtype_at, rows_at};
use vx_split_rules::{RowSplits, SplitRange};
use vx_zones::falsify;

/// A node of a readable tree.
#[derive(Drop)]
pub struct NodeReader<'a> {
    tree: &'a LayoutTree,
    locations: &'a [SegmentLocation],
    node: u32,
}

impl<'a> Model for NodeReader<'a> {
    ghost use Rattle.std.specs.Coded.{codes};
    ghost use Rattle.vx_layout.specs.NodeCodes.{coded_nodes};
    ghost use Rattle.vx_readers.specs.ReaderData.{ReaderData, IsReader};

    ghost Value = { ReaderData };

    ghost coded = { Prim.hlevel (codes, coded_nodes) };

    ghost view = { λ a. record { nodes = a.tree.now; node = a.node; locations = a.locations.now } };

    ghost invariant = { λ a. IsReader (record { nodes = a.tree.now; node = a.node; locations = a.locations.now }) };
}

/// Whether zones may lie over rows of a node: a segment and a dictionary have none.
fn may_have_zones(tree: &LayoutTree, node: u32) -> bool
    requires known { node < length tree.now }
    requires readable { AreReadable tree.now }
    ensures none { IsFalse result → (row : ℕ) → zones_over (subtree tree.now node) row ≡ [] }
    ensures some { IsTrue result → MayHaveZones (subtree tree.now node) }
{
    match NodeParts::of(tree, node) {
        NodeParts::Leaf { .. } => false,
        NodeParts::Dict { .. } => false,
        NodeParts::Struct { .. } => false,
        NodeParts::Chunks { .. } => true,
        NodeParts::Zoned { .. } => true,
    }
}

impl<'a> NodeReader<'a> {
    /// The reader of a node.
    pub fn new(tree: &'a LayoutTree, locations: &'a [SegmentLocation], node: u32) -> NodeReader<'a>
        requires known { node < length tree.now }
        requires readable { AreReadable tree.now }
        ensures { result ≡ record { nodes = tree.now; node = node; locations = locations.now } }
    {
        tree.keeps_rules();
        NodeReader {
            tree,
            locations,
            node,
        }
    }

    /// The dtype of the node.
    pub fn dtype(&self) -> &DType
        ensures { data_type result.now ≡ (reader_head self.now).dtype }
    {
        dtype_at(self.tree, self.node)
    }

    /// The rows of the node.
    pub fn row_count(&self) -> u64
        ensures { result ≡ (reader_head self.now).rows }
    {
        rows_at(self.tree, self.node)
    }

    /// The expression's column over the selected rows of a range: the state in which nothing was asked for.
    pub fn projection(
        &self,
        alloc: Global,
        rows: Range<u64>,
        expression: &'a BoundExpression,
        mask: Mask,
    ) -> Result<ColumnState<'a>, AllocError>
        requires forwards { rows.start ≤ rows.end }
        requires inside { rows.end ≤ (reader_head self.now).rows }
        requires masked { length mask ≡ rows.end - rows.start }
        requires bound { IsBoundTo expression.now (reader_head self.now).dtype }
        ensures { IfOk result (λ state. BeginsOver needed_by self.now rows.start mask expression.now state.evaluation) }
    {
        match Evaluating::begin(
            alloc,
            self.tree,
            self.locations,
            self.node,
            rows,
            expression,
            mask,
        ) {
            Ok(evaluation) => Ok(ColumnState { evaluation }),
            Err(error) => Err(error),
        }
    }
    /// The mask's rows of a range at which the expression is true: the state in which nothing was asked for.
    pub fn filter(
        &self,
        alloc: Global,
        rows: Range<u64>,
        expression: &'a BoundExpression,
        mask: Mask,
    ) -> Result<MaskState<'a>, AllocError>
        requires forwards { rows.start ≤ rows.end }
        requires inside { rows.end ≤ (reader_head self.now).rows }
        requires masked { length mask ≡ rows.end - rows.start }
        requires bound { IsBoundTo expression.now (reader_head self.now).dtype }
        requires bool { IsBool expression.now.dtype }
        ensures { IfOk result (λ state. FiltersOver self.now rows.start mask expression.now state.masking) }
    {
        match Filtering::begin(
            alloc,
            self.tree,
            self.locations,
            self.node,
            rows,
            expression,
            mask,
        ) {
            Ok(filtering) => Ok(MaskState {
                masking: Masking::Filters(filtering),
            }),
            Err(error) => Err(error),
        }
    }

    /// The mask's rows of a range that lie in no zone that the expression prunes: the state in which nothing was asked for,
    /// or the mask itself where zones tell nothing.
    pub fn prune(
        &self,
        alloc: Global,
        rows: Range<u64>,
        expression: &BoundExpression,
        mask: Mask,
    ) -> Result<MaskState<'a>, AllocError>
        requires forwards { rows.start ≤ rows.end }
        requires inside { rows.end ≤ (reader_head self.now).rows }
        requires masked { length mask ≡ rows.end - rows.start }
        requires bound { IsBoundTo expression.now (reader_head self.now).dtype }
        requires bool { IsBool expression.now.dtype }
        ensures { IfOk result (λ state. PrunesOver self.now rows.start mask expression.now state.masking) }
    {
        if !may_have_zones(self.tree, self.node) {
            return Ok(MaskState::known(mask));
        }
        match falsify(alloc, expression) {
            Ok(None) => Ok(MaskState::known(mask)),
            Ok(Some(proof)) => match Pruning::begin(
                alloc,
                self.tree,
                self.locations,
                self.node,
                rows,
                proof,
                mask,
            ) {
                Ok(pruning) => Ok(MaskState {
                    masking: Masking::Prunes(pruning),
                }),
                Err(error) => Err(error),
            },
            Err(error) => Err(error),
        }
    }

    /// Pushes where chunks of the node end inside a range of its rows, and where the range ends; of an empty range
    /// nothing, unless it is told to. Where memory is short nothing is pushed.
    pub fn register(
        &self,
        range: &SplitRange,
        ends_empty: bool,
        splits: &mut RowSplits,
    ) -> Result<(), AllocError>
        ensures pushed { OnOk result (splits.new ≡ splits.old ++ registered (reader_ends self.now range.now.offset) ends_empty range.now) }
        ensures same { OnErr result (splits.new ≡ splits.old) }
    {
        let before = splits.len();
        match self.push_ends(range, ends_empty, splits) {
            Ok(()) => Ok(()),
            Err(error) => {
                splits.truncate(before);
                Err(error)
            }
        }
    }

    /// Pushes the same, or a part of it where memory is short.
    fn push_ends(
        &self,
        range: &SplitRange,
        ends_empty: bool,
        splits: &mut RowSplits,
    ) -> Result<(), AllocError>
        ensures pushed { OnOk result (splits.new ≡ splits.old ++ registered (reader_ends self.now range.now.offset) ends_empty range.now) }
        ensures behind { StandFirst splits.old splits.new }
    {
        let rows = range.root_row_range();
        if rows.start < rows.end || ends_empty {
            add_ends(
                self.tree,
                self.node,
                range.row_offset(),
                rows.start,
                rows.end,
                splits,
            )?;
            splits.push(rows.end)?;
        }
        Ok(())
    }
}
