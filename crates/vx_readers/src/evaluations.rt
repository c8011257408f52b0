//! Evaluations over the selected rows of a node: which rows and which expression, and how far the reads that these need
//! have come.

ghost use Rattle.std.specs.Prelude.{◌≡◌, ◌-◌, ◌<◌, ◌≤◌, length, IfErr, IfOk};
ghost use Rattle.vx_base.specs.ColumnCalls.{IsBool};
ghost use Rattle.vx_base.specs.Masks.{true_count};
ghost use Rattle.vx_expr.specs.Bound.{IsBoundTo};
ghost use Rattle.vx_layout.specs.Trees.{subtree};
ghost use Rattle.vx_reads.specs.Came.{Begin};
ghost use Rattle.vx_reads.specs.Errors.{IsOfBytes};
ghost use Rattle.vx_reads.specs.MaskRows.{AreKeptBy, FilterFails};
ghost use Rattle.vx_reads.specs.Projected.{AreProjectedBy, ProjectionFails};
ghost use Rattle.vx_reads.specs.Readable.{tree_head, AreReadable};
ghost use Rattle.vx_reads.specs.Reads.{AreInFlight};
ghost use Rattle.vx_readers.specs.Evaluations.{needed_by, rows_by, Begins};

use std::alloc::{AllocError, Global};
use std::marker::Model;
use std::ops::Range;
use vx_base::{Mask, SegmentLocation, SegmentSource};
use vx_expr::BoundExpression;
use vx_layout::LayoutTree;
use vx_reads::{
    ColumnPieces, ReaderError, SegmentRead, add_needs, fresh_reads, kept_rows, poll_reads,
    projected,
};

/// An expression over selected rows of a node.
#[derive(Drop)]
pub struct Evaluating<'a> {
    alloc: Global,
    tree: &'a LayoutTree,
    locations: &'a [SegmentLocation],
    node: u32,
    start: u64,
    mask: Mask,
    expression: &'a BoundExpression,
    reads: Vec<SegmentRead>,
}

impl<'a> Model for Evaluating<'a> {
    ghost use Rattle.std.specs.Coded.{codes};
    ghost use Rattle.vx_expr.specs.Bound.{coded_bound};
    ghost use Rattle.vx_layout.specs.NodeCodes.{coded_nodes};
    ghost use Rattle.vx_readers.specs.Evaluations.{needed_by, Evaluation, IsSound};

    ghost Value = { Evaluation };

    ghost coded = { Prim.hlevel (codes, coded_nodes, coded_bound) };

    ghost view = { λ a. record { nodes = a.tree.now; node = a.node; start = a.start; mask = a.mask; expression = a.expression.now; locations = a.locations.now; reads = a.reads.items } };

    ghost invariant = { λ a. IsSound needed_by (record { nodes = a.tree.now; node = a.node; start = a.start; mask = a.mask; expression = a.expression.now; locations = a.locations.now; reads = a.reads.items }) };
}

/// An evaluation after a turn of its reads.
#[derive(Drop)]
pub enum Turn<E> {
    /// The bytes of all of them have come.
    Came(E),
    /// Some read goes on.
    Waits(E),
}

impl<'a> Evaluating<'a> {
    /// The evaluation over the rows of a range, as it begins: nothing was asked for.
    pub fn begin(
        alloc: Global,
        tree: &'a LayoutTree,
        locations: &'a [SegmentLocation],
        node: u32,
        rows: Range<u64>,
        expression: &'a BoundExpression,
        mask: Mask,
    ) -> Result<Evaluating<'a>, AllocError>
        requires known { node < length tree.now }
        requires readable { AreReadable tree.now }
        requires forwards { rows.start ≤ rows.end }
        requires inside { rows.end ≤ (tree_head tree.now node).rows }
        requires masked { length mask ≡ rows.end - rows.start }
        requires bound { IsBoundTo expression.now (tree_head tree.now node).dtype }
        ensures is { IfOk result (λ e. e ≡ record { nodes = tree.now; node = node; start = rows.start; mask = mask; expression = expression.now; locations = locations.now; reads = e.reads }) }
        ensures begins { IfOk result (Begins needed_by) }
    {
        let start = rows.start;
        let mut needs = Vec::new(alloc);
        add_needs(alloc, tree, node, start, &mask, &mut needs)?;
        let reads = fresh_reads(alloc, needs.as_slice())?;
        Ok(Evaluating {
            alloc,
            tree,
            locations,
            node,
            start,
            mask,
            expression,
            reads,
        })
    }
}

impl<'a> Evaluating<'a> {
    ghost use Rattle.vx_readers.specs.Turns.{TurnGives};

    /// Asks for the reads that were not asked for yet, and polls those in flight once each. After an error the other reads
    /// stay in flight.
    pub fn turn<S: SegmentSource>(self, source: &mut S) -> Result<Turn<Evaluating<'a>>, ReaderError>
        requires { AreInFlight self.locations self.reads (S.state source.old).in_flight }
        ensures { TurnGives needed_by result self.entry (S.state source.old) (S.state source.new) }
    {
        let Evaluating {
            alloc,
            tree,
            locations,
            node,
            start,
            mask,
            expression,
            reads,
        } = self;
        let mut reads = reads;
        let waiting = match poll_reads(locations, &mut reads, source) {
            Ok(waiting) => waiting,
            Err(error) => return Err(error),
        };
        let evaluation = Evaluating {
            alloc,
            tree,
            locations,
            node,
            start,
            mask,
            expression,
            reads,
        };
        if waiting == 0 {
            Ok(Turn::Came(evaluation))
        } else {
            Ok(Turn::Waits(evaluation))
        }
    }
}

impl<'a> Evaluating<'a> {
    /// What it takes memory by.
    pub(crate) fn alloc(&self) -> Global {
        self.alloc
    }

    /// The expression's column over the selected rows, whose reads came, in pieces.
    pub fn pieces(&self) -> Result<ColumnPieces, ReaderError>
        requires { Begin (needed_by self.now) self.now.reads }
        ensures dtype { IfOk result (λ column. column.dtype ≡ self.now.expression.dtype) }
        ensures rows { IfOk result (λ column. length column.values ≡ true_count self.now.mask) }
        ensures values { IfOk result (λ column. AreProjectedBy self.now.reads (rows_by self.now) (tree_head self.now.nodes self.now.node).dtype self.now.expression.term self.now.start self.now.mask column.values) }
        ensures cause { IfErr result (ProjectionFails self.now.reads (rows_by self.now) (tree_head self.now.nodes self.now.node).dtype self.now.expression.term self.now.start self.now.mask) }
        ensures own { IfErr result IsOfBytes }
    {
        projected(
            self.alloc,
            self.tree,
            self.node,
            self.start,
            &self.mask,
            self.expression,
            self.reads.as_slice(),
        )
    }

    /// The mask's rows at which the expression is true, whose reads came.
    pub fn mask(&self) -> Result<Mask, ReaderError>
        requires came { Begin (needed_by self.now) self.now.reads }
        requires bool { IsBool self.now.expression.dtype }
        ensures rows { IfOk result (λ kept. length kept ≡ length self.now.mask) }
        ensures kept { IfOk result (AreKeptBy self.now.reads (rows_by self.now) (tree_head self.now.nodes self.now.node).dtype self.now.expression.term self.now.start self.now.mask) }
        ensures cause { IfErr result (FilterFails self.now.reads (subtree self.now.nodes self.now.node) (tree_head self.now.nodes self.now.node).dtype self.now.expression.term self.now.start self.now.start self.now.mask) }
        ensures own { IfErr result IsOfBytes }
    {
        kept_rows(
            self.alloc,
            self.tree,
            self.node,
            self.start,
            &self.mask,
            self.expression,
            self.reads.as_slice(),
        )
    }
}
