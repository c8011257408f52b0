//! Evaluations that take the rows of pruned zones out of a mask: they read zones alone.

ghost use Rattle.std.specs.Prelude.{◌≡◌, ◌-◌, ◌<◌, ◌≤◌, length, IfErr, IfOk};
ghost use Rattle.vx_expr.specs.Bound.{IsBoundTo};
ghost use Rattle.vx_reads.specs.Came.{Begin};
ghost use Rattle.vx_reads.specs.Errors.{IsNotOfExpression, IsOfBytes};
ghost use Rattle.vx_reads.specs.Readable.{tree_head, AreReadable};
ghost use Rattle.vx_reads.specs.Reads.{AreInFlight};
ghost use Rattle.vx_readers.specs.Evaluations.{zones_by, zones_needed_by, Begins};
ghost use Rattle.vx_readers.specs.Unpruned.{AreUnprunedBy, PruningFails};

use crate::evaluations::Turn;
use crate::progress::Progress;
use crate::zone_masks::unpruned_rows;
use crate::zone_needs::add_zone_needs;
use std::alloc::{AllocError, Global};
use std::marker::Model;
use std::ops::Range;
use vx_base::{Mask, SegmentLocation, SegmentSource};
use vx_layout::LayoutTree;
use vx_reads::{ReaderError, SegmentRead, fresh_reads, poll_reads};
use vx_zones::ZoneProof;

/// A predicate that has a proof, over selected rows of a node.
#[derive(Drop)]
pub struct Pruning<'a> {
    alloc: Global,
    tree: &'a LayoutTree,
    locations: &'a [SegmentLocation],
    node: u32,
    start: u64,
    mask: Mask,
    proof: ZoneProof,
    reads: Vec<SegmentRead>,
}

impl<'a> Model for Pruning<'a> {
    ghost use Rattle.std.specs.Coded.{codes};
    ghost use Rattle.vx_expr.specs.Bound.{coded_bound};
    ghost use Rattle.vx_layout.specs.NodeCodes.{coded_nodes};
    ghost use Rattle.vx_readers.specs.Evaluations.{zones_needed_by, Evaluation, IsSound};

    ghost Value = { Evaluation };

    ghost coded = { Prim.hlevel (codes, coded_nodes, coded_bound) };

    ghost view = { λ a. record { nodes = a.tree.now; node = a.node; start = a.start; mask = a.mask; expression = a.proof; locations = a.locations.now; reads = a.reads.items } };

    ghost invariant = { λ a. IsSound zones_needed_by (record { nodes = a.tree.now; node = a.node; start = a.start; mask = a.mask; expression = a.proof; locations = a.locations.now; reads = a.reads.items }) };
}

impl<'a> Pruning<'a> {
    /// The evaluation over the rows of a range, as it begins: nothing was asked for.
    pub fn begin(
        alloc: Global,
        tree: &'a LayoutTree,
        locations: &'a [SegmentLocation],
        node: u32,
        rows: Range<u64>,
        proof: ZoneProof,
        mask: Mask,
    ) -> Result<Pruning<'a>, AllocError>
        requires known { node < length tree.now }
        requires readable { AreReadable tree.now }
        requires forwards { rows.start ≤ rows.end }
        requires inside { rows.end ≤ (tree_head tree.now node).rows }
        requires masked { length mask ≡ rows.end - rows.start }
        requires bound { IsBoundTo proof (tree_head tree.now node).dtype }
        ensures is { IfOk result (λ e. e ≡ record { nodes = tree.now; node = node; start = rows.start; mask = mask; expression = proof; locations = locations.now; reads = e.reads }) }
        ensures begins { IfOk result (Begins zones_needed_by) }
    {
        let start = rows.start;
        let mut needs = Vec::new(alloc);
        match add_zone_needs(alloc, tree, node, start, &mask, &mut needs) {
            Ok(()) => match fresh_reads(alloc, needs.as_slice()) {
                Ok(reads) => Ok(Pruning {
                    alloc,
                    tree,
                    locations,
                    node,
                    start,
                    mask,
                    proof,
                    reads,
                }),
                Err(error) => {
                    drop(proof);
                    Err(error)
                }
            },
            Err(error) => {
                drop(proof);
                Err(error)
            }
        }
    }
}

impl<'a> Pruning<'a> {
    ghost use Rattle.vx_readers.specs.Turns.{TurnGives};

    /// Asks for the reads that were not asked for yet, and polls those in flight once each. After an error the other reads
    /// stay in flight.
    fn turn<S: SegmentSource>(self, source: &mut S) -> Result<Turn<Pruning<'a>>, ReaderError>
        requires { AreInFlight self.locations self.reads (S.state source.old).in_flight }
        ensures { TurnGives zones_needed_by result self.entry (S.state source.old) (S.state source.new) }
    {
        let Pruning {
            alloc,
            tree,
            locations,
            node,
            start,
            mask,
            proof,
            reads,
        } = self;
        let mut reads = reads;
        let waiting = match poll_reads(locations, &mut reads, source) {
            Ok(waiting) => waiting,
            Err(error) => {
                drop(proof);
                return Err(error);
            }
        };
        let pruning = Pruning {
            alloc,
            tree,
            locations,
            node,
            start,
            mask,
            proof,
            reads,
        };
        if waiting == 0 {
            Ok(Turn::Came(pruning))
        } else {
            Ok(Turn::Waits(pruning))
        }
    }
}

impl<'a> Pruning<'a> {
    /// The mask's rows that lie in no pruned zone, once all reads came.
    fn mask(&self) -> Result<Mask, ReaderError>
        requires { Begin (zones_needed_by self.now) self.now.reads }
        ensures rows { IfOk result (λ kept. length kept ≡ length self.now.mask) }
        ensures kept { IfOk result (AreUnprunedBy self.now.reads (zones_by self.now) self.now.expression.term self.now.start self.now.mask) }
        ensures cause { IfErr result (PruningFails self.now.reads (zones_by self.now) self.now.start self.now.mask) }
        ensures own { IfErr result IsOfBytes }
        ensures no_expression { IfErr result IsNotOfExpression }
    {
        unpruned_rows(
            self.alloc,
            self.tree,
            self.node,
            self.start,
            &self.mask,
            &self.proof,
            self.reads.as_slice(),
        )
    }
}

impl<'a> Pruning<'a> {
    ghost use Rattle.vx_readers.specs.States.{PruningPollGives};

    /// One turn of its reads, and the mask's rows that lie in no pruned zone once all of them came.
    pub fn poll<S: SegmentSource>(
        self,
        source: &mut S,
    ) -> Result<Progress<Mask, Pruning<'a>>, ReaderError>
        requires { AreInFlight self.locations self.reads (S.state source.old).in_flight }
        ensures { PruningPollGives result self.entry (S.state source.old) (S.state source.new) }
    {
        match self.turn(source) {
            Ok(Turn::Waits(pruning)) => Ok(Progress::Pending(pruning)),
            Ok(Turn::Came(pruning)) => match pruning.mask() {
                Ok(kept) => Ok(Progress::Ready(kept)),
                Err(error) => Err(error),
            },
            Err(error) => Err(error),
        }
    }
}
