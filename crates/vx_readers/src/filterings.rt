//! Evaluations of an expression that is true or not, at whose rows a mask is kept.

ghost use Rattle.std.specs.Prelude.{◌≡◌, ◌-◌, ◌<◌, ◌≤◌, length, IfOk};
ghost use Rattle.vx_base.specs.ColumnCalls.{IsBool};
ghost use Rattle.vx_expr.specs.Bound.{IsBoundTo};
ghost use Rattle.vx_reads.specs.Readable.{tree_head, AreReadable};
ghost use Rattle.vx_reads.specs.Reads.{AreInFlight};
ghost use Rattle.vx_readers.specs.Evaluations.{needed_by, Begins};

use crate::evaluations::{Evaluating, Turn};
use crate::progress::Progress;
use std::alloc::{AllocError, Global};
use std::marker::Model;
use std::ops::Range;
use vx_base::{Mask, SegmentLocation, SegmentSource};
use vx_expr::BoundExpression;
use vx_layout::LayoutTree;
use vx_reads::ReaderError;

/// An expression that is true or not over selected rows of a node.
#[derive(Drop)]
pub struct Filtering<'a> {
    evaluation: Evaluating<'a>,
}

impl<'a> Model for Filtering<'a> {
    ghost use Rattle.std.specs.Coded.{codes};
    ghost use Rattle.vx_base.specs.ColumnCalls.{IsBool};
    ghost use Rattle.vx_expr.specs.Bound.{coded_bound};
    ghost use Rattle.vx_layout.specs.NodeCodes.{coded_nodes};
    ghost use Rattle.vx_readers.specs.Evaluations.{Evaluation};

    ghost Value = { Evaluation };

    ghost coded = { Prim.hlevel (codes, coded_nodes, coded_bound) };

    ghost view = { λ a. a.evaluation };

    ghost invariant = { λ a. IsBool a.evaluation.expression.dtype };
}

impl<'a> Filtering<'a> {
    /// The evaluation over the rows of a range, as it begins: nothing was asked for.
    pub fn begin(
        alloc: Global,
        tree: &'a LayoutTree,
        locations: &'a [SegmentLocation],
        node: u32,
        rows: Range<u64>,
        expression: &'a BoundExpression,
        mask: Mask,
    ) -> Result<Filtering<'a>, AllocError>
        requires known { node < length tree.now }
        requires readable { AreReadable tree.now }
        requires forwards { rows.start ≤ rows.end }
        requires inside { rows.end ≤ (tree_head tree.now node).rows }
        requires masked { length mask ≡ rows.end - rows.start }
        requires bound { IsBoundTo expression.now (tree_head tree.now node).dtype }
        requires bool { IsBool expression.now.dtype }
        ensures is { IfOk result (λ e. e ≡ record { nodes = tree.now; node = node; start = rows.start; mask = mask; expression = expression.now; locations = locations.now; reads = e.reads }) }
        ensures begins { IfOk result (Begins needed_by) }
    {
        match Evaluating::begin(alloc, tree, locations, node, rows, expression, mask) {
            Ok(evaluation) => Ok(Filtering { evaluation }),
            Err(error) => Err(error),
        }
    }
}

impl<'a> Filtering<'a> {
    ghost use Rattle.vx_readers.specs.States.{FilterPollGives};

    /// One turn of its reads, and the mask's rows at which the expression is true once all of them came.
    pub fn poll<S: SegmentSource>(
        self,
        source: &mut S,
    ) -> Result<Progress<Mask, Filtering<'a>>, ReaderError>
        requires { AreInFlight self.locations self.reads (S.state source.old).in_flight }
        ensures { FilterPollGives result self.entry (S.state source.old) (S.state source.new) }
    {
        let evaluation = self.evaluation;
        match evaluation.turn(source) {
            Ok(Turn::Waits(evaluation)) => Ok(Progress::Pending(Filtering { evaluation })),
            Ok(Turn::Came(evaluation)) => match evaluation.mask() {
                Ok(kept) => Ok(Progress::Ready(kept)),
                Err(error) => Err(error),
            },
            Err(error) => Err(error),
        }
    }
}
