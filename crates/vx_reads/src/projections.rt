//! What an expression is worth over the selected rows of a node.

ghost use Rattle.std.specs.Prelude.{◌≡◌, ◌+◌, ◌<◌, ◌≤◌, length, drop, IfErr, IfOk};
ghost use Rattle.vx_base.specs.Masks.{true_count};
ghost use Rattle.vx_expr.specs.Bound.{IsBoundTo};
ghost use Rattle.vx_layout.specs.Kept.{all};
ghost use Rattle.vx_layout.specs.Rows.{derivation};
ghost use Rattle.vx_layout.specs.Trees.{subtree};
ghost use Rattle.vx_reads.specs.Came.{Begin};
ghost use Rattle.vx_reads.specs.Computed.{AreRowsBy, Fails};
ghost use Rattle.vx_reads.specs.Needed.{needed};
ghost use Rattle.vx_reads.specs.Projected.{AreProjectedBy, ProjectionFails};
ghost use Rattle.vx_reads.specs.Readable.{tree_head, AreReadable};
ghost use Rattle.vx_reads.specs.Errors.{IsOfBytes};

use crate::columns::{add_parts, column_of};
use crate::errors::ReaderError;
use crate::faults::apply_fault;
use crate::parts::{dtype_at, rows_at};
use crate::pieces::ColumnPieces;
use crate::reads::SegmentRead;
use std::alloc::Global;
use vx_base::Mask;
use vx_expr::BoundExpression;
use vx_layout::LayoutTree;
use vx_picking::worked_out;

/// The selected rows of a node, in the columns that they come from. `next` is the place of the first read that is theirs.
fn pieces_of(
    alloc: Global,
    tree: &LayoutTree,
    node: u32,
    start: u64,
    mask: &Mask,
    reads: &[SegmentRead],
    next: &mut usize,
) -> Result<ColumnPieces, ReaderError>
    requires known { node < length tree.now }
    requires readable { AreReadable tree.now }
    requires inside { start + length mask.now ≤ (tree_head tree.now node).rows }
    requires ready { Begin (needed (subtree tree.now node) start mask.now) (drop next.old reads.now) }
    ensures dtype { IfOk result (λ column. column.dtype ≡ (tree_head tree.now node).dtype) }
    ensures rows { IfOk result (λ column. length column.values ≡ true_count mask.now) }
    ensures values { IfOk result (λ column. AreRowsBy reads.now (derivation (subtree tree.now node) all) start mask.now column.values) }
    ensures cause { IfErr result (Fails reads.now (derivation (subtree tree.now node) all) start (length mask.now)) }
    ensures own { IfErr result IsOfBytes }
{
    let mut parts = Vec::new(alloc);
    match add_parts(alloc, tree, node, start, mask, reads, next, &mut parts) {
        Ok(()) => {}
        Err(error) => return Err(error),
    }
    let dtype = dtype_at(tree, node).copy(alloc)?;
    Ok(ColumnPieces::of(dtype, parts))
}

/// The expression's column over the selected rows of a node, whose reads came. That of the root itself is not worked out:
/// it lies in the columns that its rows come from.
pub fn projected(
    alloc: Global,
    tree: &LayoutTree,
    node: u32,
    start: u64,
    mask: &Mask,
    expression: &BoundExpression,
    reads: &[SegmentRead],
) -> Result<ColumnPieces, ReaderError>
    requires known { node < length tree.now }
    requires readable { AreReadable tree.now }
    requires inside { start + length mask.now ≤ (tree_head tree.now node).rows }
    requires bound { IsBoundTo expression.now (tree_head tree.now node).dtype }
    requires ready { Begin (needed (subtree tree.now node) start mask.now) reads.now }
    ensures dtype { IfOk result (λ column. column.dtype ≡ expression.now.dtype) }
    ensures rows { IfOk result (λ column. length column.values ≡ true_count mask.now) }
    ensures values { IfOk result (λ column. AreProjectedBy reads.now (derivation (subtree tree.now node) all) (tree_head tree.now node).dtype expression.now.term start mask.now column.values) }
    ensures cause { IfErr result (ProjectionFails reads.now (derivation (subtree tree.now node) all) (tree_head tree.now node).dtype expression.now.term start mask.now) }
    ensures own { IfErr result IsOfBytes }
{
    // The contract of `rows_at` says that the rows are so few that their numbers fit.
    let _rows = rows_at(tree, node);
    // The contract of `dtype` says that the root itself has the dtype that it is bound to.
    let _dtype = expression.dtype();
    let mut next = 0;
    if expression.is_root() {
        return match pieces_of(alloc, tree, node, start, mask, reads, &mut next) {
            Ok(root) => Ok(root),
            Err(error) => Err(error),
        };
    }
    match column_of(alloc, tree, node, start, mask, reads, &mut next) {
        Ok(root) => {
            let made = worked_out(alloc, expression, &root, start, mask);
            drop(root);
            match made {
                Ok(column) => Ok(ColumnPieces::whole(alloc, column)?),
                Err(error) => Err(apply_fault(error)),
            }
        }
        Err(error) => Err(error),
    }
}
