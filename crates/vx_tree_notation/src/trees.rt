//! Trees of nodes as words, and the plans that they are lowered to.

ghost use Rattle.std.specs.Prelude.{◌<◌, length, slice_get, IfOk, IsSomeAnd};
ghost use Rattle.vx_layout.specs.Kept.{kept_data};
ghost use Rattle.vx_lower.specs.KeptRows.{MayKeep};
ghost use Rattle.vx_plan.specs.Refs.{number_of};

use crate::nodes::nodes_of;
use std::alloc::{AllocError, Global};
use vx_expr::{Expr, bind};
use vx_expr_notation::spelled;
use vx_layout::{Kept, LayoutTree};
use vx_lower::{Lowered, lower};

/// The tree of the nodes that are written so, of which there are five hundred thousand at most; none where they are no
/// tree.
pub fn tree_of(alloc: Global, text: &str) -> Option<LayoutTree> {
    let nodes = nodes_of(alloc, text)?;
    if nodes.len() > 500_000 {
        return None;
    }
    LayoutTree::try_new(alloc, nodes).ok()
}

/// The fields that an expression over the tree's rows keeps; all where it isn't one.
#[tactic(auto, using(crate::proofs::Keeping::kept_may, crate::proofs::Keeping::all_may))]
fn kept_of(alloc: Global, tree: &LayoutTree, expr: &Expr) -> Result<Kept, AllocError>
    ensures { IfOk result (λ kept. IsSomeAnd (slice_get tree.now 0) (λ root. MayKeep (kept_data kept) root.dtype)) }
{
    let dtype = tree.dtype();
    match bind(alloc, expr, dtype) {
        Ok(bound) => tree.kept(alloc, &bound),
        Err(_) => Ok(Kept::All),
    }
}

/// The plans that the tree is lowered to, with the fields that the expression keeps which the words spell; no words
/// keep all.
pub fn lowered(alloc: Global, tree: &LayoutTree, words: &str) -> Result<Lowered, AllocError>
    ensures { IfOk result (λ plans. number_of plans.root < length plans.table) }
{
    let expr = spelled(alloc, words)?;
    let kept = kept_of(alloc, tree, &expr)?;
    lower(alloc, tree, &kept)
}
