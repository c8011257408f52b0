//! A checked layout tree.

ghost use Rattle.std.specs.Prelude.{◌≡◌, ◌<◌, length, map, All, IfOk, OnOk, IfErr, IfSome, IsSomeAnd, Some, option_and_then, slice_get};
ghost use Rattle.vx_base.specs.Views.{data_type};
ghost use Rattle.vx_layout.specs.Kept.{kept_data, kept_fields};
ghost use Rattle.vx_layout.specs.Nodes.{node_data};
ghost use Rattle.vx_layout.specs.Faults.{RefusedBy};
ghost use Rattle.vx_layout.specs.Shape.{node_limit, IsGoodTree, IsLater};

use crate::children::{child_number, node_at};
use crate::errors::LayoutError;
use crate::kept_fields::{Kept, fields_kept};
use crate::nodes::LayoutNode;
use crate::shape;
use std::alloc::{AllocError, Global};
use std::marker::Model;
use vx_base::DType;
use vx_expr::BoundExpression;

/// A layout tree: nodes that keep the rules of the shape (docs/FORMATS.md). Node 0 is the root.
#[derive(Debug)]
pub struct LayoutTree {
    nodes: Vec<LayoutNode>,
}

impl Drop for LayoutTree {
    fn drop(self) {
        let LayoutTree { nodes: _ } = self;
    }
}

impl Model for LayoutTree {
    ghost use Rattle.std.specs.Prelude.{List, map};
    ghost use Rattle.vx_layout.specs.Nodes.{Node};
    ghost use Rattle.vx_layout.specs.NodeCodes.{coded_nodes};

    ghost Value = { List Node };

    ghost coded = { coded_nodes };

    ghost use Rattle.std.specs.Prelude.{◌<◌, length};
    ghost use Rattle.vx_layout.specs.Nodes.{node_data};
    ghost use Rattle.vx_layout.specs.Shape.{node_limit, IsGoodTree};

    ghost view = { λ a. map node_data a.nodes.items };

    ghost invariant = { λ a. IsGoodTree (map node_data a.nodes.items) × (length a.nodes.items < node_limit) };
}

impl LayoutTree {
    /// The tree of these nodes, where they keep every rule of the shape. Rules are tried in their order,
    /// each over the nodes in ascending number; the first fault is the answer.
    pub fn try_new(alloc: Global, nodes: Vec<LayoutNode>) -> Result<LayoutTree, LayoutError>
        requires { length nodes.items < node_limit }
        ensures made { IfOk result (λ tree. tree ≡ map node_data nodes.items) }
        ensures good { OnOk result (IsGoodTree (map node_data nodes.items)) }
        ensures refused { IfErr result (RefusedBy (map node_data nodes.items)) }
    {
        shape::check(alloc, &nodes)?;
        Ok(LayoutTree { nodes })
    }

    /// The number of the root, which is 0; it is a node of the tree.
    pub fn root(&self) -> u32
        ensures zero { result ≡ 0 }
        ensures node { result < length self.now }
    {
        let _nodes = &self.nodes;
        0
    }

    /// How many nodes there are, at least one.
    pub fn len(&self) -> u32
        ensures count { result ≡ length self.now }
        ensures few { length self.now < node_limit }
        ensures good { IsGoodTree self.now }
    {
        self.nodes.len() as u32
    }

    /// The tree keeps its rules, and the number of its nodes its limit: a call that is made for this alone.
    pub fn keeps_rules(&self)
        ensures few { length self.now < node_limit }
        ensures good { IsGoodTree self.now }
    {
        let _count = self.nodes.len();
    }

    /// The dtype of the root.
    pub fn dtype(&self) -> &DType
        ensures { IsSomeAnd (slice_get self.now 0) (λ root. data_type result.now ≡ root.dtype) }
    {
        &self.nodes[0].dtype
    }

    /// The rows of the root.
    pub fn row_count(&self) -> u64
        ensures rows { IsSomeAnd (slice_get self.now 0) (λ root. result ≡ root.rows) }
        ensures good { IsGoodTree self.now }
    {
        self.nodes[0].row_count
    }

    /// A node of the tree. Its children are later nodes of the tree.
    pub fn node(&self, node: u32) -> &LayoutNode
        requires { node < length self.now }
        ensures at { slice_get self.now node ≡ Some (node_data result.now) }
        ensures later { All (IsLater self.now node) result.now.children.items }
        ensures good { IsGoodTree self.now }
    {
        node_at(&self.nodes, node)
    }

    /// The number of the child at a place, and `None` exactly where the node has no such place. A child is a
    /// later node of the tree.
    pub fn child(&self, node: u32, place: usize) -> Option<u32>
        requires { node < length self.now }
        ensures at { result ≡ option_and_then (λ node. slice_get node.children place) (slice_get self.now node) }
        ensures later { IfSome result (IsLater self.now node) }
    {
        child_number(&self.nodes, node, place)
    }

    /// The fields of the root that the expression gets: all, unless the root is a struct that takes no nulls
    /// and occurs in the expression, but never bare. Nothing is asked of the expression's root: one that is bound to
    /// another dtype is answered by the names that it gets.
    pub fn kept(&self, alloc: Global, expression: &BoundExpression) -> Result<Kept, AllocError>
        ensures { IfOk result (λ kept. IsSomeAnd (slice_get self.now 0) (λ root. kept_data kept
            ≡ kept_fields root.dtype expression.now.term)) }
    {
        fields_kept(alloc, &self.nodes[0].dtype, expression)
    }
}
