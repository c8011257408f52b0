//! What the rules ask of all nodes together, found once.

ghost use Rattle.std.specs.Prelude.{◌<◌, length, map, IfOk};
ghost use Rattle.vx_layout.specs.Facts.{AreFacts};
ghost use Rattle.vx_layout.specs.Nodes.{node_data};
ghost use Rattle.vx_layout.specs.Shape.{node_limit};

use crate::counts::count_parents;
use crate::depths::depths_of;
use crate::nodes::LayoutNode;
use std::alloc::{AllocError, Global};

/// How often each node is a child, up to 2, and how deep it lies.
#[derive(Drop)]
pub struct Facts {
    pub counts: Vec<u8>,
    pub depths: Vec<u32>,
}

/// The facts of these nodes, whatever their children are. Time is linear in nodes and children.
pub fn facts_of(alloc: Global, nodes: &[LayoutNode]) -> Result<Facts, AllocError>
    requires { length nodes.now < node_limit }
    ensures { IfOk result (AreFacts (map node_data nodes.now)) }
{
    let counts = count_parents(alloc, nodes)?;
    let depths = depths_of(alloc, nodes)?;
    Ok(Facts { counts, depths })
}
