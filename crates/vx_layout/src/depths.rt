//! How deep each node lies.

ghost use Rattle.std.specs.Prelude.{◌≡◌, ℕ, ◌+◌, ◌<◌, ◌==◌, ◌&&◌, if◌then◌else◌, length, map, IfOk, slice_index};
ghost use Rattle.std.specs.List.{list_any};
ghost use Rattle.vx_layout.specs.Nodes.{node_data};
ghost use Rattle.vx_layout.specs.Depths.{depth_of};
ghost use Rattle.vx_layout.specs.Shape.{node_limit};

use crate::nodes::LayoutNode;
use std::alloc::{AllocError, Global};

/// Gives each child behind the node that has no parent yet, which its depth of 1 says, this depth.
fn deepen(depths: &mut [u32], children: &[u32], number: usize, depth: u32)
    requires { 1 < depth }
    ensures behind { (k : ℕ) → number < k → k < length depths.old → slice_index depths.new k
        ≡ (if (slice_index depths.old k == 1) && list_any (λ child. child == k) children.now
        then depth else slice_index depths.old k) }
    ensures before { (k : ℕ) → k < number + 1 → k < length depths.old → slice_index depths.new k ≡ slice_index depths.old k }
{
    for child in children {
        let place = *child as usize;
        if number < place && place < depths.len() && depths[place] == 1 {
            depths[place] = depth;
        }
    }
}

/// The depth of each node. It takes four bytes for each node.
pub fn depths_of(alloc: Global, nodes: &[LayoutNode]) -> Result<Vec<u32>, AllocError>
    requires { length nodes.now < node_limit }
    ensures size { IfOk result (λ depths. length depths.items ≡ length nodes.now) }
    ensures depths { IfOk result (λ depths. (n : ℕ) → n < length nodes.now → slice_index depths.items n
        ≡ depth_of (map node_data nodes.now) n) }
{
    let mut depths = vec![in alloc; 1; nodes.len()]?;
    for (number, node) in nodes.iter().enumerate() {
        let depth = depths[number] + 1;
        deepen(&mut depths, &node.children, number, depth);
    }
    Ok(depths)
}
