//! The structs of a layout that are not the zones of some data: no reader reads them.

ghost use Rattle.std.specs.Prelude.{◌≡◌, ◌<◌, ◌≤◌, ℕ, length};
ghost use Rattle.std.specs.Bool.{MatchBool};
ghost use Rattle.vx_reads.specs.Readable.{IsZones};
ghost use Rattle.vx_readers.specs.StrayStructs.{AreZonesAt, AreZonesIn, IsChildAt, IsStray, IsStructAt, IsStructKind};

use vx_layout::{LayoutKind, LayoutTree};

/// Whether the kind is that of structs.
fn is_struct(kind: &LayoutKind) -> bool
    ensures { MatchBool result (IsStructKind kind.now) (IsStructKind kind.now → ⊥) }
{
    matches!(kind, LayoutKind::Struct)
}

/// Whether the child at the place of a node of the kind is its zones.
fn are_zones(kind: &LayoutKind, place: usize) -> bool
    ensures { MatchBool result (AreZonesIn kind.now place) (AreZonesIn kind.now place → ⊥) }
{
    place == 1 && matches!(kind, LayoutKind::Zoned { .. })
}

/// The child, where it is a struct that isn't the node's zones, and lower than the number that is told; else that number.
fn lesser_stray(tree: &LayoutTree, node: u32, place: usize, child: u32, least: u32) -> u32
    requires known { node < length tree.now }
    requires later { child < length tree.now }
    requires child { IsChildAt tree.now node place child }
    ensures most { result ≤ least }
    ensures none { child < result → IsStructAt tree.now child → AreZonesAt tree.now node place }
    ensures stray { result < least → IsStray tree.now result }
{
    if least <= child {
        return least;
    }
    if !is_struct(&tree.node(child).kind) {
        return least;
    }
    if are_zones(&tree.node(node).kind, place) {
        return least;
    }
    child
}

/// The lowest struct among the children of a node that isn't its zones, or the number that is told where there is none lower.
fn lower_stray(tree: &LayoutTree, node: u32, lowest: u32) -> u32
    requires { node < length tree.now }
    ensures most { result ≤ lowest }
    ensures none { (place child : ℕ) → IsChildAt tree.now node place child → child < result → IsStructAt tree.now child → AreZonesAt tree.now node place }
    ensures stray { result < lowest → IsStray tree.now result }
{
    let children = tree.node(node).children.as_slice();
    let mut least = lowest;
    for place in 0..children.len() {
        least = lesser_stray(tree, node, place, children[place], least);
    }
    least
}

/// The lowest struct that is not the zones of some data, or the number of nodes where there is none.
pub(crate) fn lowest_stray(tree: &LayoutTree) -> u32
    ensures inside { result ≤ length tree.now }
    ensures none { (n : ℕ) → n < result → IsStructAt tree.now n → IsZones tree.now n }
    ensures stray { result < length tree.now → IsStructAt tree.now result × (IsZones tree.now result → ⊥) }
{
    if is_struct(&tree.node(tree.root()).kind) {
        return 0;
    }
    let mut lowest = tree.len();
    for node in 0..tree.len() {
        lowest = lower_stray(tree, node, lowest);
    }
    lowest
}
