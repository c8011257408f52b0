//! Which layouts have readers.

ghost use Rattle.std.specs.Prelude.{IfErr, MatchOption, OnOk};
ghost use Rattle.vx_readers.specs.Opening.{IsReadableAlone, IsRefusedAlone, OpenRefused};
ghost use Rattle.vx_reads.specs.Readable.{AreReadable};

use crate::stray_structs::lowest_stray;
use thiserror::Error;
use vx_layout::{LayoutKind, LayoutTree};

/// Why there is no reader of a layout.
#[derive(Clone, Copy, Debug, PartialEq, Eq, Error)]
pub enum OpenError {
    /// The first node that no reader reads: a list, zones of the older form, or a struct that is not the zones of some data.
    #[error("node {0} is of a kind that is not read")]
    Unsupported(u32),
    /// The first node that no reader reads: data whose zones have no rows.
    #[error("the zones of node {0} have no rows")]
    ZeroZoneLength(u32),
}

/// Why no reader reads a node of the kind, whatever nodes there are beside it.
fn refused_alone(kind: &LayoutKind, node: u32) -> Option<OpenError>
    ensures { MatchOption result (IsReadableAlone kind.now) (IsRefusedAlone kind.now node) }
{
    match kind {
        LayoutKind::Flat { .. } => None,
        LayoutKind::Chunked => None,
        LayoutKind::Struct => None,
        LayoutKind::Dict => None,
        LayoutKind::List => Some(OpenError::Unsupported(node)),
        LayoutKind::Zoned { zone_len, stats: _ } => {
            if *zone_len == 0 {
                Some(OpenError::ZeroZoneLength(node))
            } else {
                None
            }
        }
        LayoutKind::LegacyStats { .. } => Some(OpenError::Unsupported(node)),
    }
}

/// Finds the first node that no reader reads.
pub fn check(tree: &LayoutTree) -> Result<(), OpenError>
    ensures readable { OnOk result (AreReadable tree.now) }
    ensures refused { IfErr result (OpenRefused tree.now) }
{
    let stray = lowest_stray(tree);
    for node in 0..stray {
        match refused_alone(&tree.node(node).kind, node) {
            Some(error) => return Err(error),
            None => {}
        }
    }
    if stray < tree.len() {
        Err(OpenError::Unsupported(stray))
    } else {
        Ok(())
    }
}
