//! Why the segments of a tree are not written anew.

ghost use Rattle.std.specs.Prelude.{◌≡◌};
ghost use Rattle.vx_layout.specs.declared.migrate_errors.MigrateError.TheVariants.{Memory};

use std::alloc::{AllocError, AllocFailed};
use thiserror::Error;

/// Why the segments of a tree are not written anew: the lowest flat node that hinders it, and the first of these causes
/// there.
#[derive(Clone, Copy, Debug, PartialEq, Eq, Error)]
pub enum MigrateError {
    /// The node's segment has no location, or doesn't lie inside the file.
    #[error("the segment of node {0} does not lie in the file")]
    NoBytes(u32),
    /// The bytes of the node's segment don't spell its rows.
    #[error("the segment of node {0} does not hold its rows")]
    BadSegment(u32),
    /// The node has too many rows for its new coding.
    #[error("node {0} has too many rows for this coding")]
    TooManyRows(u32),
    /// The node is to be constant, and this is the first row that differs from the first one.
    #[error("row {row} of node {node} differs from the first one")]
    NotConstant { node: u32, row: u64 },
    /// The node's rows take more bytes than a segment has.
    #[error("the rows of node {0} take too many bytes")]
    TooLong(u32),
    #[error("out of memory")]
    Memory,
}

impl From<AllocError> for MigrateError {
    ghost from_gives = { λ _ e. e ≡ Memory };

    fn from(_e: AllocError) -> MigrateError {
        MigrateError::Memory
    }
}

impl<T: Drop> From<AllocFailed<T>> for MigrateError {
    ghost from_gives = { λ _ e. e ≡ Memory };

    fn from(_e: AllocFailed<T>) -> MigrateError {
        MigrateError::Memory
    }
}
