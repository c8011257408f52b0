//! Why a scan has no rows.

ghost use Rattle.std.specs.Prelude.{◌≡◌};
ghost use Rattle.vx_drive.specs.declared.errors.ScanError.TheVariants as errors;

use std::alloc::{AllocError, AllocFailed};
use std::error::Error;
use std::fmt;
use std::fmt::{Display, Formatter, Write};
use vx_plan::PlanRef;

/// Why a scan has no rows. A plan is named by its number in the table of the scan, a row of a plan or of the file by
/// its number from 0, a segment by its number.
#[derive(Clone, Copy, Debug)]
pub enum ScanError {
    /// The projection isn't bound to the layout's dtype.
    BadProjection,
    /// The number of a row, with the row offset, could pass the greatest `u64`.
    OffsetOverflow,
    /// A selected row of the given range isn't one of the file's.
    OutOfRange,
    /// A selected row reads a row of the list.
    Unsupported(PlanRef),
    /// A selected row reaches the segment, and it has no location.
    NoLocation(u32),
    /// A source failed, and its count of faults rose.
    ReadFault,
    /// A source answered as often as the idle limit that a read goes on.
    Stalled,
    /// The bytes of the segment spell no rows of a leaf that a selected row reads.
    BadSegment(u32),
    /// The code of the row of the dictionary is neither null nor the place of a value.
    BadCode { node: PlanRef, row: u64 },
    /// The projection is a fault at that selected row.
    EvalFault(u64),
    /// There is no memory left.
    Memory,
}

impl ScanError {
    /// The message of an error that names no segment and no row.
    fn plain_message(&self) -> &'static str {
        match self {
            ScanError::BadProjection => "the projection is not bound to the dtype of the file",
            ScanError::OffsetOverflow => "the row offset is too great for the rows of the file",
            ScanError::OutOfRange => "a selected row is out of range",
            ScanError::Unsupported(_) => "the rows of a list are not supported",
            ScanError::ReadFault => "a read failed",
            ScanError::Stalled => "a read made no progress",
            _ => "out of memory",
        }
    }
}

impl Display for ScanError {
    fn fmt<W: Write>(&self, f: &mut Formatter<W>) -> fmt::Result {
        match self {
            ScanError::NoLocation(segment) => write!(f, "segment {segment} has no location"),
            ScanError::BadSegment(segment) => {
                write!(f, "segment {segment} does not hold the rows that it should")
            }
            ScanError::BadCode { row, .. } => {
                write!(f, "the code at row {row} is none of the values")
            }
            ScanError::EvalFault(row) => write!(f, "the expression is a fault at row {row}"),
            plain => f.write_str(plain.plain_message()),
        }
    }
}

impl Error for ScanError {}

impl From<AllocError> for ScanError {
    ghost from_gives = { λ _ e. e ≡ errors.Memory };

    fn from(_error: AllocError) -> ScanError {
        ScanError::Memory
    }
}

impl<T: Drop> From<AllocFailed<T>> for ScanError {
    ghost from_gives = { λ _ e. e ≡ errors.Memory };

    fn from(_error: AllocFailed<T>) -> ScanError {
        ScanError::Memory
    }
}
