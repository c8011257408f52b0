//! Where a segment lies in its file, and which range of it was asked for.

/// Where a segment lies: `length` bytes of the file from byte `offset` on. The alignment is a number
/// that is handed on and never used.
#[derive(Clone, Copy, Debug, PartialEq, Eq, Hash)]
pub struct SegmentLocation {
    pub offset: u64,
    pub length: u32,
    pub alignment: u32,
}

/// A range of the file that a source was asked for: `length` bytes from byte `offset` on.
#[derive(Clone, Copy, Debug, PartialEq, Eq, PartialOrd, Ord, Hash)]
pub struct AskedRange {
    pub offset: u64,
    pub length: u32,
}
