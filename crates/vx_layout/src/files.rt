//! A file that can be scanned.

use crate::trees::LayoutTree;
use vx_base::SegmentLocation;

/// The layout of a file's rows, and where each of its segments lies, by the segment's number.
#[derive(Drop)]
pub struct ScanFile {
    pub layout: LayoutTree,
    pub locations: Vec<SegmentLocation>,
}
