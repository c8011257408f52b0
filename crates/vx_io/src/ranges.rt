//! Which segment has a range of the file.

ghost use Rattle.std.specs.Prelude.{◌≡◌, ◌≤◌, length, IfOk};
ghost use Rattle.vx_base.specs.Limits.{most_segments};
ghost use Rattle.vx_io.specs.Ranges.{IsTableOf};

use std::alloc::{AllocError, Global};
use std::collections::BTreeMap;
use std::marker::Model;
use vx_base::{AskedRange, SegmentLocation};

/// The segments of a file by their ranges: each range has at most one segment, and each segment one range.
#[derive(Drop)]
pub struct SegmentRanges {
    segments: BTreeMap<AskedRange, u32>,
}

impl Model for SegmentRanges {
    ghost use Rattle.vx_io.specs.Ranges.{RangeTable, HaveOwnSegments};

    ghost Value = { RangeTable };

    ghost view = { λ ranges. ranges.segments.entries };

    ghost invariant = { λ ranges. HaveOwnSegments ranges.segments.entries };
}

/// The table of the locations: a segment's number is the place of its location. Of equal ranges the last
/// number stays. It takes about n log n steps for n locations.
pub fn segment_ranges(
    alloc: Global,
    locations: &[SegmentLocation],
) -> Result<SegmentRanges, AllocError>
    requires { length locations.now ≤ most_segments }
    ensures { IfOk result (λ ranges. IsTableOf ranges locations.now) }
{
    let mut segments = BTreeMap::new(alloc);
    for (number, at) in locations.iter().enumerate() {
        let range = AskedRange {
            offset: at.offset,
            length: at.length,
        };
        segments.insert(range, number as u32)?;
    }
    Ok(SegmentRanges { segments })
}

impl SegmentRanges {
    ghost use Rattle.vx_io.specs.Ranges.{range_at, segment_of, HaveOwnSegments};

    /// The segment that has exactly this range. None where none has it.
    pub fn find(&self, offset: u64, len: u32) -> Option<u32>
        ensures { result ≡ segment_of self.now (range_at offset len) }
    {
        let range = AskedRange {
            offset,
            length: len,
        };
        self.segments.get(&range).copied()
    }

    /// No two ranges have one segment.
    pub(crate) fn are_apart(&self)
        ensures { HaveOwnSegments self.now }
    {
        let _ = &self.segments;
    }
}
