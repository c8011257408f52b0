//! The parts of a line: locations and tables of ranges.

use std::alloc::{AllocError, Global};
use vx_base::SegmentLocation;
use vx_io::{SegmentRanges, segment_ranges};

/// The location of a range, as `4+2` for two bytes from the fourth on, or `4+2/8` for that with alignment 8. What is
/// no number is 0.
pub(crate) fn place_of(word: &str) -> SegmentLocation {
    let (range, alignment) = word.split_once('/').unwrap_or((word, "1"));
    let (offset, length) = range.split_once('+').unwrap_or((range, ""));
    SegmentLocation {
        offset: offset.parse::<u64>().unwrap_or(0),
        length: length.parse::<u32>().unwrap_or(0),
        alignment: alignment.parse::<u32>().unwrap_or(0),
    }
}

/// The table of these ranges, of a thousand at most.
pub(crate) fn ranges_of(alloc: Global, words: &str) -> Result<SegmentRanges, AllocError> {
    let mut places = Vec::new(alloc);
    for word in words.split_whitespace() {
        places.push(place_of(word))?;
    }
    if places.len() > 1000 {
        places.clear();
    }
    segment_ranges(alloc, places.as_slice())
}
