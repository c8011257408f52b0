//! Needs beside each other that name one segment: most name that of the need before them.

ghost use Rattle.std.specs.Bool.{MatchBool};
ghost use Rattle.vx_steps.specs.SegmentRuns.{NamesAt};

use crate::placed_reads::PlacedRead;

/// Whether a need stands at the place, and names the segment.
pub(crate) fn names_at(needs: &[PlacedRead], place: usize, segment: u32) -> bool
    ensures { MatchBool result (NamesAt needs.now place segment) (NamesAt needs.now place segment → ⊥) }
{
    place < needs.len() && needs[place].segment == segment
}
