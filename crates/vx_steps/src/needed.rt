//! What rows that are left need of leaves and segments, and what is held for them.

ghost use Rattle.std.specs.Prelude.{◌≡◌, ◌+◌, ◌<◌, ◌^◌, ℕ, ◌⊎◌, [], List, length, true, false, Some, OnOk};
ghost use Rattle.std.specs.Bool.{MatchBool};
ghost use Rattle.vx_steps.specs.declared.leaf_reads.LeafRead.{LeafRead};
ghost use Rattle.vx_steps.specs.declared.placed_reads.PlacedRead.{PlacedRead};
ghost use Rattle.vx_steps.specs.HeldData.{HasRoom, KeepsRoom};
ghost use Rattle.vx_steps.specs.LaterReads.{IsNotedOf, SplitRead};
ghost use Rattle.vx_steps.specs.Needed.{IsNeededBy, LeafIsAhead, SegmentIsAhead};
ghost use Rattle.vx_steps.specs.Needs.{Among};
ghost use Rattle.vx_steps.specs.Places.{place_in};
ghost use Rattle.vx_steps.specs.StillRead.{IsTallyOf};

use crate::held_segments::HeldSegments;
use crate::later_reads::LaterReads;
use crate::leavings::Sieve;
use crate::placed_reads::PlacedRead;
use crate::segment_runs::names_at;
use crate::still_read::StillRead;
use std::alloc::{AllocError, Global};

/// What rows that are left need: the reads of started splits of which rows are left; up to which split each leaf and each
/// segment is read; leaves that the row behind the splits doesn't read, that row, and whether these were found; and the
/// segments that are held.
#[derive(Drop)]
pub(crate) struct Needed {
    pub(crate) still: StillRead,
    pub(crate) later: LaterReads,
    pub(crate) apart: Sieve,
    pub(crate) row: u64,
    pub(crate) noted: bool,
    pub(crate) held: HeldSegments,
}

impl Needed {
    /// Nothing is needed, and nothing held. It takes no memory.
    pub(crate) fn new(alloc: Global) -> Needed
        ensures held { result.held.held ≡ [] }
        ensures found { result.apart.found ≡ true }
        ensures apart { (n : ℕ) (place : ℕ) → place_in result.apart.places n ≡ Some place → ⊥ }
        ensures tallies { IsTallyOf result.still [] }
        ensures later { IsNotedOf result.later [] }
        ensures noted { result.noted ≡ false }
    {
        Needed {
            still: StillRead::new(alloc),
            later: LaterReads::new(alloc),
            apart: Sieve::none(alloc),
            row: 0,
            noted: false,
            held: HeldSegments::new(alloc),
        }
    }

    /// Whether an open need is of the leaf, or a split reads it that was not started: the next one is given, and how many
    /// there are.
    pub(crate) fn is_leaf_ahead(&self, leaf: u32, next: usize, splits: usize) -> bool
        ensures { (still : List LeafRead) (later : List SplitRead) → IsNeededBy self.now still later next splits → MatchBool result (LeafIsAhead still later next splits leaf) (LeafIsAhead still later next splits leaf → ⊥) }
    {
        if self.still.reads_leaf(leaf) {
            return true;
        }
        next < splits && self.later.leaf_read_from(leaf, next)
    }

    /// The same of a segment.
    pub(crate) fn is_segment_ahead(&self, segment: u32, next: usize, splits: usize) -> bool
        ensures { (still : List LeafRead) (later : List SplitRead) → IsNeededBy self.now still later next splits → MatchBool result (SegmentIsAhead still later next splits segment) (SegmentIsAhead still later next splits segment → ⊥) }
    {
        if self.still.reads_segment(segment) {
            return true;
        }
        next < splits && self.later.segment_read_from(segment, next)
    }
}

/// Makes room for the segments of the needs, so that they can be held.
pub(crate) fn make_room(needs: &[PlacedRead], held: &mut HeldSegments) -> Result<(), AllocError>
    ensures room { OnOk result ((need : PlacedRead) → Among need needs.now → HasRoom held.new need.segment) }
    ensures kept { KeepsRoom held.old held.new }
    ensures held { held.new.held ≡ held.old.held }
{
    for place in 0..needs.len() {
        let segment = needs[place].segment;
        if !names_at(needs, place + 1, segment) {
            held.make_room(segment)?;
        }
    }
    Ok(())
}
