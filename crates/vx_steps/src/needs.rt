//! The segments of what a split needs are wanted.

ghost use Rattle.std.specs.Prelude.{◌≡◌, ℕ, ◌⊎◌, map, None, OnOk};
ghost use Rattle.vx_steps.specs.declared.placed_reads.PlacedRead.{PlacedRead};
ghost use Rattle.vx_steps.specs.Agreement.{KeepsAgreeing};
ghost use Rattle.vx_steps.specs.Kept.{kept_at};
ghost use Rattle.vx_steps.specs.Needs.{Among};
ghost use Rattle.vx_steps.specs.Pieces.{read_of};
ghost use Rattle.vx_steps.specs.ReadTable.{IsNamed, KeepsStored, NoneCame};
ghost use Rattle.vx_steps.specs.Releasing.{AreNamed};
ghost use Rattle.vx_steps.specs.Wants.{Grows, IsAsked, IsNeeded};

use crate::leaf_columns::LeafColumns;
use crate::placed_reads::PlacedRead;
use crate::reads::ReadTable;
use std::alloc::AllocError;

/// Wants the segment of a needed leaf, which stands at the place among the needs, unless a column was handed in for it.
fn want_need(
    need: PlacedRead,
    place: usize,
    handed: &LeafColumns,
    reads: &mut ReadTable,
) -> Result<(), AllocError>
    ensures all { OnOk result (kept_at handed.now.all need.leaf ≡ None → IsAsked reads.new.wanted need.segment) }
    ensures only { (segment : ℕ) → IsAsked reads.new.wanted segment → IsAsked reads.old.wanted segment ⊎ ((kept_at handed.now.all need.leaf ≡ None) × (need.segment ≡ segment)) }
    ensures grows { Grows reads.old.wanted reads.new.wanted }
    ensures agrees { KeepsAgreeing reads.old.wanted reads.new.wanted }
    ensures came { NoneCame reads.old.wanted reads.new.wanted }
    ensures handed { reads.new.handed ≡ reads.old.handed }
    ensures named { OnOk result (kept_at handed.now.all need.leaf ≡ None → IsNamed reads.new.stored need.segment place) }
    ensures stored { KeepsStored reads.old reads.new }
{
    if handed.is_kept(need.leaf) {
        return Ok(());
    }
    reads.want(need.segment, place)
}

/// Wants the segments of the needed leaves, those that were handed in left aside.
pub(crate) fn want_needs(
    needs: &[PlacedRead],
    handed: &LeafColumns,
    reads: &mut ReadTable,
) -> Result<(), AllocError>
    ensures all { OnOk result ((need : PlacedRead) → Among need needs.now → kept_at handed.now.all need.leaf ≡ None → IsAsked reads.new.wanted need.segment) }
    ensures only { (segment : ℕ) → IsAsked reads.new.wanted segment → IsAsked reads.old.wanted segment ⊎ IsNeeded (map read_of needs.now) handed.now.all segment }
    ensures grows { Grows reads.old.wanted reads.new.wanted }
    ensures agrees { KeepsAgreeing reads.old.wanted reads.new.wanted }
    ensures came { NoneCame reads.old.wanted reads.new.wanted }
    ensures handed { reads.new.handed ≡ reads.old.handed }
    ensures named { OnOk result (AreNamed handed.now.all (map read_of needs.now) reads.new.stored) }
    ensures stored { KeepsStored reads.old reads.new }
{
    for place in 0..needs.len() {
        want_need(needs[place], place, handed, reads)?;
    }
    Ok(())
}
