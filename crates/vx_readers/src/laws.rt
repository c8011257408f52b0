//! The law of what pruning evaluations ask for, as the contract of a function that does nothing.

ghost use Rattle.vx_readers.specs.ZonesNeeded.{ZonesAreReached};

/// Each segment that a pruning evaluation asks for is read by what is told of zones of which one lies over a selected row.
pub fn zones_are_reached()
    ensures { ZonesAreReached }
{}
