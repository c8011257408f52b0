//! The laws of readers. Each is the contract of a function that does nothing.

ghost use Rattle.vx_reads.specs.Laws.{FiltersAgree, NeededIsReached};

/// Each segment that an evaluation asks for is reached by a row of its range.
pub fn needs_are_reached()
    ensures { NeededIsReached }
{}

/// The dense and the sparse filter keep the same rows where the expression is a fault at none.
pub fn filters_agree()
    ensures { FiltersAgree }
{}
