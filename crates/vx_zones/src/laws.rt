//! The laws of pruned zones. Each is the contract of a function that does nothing.

ghost use Rattle.vx_zones.specs.Covers.{PrunedIsNotTrue};
ghost use Rattle.vx_zones.specs.Prunes.{ProofsAlonePrune};

/// Where the table covers the values, no row of a pruned zone makes the predicate true at the bound or at any lesser
/// one.
pub fn pruned_rows_are_not_true()
    ensures { PrunedIsNotTrue }
{}

/// A predicate without a proof prunes no zone.
pub fn proofs_alone_prune()
    ensures { ProofsAlonePrune }
{}
