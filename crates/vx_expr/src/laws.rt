//! The laws of expressions.

ghost use Rattle.vx_expr.specs.Laws.{MeaningFits, StrictIsNull, ConjunctsTell, AsRootKeeps, OverRowKeeps};

/// The law of dtypes: what an expression is worth fits its dtype.
pub fn meaning_fits()
    ensures { MeaningFits }
{}

/// The law of strict expressions: on a null root they are null or a fault.
pub fn strict_is_null()
    ensures { StrictIsNull }
{}

/// The law of conjuncts: an expression is true at a row exactly where each of them is.
pub fn conjuncts_tell()
    ensures { ConjunctsTell }
{}

/// The law of both rewritings: an expression is worth what it was.
pub fn rewriting_keeps()
    ensures as_root { AsRootKeeps }
    ensures over_row { OverRowKeeps }
{}
