//! The laws of lowering and of the row index. Each is the contract of a function that does nothing.

ghost use Rattle.vx_lower.specs.Laws.{LoweredHasType, LoweredHasRows, LoweredHasValues, LoweredReadsSame, KeptFieldsMeanSame, KeptFieldsTypeSame, LoweredIsSmall, GoodTreeHasEachNode, GoodTreeIsSmall, RowIndexHasType, RowIndexHasRows, RowIndexKeepsMeaning, RowIndexReadsChild, GoodTreeCanBePlanned, PlannedHasType, PlannedHasRows, PlannedIsProjected, PlannedReadsSame, NumberedIsAlike, NumberedHasValues, NumberedReadsSame, AlikeLoweredHasValues, AlikeLoweredReadsSame, AlikePlannedIsProjected, AlikePlannedReadsSame, RowIndexIsAlike, TableHoldsPlanned, TableHoldsRoot};

/// The lowered plan has the tree's dtype and values without the fields that aren't kept, its rows, and its reads in
/// their order. An expression that gets only kept fields is worth the same without the others, and has the same dtype.
pub fn lowering_keeps()
    ensures dtype { LoweredHasType }
    ensures rows { LoweredHasRows }
    ensures values { LoweredHasValues }
    ensures reads { LoweredReadsSame }
    ensures fields { KeptFieldsMeanSame }
    ensures types { KeptFieldsTypeSame }
{}

/// A tree is lowered to at most twice as many plans as it has nodes, which are those of a good list.
pub fn lowering_is_small()
    ensures plans { LoweredIsSmall }
    ensures nodes { GoodTreeHasEachNode }
    ensures both { GoodTreeIsSmall }
{}

/// The plan of an expression has the expression's dtype and meaning, the child's rows, and reads what the child reads.
pub fn row_index_keeps()
    ensures dtype { RowIndexHasType }
    ensures rows { RowIndexHasRows }
    ensures meaning { RowIndexKeepsMeaning }
    ensures reads { RowIndexReadsChild }
{}

/// The plan of a projection has at each row what the projection is worth there, and reads what it reads.
pub fn planned_is_projected()
    ensures planned { GoodTreeCanBePlanned }
    ensures dtype { PlannedHasType }
    ensures rows { PlannedHasRows }
    ensures values { PlannedIsProjected }
    ensures reads { PlannedReadsSame }
{}

/// A plan that a table numbers anew has the values that it had and, by the old numbers, the reads.
pub fn numbers_are_told()
    ensures alike { NumberedIsAlike }
    ensures values { NumberedHasValues }
    ensures reads { NumberedReadsSame }
{}

/// A plan that is alike but for numbers to a lowered tree, or to the plan of a projection, is worth the same at each
/// row, and reads the same but for numbers.
pub fn alike_plans_serve()
    ensures lowered { AlikeLoweredHasValues }
    ensures lowered_reads { AlikeLoweredReadsSame }
    ensures projected { AlikePlannedIsProjected }
    ensures projected_reads { AlikePlannedReadsSame }
{}

/// A table that holds a lowered tree, and over it the plan of an expression, holds the plan of the projection, but for
/// numbers.
pub fn tables_hold_plans()
    ensures alike { RowIndexIsAlike }
    ensures planned { TableHoldsPlanned }
    ensures root { TableHoldsRoot }
{}
