//! The laws of the plans of a table. Each is the contract of a function that does nothing.

ghost use Rattle.vx_plan.specs.Alike.{ConcatsAreAlike, PacksAreAlike, TakesAreAlike, EvalsAreAlike, ScansAreAlike, ZonedPlansAreAlike, PruningPlansAreAlike, ListPacksAreAlike, AlikeHaveValues, AlikeRead};
ghost use Rattle.vx_plan.specs.Laws.{PlanUnfolds, PlanStays, PlanHasHead, PlanRowsFit, ReachedIsRead, ReadIsReached};

/// The plan of a number is its node over the plans of the node's children; it stays when others are appended, and
/// has the dtype and the rows of the node.
pub fn plans_unfold()
    ensures unfolds { PlanUnfolds }
    ensures stays { PlanStays }
    ensures head { PlanHasHead }
    ensures rows { PlanRowsFit }
{}

/// The segments that are given for selected rows are exactly those that the rows read.
pub fn reached_is_read()
    ensures only { ReachedIsRead }
    ensures each { ReadIsReached }
{}

/// Plans whose children are alike but for the numbers of their dictionaries and lists are alike.
pub fn plans_are_alike()
    ensures concats { ConcatsAreAlike }
    ensures packs { PacksAreAlike }
    ensures takes { TakesAreAlike }
    ensures evals { EvalsAreAlike }
    ensures scans { ScansAreAlike }
    ensures zoned { ZonedPlansAreAlike }
    ensures pruning { PruningPlansAreAlike }
    ensures lists { ListPacksAreAlike }
{}

/// Alike plans have one value at each row, and the same reads but for numbers.
pub fn alike_plans_are_worth_the_same()
    ensures values { AlikeHaveValues }
    ensures reads { AlikeRead }
{}
