//! The laws of a scan: what it visits is what the plan reads, and what it used serves in place of what was handed in.
//! Each is the contract of a function that does nothing.

ghost use Rattle.vx_steps.specs.CauseLaws.{LeafIsVisitedFree, ListIsVisitedFree, LeafIsSelectedFree, ListIsSelectedFree, CertifiedCauseIsFree, InsideCauseIsFree, FreeCausesAreSame, WholeCauseIsCause, WholeLeafIsVisited};
ghost use Rattle.vx_steps.specs.GivenLaws.{ServedStays, UsedServe, UsedGiveValues, UsedGiveColumns, CertifiedServe, CertifiedGiveColumns};
ghost use Rattle.vx_steps.specs.Laws.{LeafVisitIsRead, LeafVisitIsPlanRead, ReadIsLeafVisit, PlanReadIsLeafVisit, NoColumnsHandNone, SelectedVisitIsRead, SelectedReadIsVisit, ListVisitIsRead, ReadIsListVisit, TypedGivenFits, BadCodeIsRead, ReadIsBadCode, EvalFaultIsWorkedOut, SelectedLeafIsRead, CauseIsRead, OutermostTakeIsAsked, TakesAreThere, NoShareInTable, EvalFaultIsOutside};
ghost use Rattle.vx_steps.specs.PieceLaws.{PiecesJoin};
ghost use Rattle.vx_steps.specs.ScanLaws.{WantedIsRead, SplitCauseIsRead};
ghost use Rattle.vx_steps.specs.TakeLaws.{OutputHasTakes, EvalFaultHasTakes, UnstartedHasTakes, TurnKeepsTakes, SameKeepsTakes, DoneHasTakes, OneSplitHasTakes, ScanHasTakes};

/// The leaves and lists that a row visits are those that it reads. Whatever whole values are handed in, a row visits
/// no segment that the plan doesn't read; where none are, it visits each that the plan reads.
pub fn visits_are_reads()
    ensures leaves { LeafVisitIsRead }
    ensures only { LeafVisitIsPlanRead }
    ensures each { ReadIsLeafVisit }
    ensures all { PlanReadIsLeafVisit }
    ensures none { NoColumnsHandNone }
    ensures lists { ListVisitIsRead }
    ensures list_reads { ReadIsListVisit }
{}

/// The same of selected rows.
pub fn selected_visits_are_reads()
    ensures leaves { SelectedLeafIsRead }
    ensures only { SelectedVisitIsRead }
    ensures each { SelectedReadIsVisit }
{}

/// The bad codes that a row visits are those that it reads, where the values that are handed in for a take are as many
/// as its values have rows; and they are, where the columns have the rows of their plans.
pub fn bad_codes_are_read()
    ensures typed { TypedGivenFits }
    ensures codes { BadCodeIsRead }
    ensures code_reads { ReadIsBadCode }
{}

/// Where selected rows have the cause of a refusal, one of them reads a row of the list or the bad code, or is derived
/// by an expression that is a fault.
pub fn causes_are_read()
    ensures terms { EvalFaultIsWorkedOut }
    ensures causes { CauseIsRead }
{}

/// Where no share stands in a plan, its rows ask for the whole values of each outermost take that they read; so where
/// all that they ask for was made or used, those were. Where besides no expression stands below a take, no fault of an
/// expression is one of whole values.
pub fn outermost_takes_are_asked()
    ensures asked { OutermostTakeIsAsked }
    ensures there { TakesAreThere }
    ensures tables { NoShareInTable }
    ensures faults { EvalFaultIsOutside }
{}

/// Where no share stands in the plan and no expression below a take, a scan of one split that is done without a
/// refusal, or is refused for an expression that is a fault, used or made the whole values of each outermost take that
/// the split's selected rows read. The clauses say it of each split, from step to step, and of a whole scan.
pub fn splits_have_their_takes()
    ensures outputs { OutputHasTakes }
    ensures faults { EvalFaultHasTakes }
    ensures unstarted { UnstartedHasTakes }
    ensures turns { TurnKeepsTakes }
    ensures others { SameKeepsTakes }
    ensures done { DoneHasTakes }
    ensures one { OneSplitHasTakes }
    ensures scan { ScanHasTakes }
{}

/// The pieces in which the rows of a split are given, each from where the one before it ends and the last one followed by
/// no selected row, have, one behind another, the values of all its selected rows in their order.
pub fn pieces_join()
    ensures { PiecesJoin }
{}

/// Each segment that a scan wants is one that a selected row of a split reads; and each refusal has its cause in what
/// such a row reads, or in an expression by which it is derived.
pub fn splits_are_read()
    ensures wanted { WantedIsRead }
    ensures causes { SplitCauseIsRead }
{}

/// The values that were used serve in place of all that were handed in: each selected row is derived with them alike.
/// Where each of them is the whole values of its plan, the row is worth what the plan says.
pub fn used_values_serve()
    ensures stays { ServedStays }
    ensures rows { UsedServe }
    ensures values { UsedGiveValues }
    ensures columns { UsedGiveColumns }
    ensures certified { CertifiedServe }
    ensures certified_columns { CertifiedGiveColumns }
{}

/// Whatever whole values are handed in, a leaf or a list that a row visits with them it visits where nothing is handed
/// in; and so do selected rows.
pub fn visits_are_free()
    ensures leaves { LeafIsVisitedFree }
    ensures lists { ListIsVisitedFree }
    ensures selected_leaves { LeafIsSelectedFree }
    ensures selected_lists { ListIsSelectedFree }
{}

/// The cause of a refusal is one where nothing is handed in: where each column that was handed in is the whole values
/// of its plan; and, whatever was handed in, where it lies inside whole values. In what way nothing is handed in, be it
/// no columns or inside whole values, makes no difference.
pub fn causes_are_free()
    ensures certified { CertifiedCauseIsFree }
    ensures inside { InsideCauseIsFree }
    ensures same { FreeCausesAreSame }
{}

/// Where selected rows ask for whole values, a cause that some rows of these have, the selected rows have; and a leaf
/// that some of them visit, the selected rows visit. Whole values of a take go by the plan of the values, which may be
/// a share; those of a share by the share, and they are those of its child.
pub fn whole_causes_are_causes()
    ensures causes { WholeCauseIsCause }
    ensures leaves { WholeLeafIsVisited }
{}
