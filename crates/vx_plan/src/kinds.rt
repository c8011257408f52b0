//! Which kind a plan is of, and plans seen as those of their kind.

ghost use Rattle.std.specs.Prelude.{◌≡◌, ◌<◌, ◌↔◌, length, IfSome, IsSome};
ghost use Rattle.vx_plan.specs.Kinds.{id_of, id_text, HasKind, IsConcat, IsEval, IsFilter, IsLegacyStats, IsListPack, IsPack, IsRowIdx, IsSegmentScan, IsShare, IsTake, IsZoned};
ghost use Rattle.vx_plan.specs.Refs.{number_of};

use crate::children::PlanRef;
use crate::nodes::PlanKind;
use crate::plan_types::{
    ConcatPlan, EvalPlan, FilterPlan, LegacyStatsPlan, ListPackPlan, PackPlan, RowIdxPlan,
    SegmentScanPlan, SharePlan, TakePlan, ZonedPlan,
};
use crate::tables::PlanTable;

/// A kind of plan.
#[derive(Clone, Copy, Debug, PartialEq, Eq)]
pub enum PlanId {
    Concat,
    Eval,
    Filter,
    Pack,
    Take,
    Share,
    ListPack,
    RowIdx,
    SegmentScan,
    Zoned,
    LegacyStats,
}

impl PlanId {
    /// The kind of a node.
    pub(crate) fn of(kind: &PlanKind) -> PlanId
        ensures { result ≡ id_of kind.now }
    {
        match kind {
            PlanKind::Concat => PlanId::Concat,
            PlanKind::Eval(_) => PlanId::Eval,
            PlanKind::Filter => PlanId::Filter,
            PlanKind::Pack { .. } => PlanId::Pack,
            PlanKind::Take => PlanId::Take,
            PlanKind::Share => PlanId::Share,
            PlanKind::ListPack { .. } => PlanId::ListPack,
            PlanKind::RowIdx => PlanId::RowIdx,
            PlanKind::SegmentScan { .. } => PlanId::SegmentScan,
            PlanKind::Zoned { .. } => PlanId::Zoned,
            PlanKind::LegacyStats { .. } => PlanId::LegacyStats,
            PlanKind::Pruning { .. } => PlanId::Zoned,
        }
    }

    /// The name of the kind.
    pub fn text(&self) -> &str
        ensures { result.now ≡ id_text self.now }
    {
        match self {
            PlanId::Concat => "vortex.plan.concat",
            PlanId::Eval => "vortex.plan.eval",
            PlanId::Filter => "vortex.plan.filter",
            PlanId::Pack => "vortex.plan.pack",
            PlanId::Take => "vortex.plan.take",
            PlanId::Share => "vortex.plan.share",
            PlanId::ListPack => "vortex.plan.list_pack",
            PlanId::RowIdx => "vortex.plan.row_idx",
            PlanId::SegmentScan => "vortex.plan.segment_scan",
            PlanId::Zoned => "vortex.plan.zoned",
            PlanId::LegacyStats => "vortex.plan.legacy_stats",
        }
    }
}

impl PlanTable {
    /// The plan as a `ConcatPlan`, and `None` exactly where it is of another kind.
    pub fn as_concat(&self, plan: PlanRef) -> Option<ConcatPlan>
        requires { number_of plan < length self.now }
        ensures same { IfSome result (λ found. found.plan ≡ plan) }
        ensures exactly { IsSome result ↔ HasKind IsConcat self.now (number_of plan) }
    {
        match self.node(plan.0).kind {
            PlanKind::Concat => Some(ConcatPlan { plan }),
            _ => None,
        }
    }

    /// The plan as an `EvalPlan`, and `None` exactly where it is of another kind.
    pub fn as_eval(&self, plan: PlanRef) -> Option<EvalPlan>
        requires { number_of plan < length self.now }
        ensures same { IfSome result (λ found. found.plan ≡ plan) }
        ensures exactly { IsSome result ↔ HasKind IsEval self.now (number_of plan) }
    {
        match self.node(plan.0).kind {
            PlanKind::Eval(_) => Some(EvalPlan { plan }),
            _ => None,
        }
    }

    /// The plan as a `FilterPlan`, and `None` exactly where it is of another kind.
    pub fn as_filter(&self, plan: PlanRef) -> Option<FilterPlan>
        requires { number_of plan < length self.now }
        ensures same { IfSome result (λ found. found.plan ≡ plan) }
        ensures exactly { IsSome result ↔ HasKind IsFilter self.now (number_of plan) }
    {
        match self.node(plan.0).kind {
            PlanKind::Filter => Some(FilterPlan { plan }),
            _ => None,
        }
    }

    /// The plan as a `PackPlan`, and `None` exactly where it is of another kind.
    pub fn as_pack(&self, plan: PlanRef) -> Option<PackPlan>
        requires { number_of plan < length self.now }
        ensures same { IfSome result (λ found. found.plan ≡ plan) }
        ensures exactly { IsSome result ↔ HasKind IsPack self.now (number_of plan) }
    {
        match self.node(plan.0).kind {
            PlanKind::Pack { .. } => Some(PackPlan { plan }),
            _ => None,
        }
    }

    /// The plan as a `TakePlan`, and `None` exactly where it is of another kind.
    pub fn as_take(&self, plan: PlanRef) -> Option<TakePlan>
        requires { number_of plan < length self.now }
        ensures same { IfSome result (λ found. found.plan ≡ plan) }
        ensures exactly { IsSome result ↔ HasKind IsTake self.now (number_of plan) }
    {
        match self.node(plan.0).kind {
            PlanKind::Take => Some(TakePlan { plan }),
            _ => None,
        }
    }

    /// The plan as a `SharePlan`, and `None` exactly where it is of another kind.
    pub fn as_share(&self, plan: PlanRef) -> Option<SharePlan>
        requires { number_of plan < length self.now }
        ensures same { IfSome result (λ found. found.plan ≡ plan) }
        ensures exactly { IsSome result ↔ HasKind IsShare self.now (number_of plan) }
    {
        match self.node(plan.0).kind {
            PlanKind::Share => Some(SharePlan { plan }),
            _ => None,
        }
    }

    /// The plan as a `ListPackPlan`, and `None` exactly where it is of another kind.
    pub fn as_list_pack(&self, plan: PlanRef) -> Option<ListPackPlan>
        requires { number_of plan < length self.now }
        ensures same { IfSome result (λ found. found.plan ≡ plan) }
        ensures exactly { IsSome result ↔ HasKind IsListPack self.now (number_of plan) }
    {
        match self.node(plan.0).kind {
            PlanKind::ListPack { .. } => Some(ListPackPlan { plan }),
            _ => None,
        }
    }

    /// The plan as a `RowIdxPlan`, and `None` exactly where it is of another kind.
    pub fn as_row_idx(&self, plan: PlanRef) -> Option<RowIdxPlan>
        requires { number_of plan < length self.now }
        ensures same { IfSome result (λ found. found.plan ≡ plan) }
        ensures exactly { IsSome result ↔ HasKind IsRowIdx self.now (number_of plan) }
    {
        match self.node(plan.0).kind {
            PlanKind::RowIdx => Some(RowIdxPlan { plan }),
            _ => None,
        }
    }

    /// The plan as a `SegmentScanPlan`, and `None` exactly where it is of another kind.
    pub fn as_segment_scan(&self, plan: PlanRef) -> Option<SegmentScanPlan>
        requires { number_of plan < length self.now }
        ensures same { IfSome result (λ found. found.plan ≡ plan) }
        ensures exactly { IsSome result ↔ HasKind IsSegmentScan self.now (number_of plan) }
    {
        match self.node(plan.0).kind {
            PlanKind::SegmentScan { .. } => Some(SegmentScanPlan { plan }),
            _ => None,
        }
    }

    /// The plan as a `ZonedPlan`, and `None` exactly where it is of another kind.
    pub fn as_zoned(&self, plan: PlanRef) -> Option<ZonedPlan>
        requires { number_of plan < length self.now }
        ensures same { IfSome result (λ found. found.plan ≡ plan) }
        ensures exactly { IsSome result ↔ HasKind IsZoned self.now (number_of plan) }
    {
        match self.node(plan.0).kind {
            PlanKind::Zoned { .. } | PlanKind::Pruning { .. } => Some(ZonedPlan { plan }),
            _ => None,
        }
    }

    /// The plan as a `LegacyStatsPlan`, and `None` exactly where it is of another kind.
    pub fn as_legacy_stats(&self, plan: PlanRef) -> Option<LegacyStatsPlan>
        requires { number_of plan < length self.now }
        ensures same { IfSome result (λ found. found.plan ≡ plan) }
        ensures exactly { IsSome result ↔ HasKind IsLegacyStats self.now (number_of plan) }
    {
        match self.node(plan.0).kind {
            PlanKind::LegacyStats { .. } => Some(LegacyStatsPlan { plan }),
            _ => None,
        }
    }
}
