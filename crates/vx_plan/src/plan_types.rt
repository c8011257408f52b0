//! The kinds of plan as types: each is the number of a plan of that kind.

ghost use Rattle.std.specs.Prelude.{◌≡◌};

use crate::children::PlanRef;

/// The rows of its children, one child after another.
#[derive(Clone, Copy)]
pub struct ConcatPlan {
    pub(crate) plan: PlanRef,
}

impl ConcatPlan {
    /// The plan by its number.
    pub fn into_plan(self) -> PlanRef
        ensures { result ≡ self.plan }
    {
        self.plan
    }
}

/// The expression at each row of its child.
#[derive(Clone, Copy)]
pub struct EvalPlan {
    pub(crate) plan: PlanRef,
}

impl EvalPlan {
    /// The plan by its number.
    pub fn into_plan(self) -> PlanRef
        ensures { result ≡ self.plan }
    {
        self.plan
    }
}

/// The rows of its child.
#[derive(Clone, Copy)]
pub struct FilterPlan {
    pub(crate) plan: PlanRef,
}

impl FilterPlan {
    /// The plan by its number.
    pub fn into_plan(self) -> PlanRef
        ensures { result ≡ self.plan }
    {
        self.plan
    }
}

/// Structs of one field for each child.
#[derive(Clone, Copy)]
pub struct PackPlan {
    pub(crate) plan: PlanRef,
}

impl PackPlan {
    /// The plan by its number.
    pub fn into_plan(self) -> PlanRef
        ensures { result ≡ self.plan }
    {
        self.plan
    }
}

/// The values at the codes.
#[derive(Clone, Copy)]
pub struct TakePlan {
    pub(crate) plan: PlanRef,
}

impl TakePlan {
    /// The plan by its number.
    pub fn into_plan(self) -> PlanRef
        ensures { result ≡ self.plan }
    {
        self.plan
    }
}

/// The rows of its child, which is read whole.
#[derive(Clone, Copy)]
pub struct SharePlan {
    pub(crate) plan: PlanRef,
}

impl SharePlan {
    /// The plan by its number.
    pub fn into_plan(self) -> PlanRef
        ensures { result ≡ self.plan }
    {
        self.plan
    }
}

/// Lists of elements, cut at offsets.
#[derive(Clone, Copy)]
pub struct ListPackPlan {
    pub(crate) plan: PlanRef,
}

impl ListPackPlan {
    /// The plan by its number.
    pub fn into_plan(self) -> PlanRef
        ensures { result ≡ self.plan }
    {
        self.plan
    }
}

/// The numbers of the rows.
#[derive(Clone, Copy)]
pub struct RowIdxPlan {
    pub(crate) plan: PlanRef,
}

impl RowIdxPlan {
    /// The plan by its number.
    pub fn into_plan(self) -> PlanRef
        ensures { result ≡ self.plan }
    {
        self.plan
    }
}

/// The rows of a segment.
#[derive(Clone, Copy)]
pub struct SegmentScanPlan {
    pub(crate) plan: PlanRef,
}

impl SegmentScanPlan {
    /// The plan by its number.
    pub fn into_plan(self) -> PlanRef
        ensures { result ≡ self.plan }
    {
        self.plan
    }
}

/// The rows of its data, which stand in zones.
#[derive(Clone, Copy)]
pub struct ZonedPlan {
    pub(crate) plan: PlanRef,
}

impl ZonedPlan {
    /// The plan by its number.
    pub fn into_plan(self) -> PlanRef
        ensures { result ≡ self.plan }
    {
        self.plan
    }
}

/// The rows of its data, which stand in zones of an older form.
#[derive(Clone, Copy)]
pub struct LegacyStatsPlan {
    pub(crate) plan: PlanRef,
}

impl LegacyStatsPlan {
    /// The plan by its number.
    pub fn into_plan(self) -> PlanRef
        ensures { result ≡ self.plan }
    {
        self.plan
    }
}
