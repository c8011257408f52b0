//! Plans by number, and the children of a plan.

ghost use Rattle.std.specs.Prelude.{◌≡◌, ◌<◌, ◌↔◌, [], ◌∷◌, ◌++◌, length, map, IfOk, IsTrue, Some, option_map, slice_get};
ghost use Rattle.std.specs.Slice.Iter.{iter_rest};
ghost use Rattle.vx_plan.specs.Refs.{number_of};
ghost use Rattle.vx_plan.specs.Rules.{given_validity};

use std::alloc::{AllocError, Global};
use std::marker::Model;
use std::slice;

/// A plan of a table, by its number.
#[derive(Clone, Copy, Debug, PartialEq, Eq)]
pub struct PlanRef(pub u32);

impl PlanRef {
    /// Whether they are the same plan of a table.
    pub fn ptr_eq(left: PlanRef, right: PlanRef) -> bool
        ensures { IsTrue result ↔ (number_of left ≡ number_of right) }
    {
        left.0 == right.0
    }
}

/// How children are kept: an only child takes no memory of its own.
#[derive(Drop)]
enum ChildPlans {
    One(PlanRef),
    Many(Vec<PlanRef>),
}

/// The children of a plan, in order, seen as their numbers.
pub struct PlanChildren {
    plans: ChildPlans,
}

impl Drop for PlanChildren {
    fn drop(self) {
        let PlanChildren { plans: _ } = self;
    }
}

impl Model for PlanChildren {
    ghost use Rattle.std.specs.Prelude.{List, ℕ};
    ghost use Rattle.std.specs.Coded.{coded_list, coded_ℕ};

    ghost Value = { List ℕ };

    ghost coded = { coded_list coded_ℕ };

    ghost use Rattle.vx_plan.specs.Refs.{child_numbers};

    ghost view = { λ a. child_numbers a.plans };
}

impl PlanChildren {
    /// These children. It takes no memory.
    pub fn from(children: Vec<PlanRef>) -> PlanChildren
        ensures { result ≡ map number_of children.items }
    {
        PlanChildren {
            plans: ChildPlans::Many(children),
        }
    }

    /// The children as a slice.
    fn as_slice(&self) -> &[PlanRef]
        ensures { map number_of result.now ≡ self.now }
    {
        match &self.plans {
            ChildPlans::One(plan) => slice::from_ref(plan),
            ChildPlans::Many(plans) => plans.as_slice(),
        }
    }

    /// The same children as a list.
    fn into_vec(self, alloc: Global) -> Result<Vec<PlanRef>, AllocError>
        ensures { IfOk result (λ plans. map number_of plans.items ≡ self) }
    {
        let PlanChildren { plans } = self;
        match plans {
            ChildPlans::One(plan) => {
                let mut plans = Vec::with_capacity(alloc, 2)?;
                plans.push(plan)?;
                Ok(plans)
            }
            ChildPlans::Many(plans) => Ok(plans),
        }
    }

    /// How many there are.
    pub fn len(&self) -> usize
        ensures { result ≡ length self.now }
    {
        self.as_slice().len()
    }

    /// Whether there are none.
    pub fn is_empty(&self) -> bool
        ensures { IsTrue result ↔ (length self.now ≡ 0) }
    {
        self.as_slice().is_empty()
    }

    /// The child at a place, and `None` past the last.
    pub fn get(&self, place: usize) -> Option<PlanRef>
        ensures { option_map number_of result ≡ slice_get self.now place }
    {
        self.as_slice().get(place).copied()
    }

    /// The number of the child at a place.
    pub(crate) fn at(&self, place: usize) -> u32
        requires { place < length self.now }
        ensures { slice_get self.now place ≡ Some result }
    {
        self.as_slice()[place].0
    }

    /// The children, one after another.
    pub fn iter(&self) -> slice::Iter<'_, PlanRef>
        ensures { map number_of (iter_rest result) ≡ self.now }
    {
        self.as_slice().iter()
    }

    /// The same children in a list of their own.
    pub fn to_vec(&self, alloc: Global) -> Result<Vec<PlanRef>, AllocError>
        ensures { IfOk result (λ copied. map number_of copied.items ≡ self.now) }
    {
        self.as_slice().to_vec(alloc)
    }
}

/// The plan as the only child. It takes no memory.
pub(crate) fn one_child(plan: PlanRef) -> PlanChildren
    ensures { result ≡ number_of plan ∷ [] }
{
    PlanChildren {
        plans: ChildPlans::One(plan),
    }
}

/// The two plans as children.
pub(crate) fn two_children(
    alloc: Global,
    first: PlanRef,
    second: PlanRef,
) -> Result<PlanChildren, AllocError>
    ensures { IfOk result (λ children. children ≡ number_of first ∷ number_of second ∷ []) }
{
    let mut plans = Vec::with_capacity(alloc, 2)?;
    plans.push(first)?;
    plans.push(second)?;
    Ok(PlanChildren::from(plans))
}

/// The children, and the validity behind them where one is given.
pub(crate) fn with_validity(
    alloc: Global,
    children: PlanChildren,
    validity: Option<PlanRef>,
) -> Result<PlanChildren, AllocError>
    ensures { IfOk result (λ all. all ≡ children ++ given_validity (option_map number_of validity)) }
{
    match validity {
        Some(plan) => {
            let mut plans = children.into_vec(alloc)?;
            plans.push(plan)?;
            Ok(PlanChildren::from(plans))
        }
        None => Ok(children),
    }
}
