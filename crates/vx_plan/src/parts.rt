//! The parts of rows of a plan: the children that they are read through, one after another.

ghost use Rattle.std.specs.Prelude.{◌≡◌, ◌+◌, ◌<◌, ◌≤◌, [], ◌∷◌, length, map, None, MatchOption, Some, slice_get};
ghost use Rattle.vx_plan.specs.declared.shapes.Shape.TheVariants.{Chunks};
ghost use Rattle.vx_plan.specs.Nodes.{node_data};
ghost use Rattle.vx_plan.specs.Parts.{first_place, parts_left, same_rows, IsNextPart, IsPicked};
ghost use Rattle.vx_plan.specs.Refs.{number_of};
ghost use Rattle.vx_plan.specs.Rules.{node_at};
ghost use Rattle.vx_plan.specs.Shapes.{HasShape};

use crate::children::PlanRef;
use crate::chunks::chunk_in;
use crate::nodes::{PlanKind, PlanNode};
use crate::shapes::Shape;
use crate::tables::PlanTable;

/// Rows of a child from the start on, for a range of the rows that were asked for.
#[derive(Clone, Copy)]
pub struct ChildRows {
    pub child: u32,
    pub start: u64,
    pub from: u64,
    pub to: u64,
}

/// A child that rows of a plan are read through.
#[derive(Clone, Copy)]
pub enum Part {
    /// These rows of it.
    Rows(ChildRows),
    /// All rows of it, which are the whole values of that number: those of a take, or a share.
    Whole(u32, u32),
    /// All rows of it, whichever rows are asked for: zones by which these may be pruned.
    All(u32),
}

/// How many of the parts were gone through, and how many rows of a concat.
#[derive(Clone, Copy)]
pub struct PartPlace {
    place: usize,
    done: u64,
}

/// A part, and where the parts behind it are.
#[derive(Clone, Copy)]
pub struct NextPart {
    pub part: Part,
    pub behind: PartPlace,
}

impl PartPlace {
    /// In front of all parts.
    pub fn first() -> PartPlace
        ensures { result ≡ first_place }
    {
        PartPlace { place: 0, done: 0 }
    }
}

/// All rows that are asked for, which are those of the child.
fn rows_of(child: u32, start: u64, count: u64) -> Part
    ensures { result ≡ same_rows start count child }
{
    Part::Rows(ChildRows {
        child,
        start,
        from: 0,
        to: count,
    })
}

/// The part, unless it was gone through.
fn only(part: Part, at: PartPlace) -> Option<NextPart>
    ensures { MatchOption result (slice_get (part ∷ []) at.place ≡ None) (IsPicked (part ∷ []) at) }
{
    if at.place > 0 {
        return None;
    }
    Some(NextPart {
        part,
        behind: PartPlace { place: 1, done: 0 },
    })
}

/// The next one of two parts.
fn one_of(first: Part, second: Part, at: PartPlace) -> Option<NextPart>
    ensures { MatchOption result (slice_get (first ∷ second ∷ []) at.place ≡ None) (IsPicked (first ∷ second ∷ []) at) }
{
    if at.place > 1 {
        return None;
    }
    if at.place == 1 {
        return Some(NextPart {
            part: second,
            behind: PartPlace { place: 2, done: 0 },
        });
    }
    Some(NextPart {
        part: first,
        behind: PartPlace { place: 1, done: 0 },
    })
}

/// The rows of the next one of the children.
fn next_field(
    table: &PlanTable,
    plan: PlanRef,
    start: u64,
    count: u64,
    at: PartPlace,
) -> Option<NextPart>
    requires { number_of plan < length table.now }
    ensures { MatchOption result (slice_get (map (same_rows start count) (node_at table.now (number_of plan)).children) at.place ≡ None) (IsPicked (map (same_rows start count) (node_at table.now (number_of plan)).children) at) }
{
    if at.place >= table.child_count(plan) {
        return None;
    }
    let child = table.child_required(plan, at.place);
    Some(NextPart {
        part: rows_of(child.0, start, count),
        behind: PartPlace {
            place: at.place + 1,
            done: 0,
        },
    })
}

/// The rows of the next child of a concat that holds one of them, found by a search in the offsets of its node.
fn next_chunk(
    table: &PlanTable,
    plan: PlanRef,
    node: &PlanNode,
    start: u64,
    count: u64,
    at: PartPlace,
) -> Option<NextPart>
    requires known { number_of plan < length table.now }
    requires here { slice_get table.now (number_of plan) ≡ Some (node_data node.now) }
    requires concat { HasShape table.now (number_of plan) Chunks }
    requires inside { start + count ≤ (node_at table.now (number_of plan)).rows }
    ensures { MatchOption result (parts_left table.now (number_of plan) start count at ≡ []) (IsNextPart table.now (number_of plan) start count at) }
{
    if at.done >= count {
        return None;
    }
    table.numbers_fit(plan);
    let row = start + at.done;
    let chunk = chunk_in(table, plan.0, node, row, at.place);
    let here = (chunk.end - row).min(count - at.done);
    let to = at.done + here;
    Some(NextPart {
        part: Part::Rows(ChildRows {
            child: chunk.child,
            start: row - chunk.start,
            from: at.done,
            to,
        }),
        behind: PartPlace {
            place: chunk.next,
            done: to,
        },
    })
}

/// The next part of so many rows of a plan of any shape, and None behind the last one.
fn next_by_shape(
    table: &PlanTable,
    plan: PlanRef,
    start: u64,
    count: u64,
    at: PartPlace,
) -> Option<NextPart>
    requires known { number_of plan < length table.now }
    requires inside { start + count ≤ (node_at table.now (number_of plan)).rows }
    ensures { MatchOption result (parts_left table.now (number_of plan) start count at ≡ []) (IsNextPart table.now (number_of plan) start count at) }
{
    match table.shape(plan) {
        Shape::Same(child) => only(rows_of(child, start, count), at),
        Shape::Over(child) => only(rows_of(child, start, count), at),
        Shape::Zoned(content, _) => only(rows_of(content, start, count), at),
        Shape::Chunks => next_chunk(table, plan, table.node(plan.0), start, count, at),
        Shape::Fields(_) => next_field(table, plan, start, count, at),
        Shape::LookUp(codes, values) => {
            one_of(
                rows_of(codes, start, count),
                Part::Whole(values, values),
                at,
            )
        }
        Shape::Shared(child) => only(Part::Whole(plan.0, child), at),
        Shape::Pruned(zones) => only(Part::All(zones), at),
        Shape::Leaf(_) => None,
        Shape::Lists => None,
        Shape::RowNumbers => None,
    }
}

impl PlanTable {
    /// The next part of so many rows of a plan, and None behind the last one. It takes no memory. The node of a concat,
    /// which may have many parts, is looked up once.
    pub fn next_part(
        &self,
        plan: PlanRef,
        start: u64,
        count: u64,
        at: PartPlace,
    ) -> Option<NextPart>
        requires known { number_of plan < length self.now }
        requires inside { start + count ≤ (node_at self.now (number_of plan)).rows }
        ensures { MatchOption result (parts_left self.now (number_of plan) start count at ≡ []) (IsNextPart self.now (number_of plan) start count at) }
    {
        let node = self.node(plan.0);
        match node.kind {
            PlanKind::Concat => next_chunk(self, plan, node, start, count, at),
            _ => next_by_shape(self, plan, start, count, at),
        }
    }
}
