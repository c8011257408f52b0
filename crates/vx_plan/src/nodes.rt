//! The nodes of a table of plans.

ghost use Rattle.std.specs.Prelude.{◌≡◌, IfOk};
ghost use Rattle.vx_base.specs.Views.{data_type};
ghost use Rattle.std.specs.Arc.{arc_value};

use crate::children::PlanChildren;
use std::alloc::{AllocError, Global};
use std::marker::Model;
use std::sync::Arc;
use vx_base::{Coding, DType};
use vx_expr::{BoundExpression, Statistics};
use vx_zones::ZoneProof;

/// An expression in memory of its own, seen as that expression: few plans have one, and no other plan has to have room
/// for it.
pub struct EvalExpression {
    bound: Box<BoundExpression>,
}

impl Drop for EvalExpression {
    fn drop(self) {
        let EvalExpression { bound: _ } = self;
    }
}

impl Model for EvalExpression {
    ghost use Rattle.vx_expr.specs.Bound.{Bound, coded_bound};

    ghost Value = { Bound };

    ghost coded = { coded_bound };

    ghost view = { λ a. a.bound.value };
}

impl EvalExpression {
    /// The expression, moved into memory of its own.
    pub fn of(alloc: Global, expression: BoundExpression) -> Result<EvalExpression, AllocError>
        ensures { IfOk result (λ moved. moved ≡ expression) }
    {
        let bound = Box::new(alloc, expression)?;
        Ok(EvalExpression { bound })
    }

    /// The expression. It takes no memory.
    pub fn bound(&self) -> &BoundExpression
        ensures { result.now ≡ self.now }
    {
        &self.bound
    }
}

/// That a predicate can prune zones, in memory of its own, seen as the predicate: fewer plans still have one.
pub struct PruningProof {
    proof: Box<ZoneProof>,
}

impl Drop for PruningProof {
    fn drop(self) {
        let PruningProof { proof: _ } = self;
    }
}

impl Model for PruningProof {
    ghost use Rattle.vx_expr.specs.Bound.{Bound, coded_bound};

    ghost Value = { Bound };

    ghost coded = { coded_bound };

    ghost view = { λ a. a.proof.value };
}

impl PruningProof {
    /// The proof, moved into memory of its own.
    pub fn of(alloc: Global, proof: ZoneProof) -> Result<PruningProof, AllocError>
        ensures { IfOk result (λ moved. moved ≡ proof) }
    {
        let proof = Box::new(alloc, proof)?;
        Ok(PruningProof { proof })
    }

    /// The proof. It takes no memory.
    pub fn proof(&self) -> &ZoneProof
        ensures { result.now ≡ self.now }
    {
        &self.proof
    }
}

/// What a plan does, and what its children are, in order.
#[derive(Drop)]
pub enum PlanKind {
    /// The rows of its children, one child after another.
    Concat,
    /// The expression at each row of its child.
    Eval(EvalExpression),
    /// The rows of its child.
    Filter,
    /// Structs of one field for each child, but the last one where a validity was given: that says which
    /// structs are not null.
    Pack {
        has_validity: bool,
    },
    /// The values, its second child, at the codes, its first.
    Take,
    /// The rows of its child, which is read whole.
    Share,
    /// Lists of the elements, its first child, cut at the offsets, its second; a validity is its third.
    ListPack {
        has_validity: bool,
    },
    /// The numbers of the rows.
    RowIdx,
    /// The rows of a segment, which is coded in that way.
    SegmentScan {
        segment: u32,
        coding: Coding,
    },
    /// The rows of the data, its first child; its second has a row for each zone of so many rows.
    Zoned {
        zone_len: u64,
        stats: Statistics,
    },
    /// As `Zoned`, in an older form.
    LegacyStats {
        zone_len: u64,
        stats: Statistics,
    },
    /// Whether the zone of each row is pruned by the predicate of the proof; its child has a row for each zone of so many
    /// rows.
    Pruning {
        zone_len: u64,
        stats: Statistics,
        proof: PruningProof,
    },
}

/// A plan: its kind, the dtype and the number of its rows, its children, and of a concat the row at which each child
/// starts. A plan that has the dtype of a child shares it.
pub struct PlanNode {
    pub kind: PlanKind,
    pub dtype: Arc<DType, Global>,
    pub row_count: u64,
    pub children: PlanChildren,
    pub row_offsets: Vec<u64>,
}

impl Drop for PlanNode {
    fn drop(self) {
        let PlanNode {
            kind: _,
            dtype: _,
            row_count: _,
            children: _,
            row_offsets: _,
        } = self;
    }
}

impl PlanNode {
    /// The dtype of the rows.
    pub fn dtype(&self) -> &DType
        ensures { data_type result.now ≡ data_type (arc_value self.now.dtype) }
    {
        &self.dtype
    }
}
