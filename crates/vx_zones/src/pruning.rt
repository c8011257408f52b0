//! Which zones a predicate prunes, over a whole table at a time.

ghost use Rattle.std.specs.Prelude.{◌≡◌, ◌||◌, map, false, IfOk};
ghost use Rattle.vx_base.specs.ColumnCalls.{natural};
ghost use Rattle.vx_expr.specs.Bound.{IsBoundTo};
ghost use Rattle.vx_expr.specs.TermViews.{term};
ghost use Rattle.vx_expr.specs.Terms.{conjunction, disjunction};
ghost use Rattle.vx_operators.specs.declared.operators.CompareOp.TheVariants.{Eq, Gt, Ne};
ghost use Rattle.vx_operators.specs.ColumnarValues.{scalar_datum};
ghost use Rattle.vx_zones.specs.Prunes.{tells, excludes, excludes_comparison, all_null, pruned_zones, root_comparison};
ghost use Rattle.vx_zones.specs.Tables.{zones_in};

use crate::tables::ZoneTable;
use crate::tellings::natural_of;
use crate::zone_proofs::{ZoneProof, is_root, root_comparison};
use std::alloc::{AllocError, Global};
use vx_base::Mask;
use vx_expr::{CompareOp, Expr, Operand, Statistic};
use vx_operators::Scalar;

impl ZoneTable {
    /// The zones whose least value, where it is told, compares so with a value.
    fn least_tells(
        &self,
        alloc: Global,
        op: CompareOp,
        value: Scalar<'_>,
    ) -> Result<Mask, AllocError>
        ensures { IfOk result (λ mask. mask ≡ map (λ zone. tells op zone.least (scalar_datum value.entry)) (zones_in self.now)) }
    {
        self.tells(alloc, Statistic::Min, op, value)
    }

    /// The zones whose greatest value, where it is told, compares so with a value.
    fn greatest_tells(
        &self,
        alloc: Global,
        op: CompareOp,
        value: Scalar<'_>,
    ) -> Result<Mask, AllocError>
        ensures { IfOk result (λ mask. mask ≡ map (λ zone. tells op zone.greatest (scalar_datum value.entry)) (zones_in self.now)) }
    {
        self.tells(alloc, Statistic::Max, op, value)
    }

    /// The zones no value of which is equal to a value.
    fn excludes_equal(&self, alloc: Global, value: Scalar<'_>) -> Result<Mask, AllocError>
        ensures { IfOk result (λ mask. mask ≡ map (excludes Eq (scalar_datum value.entry)) (zones_in self.now)) }
    {
        let above = self.least_tells(alloc, CompareOp::Gt, value)?;
        let below = self.greatest_tells(alloc, CompareOp::Lt, value)?;
        above.either(alloc, &below)
    }

    /// The zones no value of which differs from a value.
    fn excludes_other(&self, alloc: Global, value: Scalar<'_>) -> Result<Mask, AllocError>
        ensures { IfOk result (λ mask. mask ≡ map (excludes Ne (scalar_datum value.entry)) (zones_in self.now)) }
    {
        let least = self.least_tells(alloc, CompareOp::Eq, value)?;
        let greatest = self.greatest_tells(alloc, CompareOp::Eq, value)?;
        least.and(alloc, &greatest)
    }

    /// The zones no value of which compares so with a value.
    fn excludes(&self, alloc: Global, op: CompareOp, value: Scalar<'_>) -> Result<Mask, AllocError>
        ensures { IfOk result (λ mask. mask ≡ map (excludes op (scalar_datum value.entry)) (zones_in self.now)) }
    {
        match op {
            CompareOp::Eq => self.excludes_equal(alloc, value),
            CompareOp::Ne => self.excludes_other(alloc, value),
            CompareOp::Lt => self.least_tells(alloc, CompareOp::Ge, value),
            CompareOp::Le => self.least_tells(alloc, CompareOp::Gt, value),
            CompareOp::Gt => self.greatest_tells(alloc, CompareOp::Le, value),
            CompareOp::Ge => self.greatest_tells(alloc, CompareOp::Lt, value),
        }
    }

    /// The zones that a comparison of the root with a value prunes.
    fn compared(&self, alloc: Global, op: CompareOp, value: Scalar<'_>) -> Result<Mask, AllocError>
        ensures { IfOk result (λ mask. mask ≡ map (λ zone. excludes op (scalar_datum value.entry) zone || all_null zone) (zones_in self.now)) }
    {
        let excluded = self.excludes(alloc, op, value)?;
        excluded.either(alloc, self.all_null())
    }

    /// The zones all of whose values are above the bound.
    fn above(&self, alloc: Global, bound: u64) -> Result<Mask, AllocError>
        ensures { IfOk result (λ mask. mask ≡ map (λ zone. tells Gt zone.least (natural bound) || all_null zone) (zones_in self.now)) }
    {
        let key = natural_of(bound);
        let above = self.least_tells(alloc, CompareOp::Gt, key)?;
        above.either(alloc, self.all_null())
    }

    /// No zone.
    fn nothing(&self, alloc: Global) -> Result<Mask, AllocError>
        ensures { IfOk result (λ mask. mask ≡ map (λ zone. false) (zones_in self.now)) }
    {
        Mask::new_false(alloc, self.count())
    }

    /// The zones that a comparison prunes.
    fn pruned_by_comparison(
        &self,
        alloc: Global,
        op: CompareOp,
        left: &Operand,
        right: &Operand,
    ) -> Result<Mask, AllocError>
        ensures { IfOk result (λ mask. mask ≡ map (excludes_comparison (root_comparison op left.now right.now)) (zones_in self.now)) }
    {
        match root_comparison(op, left.expr(), right.expr()) {
            Some((op, value)) => self.compared(alloc, op, value),
            None => self.nothing(alloc),
        }
    }

    /// The zones that one of two predicates prunes at the bound.
    #[cycle(pruning)]
    fn pruned_by_either(
        &self,
        alloc: Global,
        left: &Operand,
        right: &Operand,
        bound: u64,
    ) -> Result<Mask, AllocError>
        ensures { IfOk result (λ mask. mask ≡ pruned_zones bound (conjunction left.now right.now) self.now) }
    {
        let one = self.pruned(alloc, left.expr(), bound)?;
        let other = self.pruned(alloc, right.expr(), bound)?;
        one.either(alloc, &other)
    }

    /// The zones that two predicates prune at the bound.
    #[cycle(pruning)]
    fn pruned_by_both(
        &self,
        alloc: Global,
        left: &Operand,
        right: &Operand,
        bound: u64,
    ) -> Result<Mask, AllocError>
        ensures { IfOk result (λ mask. mask ≡ pruned_zones bound (disjunction left.now right.now) self.now) }
    {
        let one = self.pruned(alloc, left.expr(), bound)?;
        let other = self.pruned(alloc, right.expr(), bound)?;
        one.and(alloc, &other)
    }

    /// The zones that a predicate prunes at the bound.
    #[cycle(pruning)]
    fn pruned(&self, alloc: Global, predicate: &Expr, bound: u64) -> Result<Mask, AllocError>
        ensures { IfOk result (λ mask. mask ≡ pruned_zones bound (term predicate.now) self.now) }
    {
        match predicate {
            Expr::Compare(op, left, right) => self.pruned_by_comparison(alloc, *op, left, right),
            Expr::AtMostBound(operand) if is_root(operand.expr()) => self.above(alloc, bound),
            Expr::IsNull(operand) if is_root(operand.expr()) => self.none_null().copy(alloc),
            Expr::IsNotNull(operand) if is_root(operand.expr()) => self.all_null().copy(alloc),
            Expr::And(left, right) => self.pruned_by_either(alloc, left, right, bound),
            Expr::Or(left, right) => self.pruned_by_both(alloc, left, right, bound),
            _ => self.nothing(alloc),
        }
    }

    /// The zones that the predicate of the proof prunes at the bound, one truth value for each zone.
    pub fn prune(&self, alloc: Global, proof: &ZoneProof, bound: u64) -> Result<Mask, AllocError>
        requires { IsBoundTo proof.now self.now.dtype }
        ensures { IfOk result (λ mask. mask ≡ pruned_zones bound proof.now.term self.now) }
    {
        self.pruned(alloc, proof.predicate().expr(), bound)
    }
}
