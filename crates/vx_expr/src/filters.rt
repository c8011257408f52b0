//! Filters: a truth-valued expression as the list of its conjuncts, and the order in which they are tried.

ghost use Rattle.std.specs.Prelude.{◌≡◌, ◌≢◌, ◌++◌, ◌-◌, ◌^◌, ◌<◌, [], map, length, nat_lt, slice_get, slice_index_or, slice_set, replicate, false, ◌↔◌, Contains, IsSomeAnd, find, MatchBool, OnOk, OnErr, IfOk, IsNone, ⊤};
ghost use Rattle.std.specs.List.{AllByRecursion, range_with_len, All, prefix_len};
ghost use Rattle.vx_base.specs.ColumnCalls.{IsBool};
ghost use Rattle.vx_base.specs.Views.{data_type};
ghost use Rattle.vx_expr.specs.Filters.{conjuncts_of, counted_reports, IsOrdering, quantile, quantile_of, reports_of, are_reported, IsStablySorted, KeepsQuantile, TakesReport, IsTruth, with_report, without_report};
ghost use Rattle.vx_expr.specs.Mentions.{uses_bound};
ghost use Rattle.vx_expr.specs.TermViews.{term};

use crate::bound_expressions::BoundExpression;
use crate::expressions::Expr;
use std::alloc::{AllocError, Global};
use std::marker::Model;
use vx_base::DType;

/// How many reports there are of each permille.
#[derive(Drop)]
struct ReportCounts {
    /// How many there are of each permille from 0 to 1000.
    counts: Vec<u64>,
    /// Those above 1000, ascending.
    above: Vec<u64>,
    /// How many there are in all.
    total: u64,
}

impl Model for ReportCounts {
    ghost use Rattle.std.specs.Prelude.{ℕ, List, ◌++◌};
    ghost use Rattle.vx_expr.specs.Filters.{counted_reports, AreCounters};

    ghost Value = { List ℕ };

    ghost view = { λ a. counted_reports 0 a.counts.items ++ a.above.items };

    ghost invariant = { λ a. AreCounters a.counts.items a.above.items a.total };
}

/// That many counters of no reports.
fn no_counts(alloc: Global, count: usize) -> Result<Vec<u64>, AllocError>
    ensures each { IfOk result (λ counts. length counts.items ≡ count) }
    ensures none { IfOk result (λ counts. counted_reports 0 counts.items ≡ []) }
{
    vec![in alloc; 0; count]
}

/// The first place of a report that is at least so great, or their number.
fn place_of(reports: &[u64], permille: u64) -> usize
    ensures { result ≡ prefix_len (λ report. nat_lt report permille) reports.now }
{
    for place in 0..reports.len() {
        if reports[place] >= permille {
            return place;
        }
    }
    reports.len()
}

impl ReportCounts {
    /// No reports.
    fn new(alloc: Global) -> Result<ReportCounts, AllocError>
        ensures { IfOk result (λ reports. reports ≡ []) }
    {
        let counts = no_counts(alloc, 1001)?;
        Ok(ReportCounts {
            counts,
            above: Vec::new(alloc),
            total: 0,
        })
    }

    /// How many reports there are.
    fn len(&self) -> u64
        ensures { result ≡ length self.now }
    {
        self.total
    }

    /// The report at a place of the ascending ones, 0 where there is none.
    fn at(&self, place: u64) -> u64
        ensures { result ≡ slice_index_or self.now place 0 }
    {
        let mut passed = 0;
        for permille in 0..self.counts.len() {
            passed += self.counts[permille];
            if place < passed {
                return permille as u64;
            }
        }
        self.above
            .get((place - passed) as usize)
            .copied()
            .unwrap_or(0)
    }

    /// The report at a tenth of the ascending ones, 0 where there is none.
    fn quantile(&self) -> u64
        ensures { result ≡ quantile self.now }
    {
        self.at(self.len().saturating_sub(1) / 10)
    }

    /// One report more. It takes memory only above 1000.
    fn add(&mut self, permille: u64) -> Result<(), AllocError>
        requires fewer { length self.old ≢ 2 ^ 64 - 1 }
        ensures added { OnOk result (self.new ≡ with_report permille self.old) }
        ensures refused { OnErr result (self.new ≡ self.old) }
    {
        if permille > 1000 {
            let place = place_of(&self.above, permille);
            self.above.insert(place, permille)?;
            self.total += 1;
            return Ok(());
        }
        self.counts[permille as usize] += 1;
        self.total += 1;
        Ok(())
    }

    /// The reports before one was added.
    fn take_back(&mut self, permille: u64)
        requires reported { Contains self.old permille }
        ensures { self.new ≡ without_report permille self.old }
    {
        self.total -= 1;
        if permille > 1000 {
            let place = place_of(&self.above, permille);
            self.above.remove(place);
            return;
        }
        self.counts[permille as usize] -= 1;
    }
}

/// A truth-valued expression as its conjuncts, with what was reported of them.
#[derive(Drop)]
pub struct FilterExpr {
    conjuncts: Vec<BoundExpression>,
    /// The reports of each conjunct.
    reports: Vec<ReportCounts>,
    ordering: Vec<usize>,
}

impl Model for FilterExpr {
    ghost use Rattle.vx_expr.specs.Filters.{FilterData, IsFilter, coded_filter};

    ghost Value = { FilterData };

    ghost coded = { coded_filter };

    ghost view = { λ a. record { conjuncts = a.conjuncts.items; reports = a.reports.items; ordering = a.ordering.items } };

    ghost invariant = { λ a. IsFilter (record { conjuncts = a.conjuncts.items; reports = a.reports.items; ordering = a.ordering.items }) };
}

/// Adds the conjuncts of an expression, each bound to the root's dtype, from left to right.
fn split(
    alloc: Global,
    expr: &Expr,
    root: &DType,
    conjuncts: &mut Vec<BoundExpression>,
) -> Result<(), AllocError>
    requires { IsTruth (data_type root.now) (term expr.now) }
    ensures split { OnOk result (map (λ c. c.term) conjuncts.new.items ≡ map (λ c. c.term) conjuncts.old.items ++ conjuncts_of (term expr.now)) }
    ensures bound { OnOk result (AllByRecursion (λ c. c.root ≡ data_type root.now) conjuncts.old.items → AllByRecursion (λ c. c.root ≡ data_type root.now) conjuncts.new.items) }
    ensures truths { OnOk result (AllByRecursion (λ c. IsBool c.dtype) conjuncts.old.items → AllByRecursion (λ c. IsBool c.dtype) conjuncts.new.items) }
{
    match expr {
        Expr::And(left, right) => {
            split(alloc, left.expr(), root, conjuncts)?;
            split(alloc, right.expr(), root, conjuncts)
        }
        other => {
            let conjunct = BoundExpression::of_truth(alloc, other, root)?;
            conjuncts.push(conjunct)?;
            Ok(())
        }
    }
}

/// No report of each of that many conjuncts.
fn no_reports(alloc: Global, count: usize) -> Result<Vec<ReportCounts>, AllocError>
    ensures { IfOk result (λ reports. reports.items ≡ replicate count []) }
{
    let mut reports = Vec::with_capacity(alloc, count)?;
    for _conjunct in 0..count {
        reports.push(ReportCounts::new(alloc)?)?;
    }
    Ok(reports)
}

/// The numbers of that many conjuncts, ascending.
fn first_ordering(alloc: Global, count: usize) -> Result<Vec<usize>, AllocError>
    ensures { IfOk result (λ ordering. ordering.items ≡ range_with_len 0 count) }
{
    let mut ordering = Vec::with_capacity(alloc, count)?;
    for conjunct in 0..count {
        ordering.push(conjunct)?;
    }
    Ok(ordering)
}

/// Adds a report to those of a conjunct, and tells whether it was the first or changed their quantile.
fn report_to(
    reports: &mut Vec<ReportCounts>,
    conjunct: usize,
    permille: u64,
) -> Result<bool, AllocError>
    requires within { conjunct < length reports.old.items }
    requires fewer { length (reports_of reports.old.items conjunct) ≢ 2 ^ 64 - 1 }
    ensures added { OnOk result (reports.new.items ≡ slice_set reports.old.items conjunct (with_report permille (reports_of reports.old.items conjunct))) }
    ensures kept { IfOk result (λ changed. MatchBool changed ⊤ (KeepsQuantile (reports_of reports.old.items conjunct) (reports_of reports.new.items conjunct))) }
    ensures refused { OnErr result (reports.new.items ≡ reports.old.items) }
{
    let counts = &mut reports[conjunct];
    let first = counts.len() == 0;
    let before = counts.quantile();
    counts.add(permille)?;
    Ok(first || counts.quantile() != before)
}

/// Takes a report that was added from those of a conjunct.
fn take_back(reports: &mut Vec<ReportCounts>, conjunct: usize, permille: u64)
    requires within { conjunct < length reports.old.items }
    requires reported { Contains (reports_of reports.old.items conjunct) permille }
    ensures { reports.new.items ≡ slice_set reports.old.items conjunct (without_report permille (reports_of reports.old.items conjunct)) }
{
    reports[conjunct].take_back(permille);
}

/// The quantile of a conjunct.
fn quantile_at(reports: &[ReportCounts], conjunct: usize) -> u64
    ensures { result ≡ quantile_of reports.now conjunct }
{
    match reports.get(conjunct) {
        Some(reports) => reports.quantile(),
        None => 0,
    }
}

/// Whether each conjunct has a report.
fn are_reported(reports: &[ReportCounts]) -> bool
    ensures { result ≡ are_reported reports.now }
{
    for one in reports {
        if one.len() == 0 {
            return false;
        }
    }
    true
}

/// Sorts the numbers of the conjuncts by their quantiles. Those of equal quantiles keep their order.
fn reorder(ordering: &mut Vec<usize>, reports: &[ReportCounts]) -> Result<(), AllocError>
    ensures sorted { OnOk result (IsStablySorted (quantile_of reports.now) ordering.old.items ordering.new.items) }
    ensures refused { OnErr result (ordering.new.items ≡ ordering.old.items) }
{
    ordering.sort_by_key(|conjunct| quantile_at(reports, *conjunct))
}

impl FilterExpr {
    /// The filter of a truth-valued expression, split at its conjunctions from left to right. The first
    /// ordering is 0, 1, 2 and so on.
    pub fn new(alloc: Global, expr: BoundExpression) -> Result<FilterExpr, AllocError>
        requires { IsBool expr.dtype }
        ensures split { IfOk result (λ filter. map (λ c. c.term) filter.conjuncts ≡ conjuncts_of expr.term) }
        ensures bound { IfOk result (λ filter. AllByRecursion (λ c. c.root ≡ expr.root) filter.conjuncts) }
        ensures ordering { IfOk result (λ filter. filter.ordering ≡ range_with_len 0 (length filter.conjuncts)) }
        ensures reports { IfOk result (λ filter. filter.reports ≡ replicate (length filter.conjuncts) []) }
    {
        let mut conjuncts = Vec::new(alloc);
        split(alloc, expr.expr(), expr.root_dtype(), &mut conjuncts)?;
        let reports = no_reports(alloc, conjuncts.len())?;
        let ordering = first_ordering(alloc, conjuncts.len())?;
        Ok(FilterExpr {
            conjuncts,
            reports,
            ordering,
        })
    }

    /// The conjuncts, from left to right. It takes no memory.
    pub fn conjuncts(&self) -> &[BoundExpression]
        ensures conjuncts { result.now ≡ self.now.conjuncts }
        ensures truths { AllByRecursion (λ c. IsBool c.dtype) self.now.conjuncts }
    {
        self.conjuncts.as_slice()
    }

    /// The numbers of the conjuncts in the order in which they are tried. It takes no memory.
    pub fn ordering(&self) -> &[usize]
        ensures ordering { result.now ≡ self.now.ordering }
        // Each number stands there once.
        ensures permutation { IsOrdering self.now }
    {
        self.ordering.as_slice()
    }

    /// Whether the bound occurs in the conjunct. It takes no memory.
    pub fn dynamic_updates(&self, conjunct: usize) -> bool
        requires { conjunct < length self.now.conjuncts }
        ensures { IsSomeAnd (slice_get self.now.conjuncts conjunct) (λ c. result ≡ uses_bound c.term) }
    {
        self.conjuncts[conjunct].uses_bound()
    }

    /// The first conjunct of the ordering that remains. None where none remains. It takes no memory.
    pub fn next_conjunct(&self, remaining: &[bool]) -> Option<usize>
        requires { length remaining.now ≡ length self.now.conjuncts }
        ensures first { result ≡ find (λ conjunct. slice_index_or remaining.now conjunct false) self.now.ordering }
        ensures none { IsNone result ↔ All (λ one. one ≡ false) remaining.now }
    {
        for conjunct in &self.ordering {
            if remaining.get(*conjunct).copied().unwrap_or(false) {
                return Some(*conjunct);
            }
        }
        None
    }

    /// Takes in which share of the rows a conjunct selected, in permille. Once each conjunct has a report, the ordering
    /// is sorted by the report at a tenth of each conjunct's ascending reports; conjuncts of equal reports keep their
    /// order. A conjunct that has `u64::MAX` reports takes no more. A report of at most 1000 is counted, which takes no
    /// memory; one above is kept by itself, since a report is a number of 64 bits, and the call takes them all. The
    /// ordering is sorted again only where the conjunct's report at a tenth changed or now each conjunct has one; where
    /// it can't be sorted for want of memory, the report is taken back.
    pub fn report_selectivity(&mut self, conjunct: usize, permille: u64) -> Result<(), AllocError>
        requires { conjunct < length self.old.conjuncts }
        ensures taken { OnOk result (TakesReport self.old conjunct permille self.new) }
        ensures refused { OnErr result (self.new ≡ self.old) }
    {
        if self.reports[conjunct].len() == u64::MAX {
            return Ok(());
        }
        let changed = report_to(&mut self.reports, conjunct, permille)?;
        if !changed {
            return Ok(());
        }
        if !are_reported(&self.reports) {
            return Ok(());
        }
        match reorder(&mut self.ordering, &self.reports) {
            Ok(()) => Ok(()),
            Err(error) => {
                take_back(&mut self.reports, conjunct, permille);
                Err(error)
            }
        }
    }
}
