//! What a line of a plan's text says behind the plan's name: a summary of the plan, and what callers have to say.

ghost use Rattle.std.specs.Prelude.{◌≡◌, ◌<◌, ◌++◌, codes, length, map, option_map, OnErr, OnOk};
ghost use Rattle.vx_expr.specs.TermText.{term_text};
ghost use Rattle.vx_lower.specs.PlanText.{all_headers, dtype_part, expression_text, headers_text, rows_part, summary_text, Header};
ghost use Rattle.vx_plan.specs.Kinds.{proof_of, HasKind, IsEval};
ghost use Rattle.vx_plan.specs.Refs.{number_of};
ghost use Rattle.vx_plan.specs.Rules.{node_at};

use std::alloc::{AllocError, Global};
use vx_plan::{PlanRef, PlanTable};
use vx_zones::ZoneProof;

/// What has something to say of each plan of a text.
pub trait PlanTreeExtractor: Drop {
    ghost header: { Self → Header };

    /// Appends what there is to say of a plan to its line, and nothing else. Where memory runs out, the line is as it
    /// was.
    fn write_header(
        &self,
        alloc: Global,
        table: &PlanTable,
        plan: PlanRef,
        out: &mut Vec<u8>,
    ) -> Result<(), AllocError>
        requires { number_of plan < length table.now }
        ensures said { OnOk result (out.new.items ≡ out.old.items ++ header self.now table.now (number_of plan)) }
        ensures unchanged { OnErr result (out.new.items ≡ out.old.items) };
}

/// Says of a plan which kind it is of, its dtype and its number of rows, and its expression, or the predicate by which it
/// prunes zones, where it has one: a space, then `vortex.plan.eval(i64, rows=3) expr=$.a`, or
/// `vortex.plan.zoned(bool, rows=9) prune=($ > 7)`.
#[derive(Clone, Copy, Debug)]
pub struct PlanSummaryExtractor;

/// Appends the dtype of a plan.
fn write_dtype(
    alloc: Global,
    table: &PlanTable,
    plan: PlanRef,
    out: &mut Vec<u8>,
) -> Result<(), AllocError>
    requires { number_of plan < length table.now }
    ensures { OnOk result (out.new.items ≡ out.old.items ++ dtype_part (node_at table.now (number_of plan))) }
{
    let dtype = table.dtype(plan).text(alloc)?;
    out.push(b'(')?;
    out.extend_from_slice(&dtype)
}

/// Appends the number of rows of a plan.
fn write_rows(
    alloc: Global,
    table: &PlanTable,
    plan: PlanRef,
    out: &mut Vec<u8>,
) -> Result<(), AllocError>
    requires { number_of plan < length table.now }
    ensures { OnOk result (out.new.items ≡ out.old.items ++ rows_part (node_at table.now (number_of plan))) }
{
    let rows = table.row_count(plan);
    let text = format!(in alloc; ", rows={rows})")?;
    out.extend_from_slice(text.as_bytes())
}

/// The proof by which a plan prunes zones, where it has one.
fn proof_of(table: &PlanTable, plan: PlanRef) -> Option<&ZoneProof>
    requires { number_of plan < length table.now }
    ensures { option_map (λ proof. proof.now) result ≡ proof_of (node_at table.now (number_of plan)).kind }
{
    match table.as_zoned(plan) {
        Some(zoned) => zoned.pruning_proof(table),
        None => None,
    }
}

/// Appends a predicate by which zones are pruned.
fn write_proof(alloc: Global, proof: &ZoneProof, out: &mut Vec<u8>) -> Result<(), AllocError>
    ensures { OnOk result (out.new.items ≡ out.old.items ++ (codes " prune=" ++ term_text proof.now.term)) }
{
    let text = proof.predicate().text(alloc)?;
    out.extend_from_slice(b" prune=")?;
    out.extend_from_slice(&text)
}

/// Appends the predicate by which a plan that has no expression prunes zones, where it has one.
fn write_predicate(
    alloc: Global,
    table: &PlanTable,
    plan: PlanRef,
    out: &mut Vec<u8>,
) -> Result<(), AllocError>
    requires known { number_of plan < length table.now }
    requires plain { ¬ HasKind IsEval table.now (number_of plan) }
    ensures { OnOk result (out.new.items ≡ out.old.items ++ expression_text (node_at table.now (number_of plan)).kind) }
{
    match proof_of(table, plan) {
        Some(proof) => write_proof(alloc, proof, out),
        None => Ok(()),
    }
}

/// Appends the expression of a plan, or the predicate by which it prunes zones, where it has one.
fn write_expression(
    alloc: Global,
    table: &PlanTable,
    plan: PlanRef,
    out: &mut Vec<u8>,
) -> Result<(), AllocError>
    requires { number_of plan < length table.now }
    ensures { OnOk result (out.new.items ≡ out.old.items ++ expression_text (node_at table.now (number_of plan)).kind) }
{
    match table.as_eval(plan) {
        Some(eval) => {
            let text = eval.expression(table).text(alloc)?;
            out.extend_from_slice(b" expr=")?;
            out.extend_from_slice(&text)
        }
        None => write_predicate(alloc, table, plan, out),
    }
}

/// Appends the summary of a plan.
fn write_summary(
    alloc: Global,
    table: &PlanTable,
    plan: PlanRef,
    out: &mut Vec<u8>,
) -> Result<(), AllocError>
    requires { number_of plan < length table.now }
    ensures { OnOk result (out.new.items ≡ out.old.items ++ summary_text table.now (number_of plan)) }
{
    let id = table.id(plan);
    out.push(b' ')?;
    out.extend_from_slice(id.text().as_bytes())?;
    write_dtype(alloc, table, plan, out)?;
    write_rows(alloc, table, plan, out)?;
    write_expression(alloc, table, plan, out)
}

impl PlanTreeExtractor for PlanSummaryExtractor {
    ghost header = { λ _. summary_text };

    fn write_header(
        &self,
        alloc: Global,
        table: &PlanTable,
        plan: PlanRef,
        out: &mut Vec<u8>,
    ) -> Result<(), AllocError> {
        // In memory of its own first, so that the line gets all of it or nothing.
        let mut text = Vec::new(alloc);
        write_summary(alloc, table, plan, &mut text)?;
        out.extend_from_slice(&text)
    }
}

/// The summary, where it is asked for, and what boxed extractors say, one after another.
#[derive(Drop)]
pub(crate) struct AllHeaders {
    pub(crate) has_summary: bool,
    pub(crate) extractors: Vec<Box<dyn PlanTreeExtractor>>,
}

/// Appends what a boxed extractor says.
fn write_boxed(
    alloc: Global,
    extractor: &Box<dyn PlanTreeExtractor>,
    table: &PlanTable,
    plan: PlanRef,
    out: &mut Vec<u8>,
) -> Result<(), AllocError>
    requires { number_of plan < length table.now }
    ensures { OnOk result (out.new.items ≡ out.old.items ++ (PlanTreeExtractor-box extractor.now).header extractor.now.value table.now (number_of plan)) }
{
    extractor.write_header(alloc, table, plan, out)
}

/// Appends what the boxed extractors say, in order.
fn write_each(
    alloc: Global,
    extractors: &[Box<dyn PlanTreeExtractor>],
    table: &PlanTable,
    plan: PlanRef,
    out: &mut Vec<u8>,
) -> Result<(), AllocError>
    requires { number_of plan < length table.now }
    ensures { OnOk result (out.new.items ≡ out.old.items ++ headers_text (map (λ extractor. (PlanTreeExtractor-box extractor).header extractor.value) extractors.now) table.now (number_of plan)) }
{
    for extractor in extractors {
        write_boxed(alloc, extractor, table, plan, out)?;
    }
    Ok(())
}

impl PlanTreeExtractor for AllHeaders {
    ghost header = { λ all. all_headers all.has_summary (map (λ extractor. (PlanTreeExtractor-box extractor).header extractor.value) all.extractors.items) };

    fn write_header(
        &self,
        alloc: Global,
        table: &PlanTable,
        plan: PlanRef,
        out: &mut Vec<u8>,
    ) -> Result<(), AllocError> {
        let mut text = Vec::new(alloc);
        if self.has_summary {
            write_summary(alloc, table, plan, &mut text)?;
        }
        write_each(alloc, &self.extractors, table, plan, &mut text)?;
        out.extend_from_slice(&text)
    }
}
