//! The text of a plan and all that it is over: a line for each plan, and below it the lines of its children.

ghost use Rattle.std.specs.Prelude.{◌≡◌, ◌+◌, ◌<◌, ◌^◌, ◌++◌, [], ◌∷◌, false, length, map, true, IfOk, OnOk};
ghost use Rattle.vx_lower.specs.PlanText.{all_headers, indent, line_text, lines_text, plan_text};
ghost use Rattle.vx_plan.specs.Refs.{number_of};
ghost use Rattle.vx_plan.specs.Tables.{IsGoodTable};

use crate::plan_extractors::{AllHeaders, PlanTreeExtractor};
use std::alloc::{AllocError, Global};
use vx_plan::{PlanRef, PlanTable};

/// A plan to be printed with all that it is over, and what is to be said of each plan.
#[derive(Drop)]
pub struct PlanTreeDisplay<'a> {
    alloc: Global,
    table: &'a PlanTable,
    plan: PlanRef,
    headers: AllHeaders,
    ghost known: { number_of plan < length table.now },
}

/// Appends the indent of a depth: two spaces for each level.
fn write_indent(depth: u32, out: &mut Vec<u8>) -> Result<(), AllocError>
    ensures { OnOk result (out.new.items ≡ out.old.items ++ indent depth) }
{
    for _level in 0..depth {
        out.extend_from_slice(b"  ")?;
    }
    Ok(())
}

/// Appends the line of a plan.
fn write_line<H: PlanTreeExtractor>(
    alloc: Global,
    headers: &H,
    table: &PlanTable,
    depth: u32,
    name: &str,
    plan: PlanRef,
    out: &mut Vec<u8>,
) -> Result<(), AllocError>
    requires { number_of plan < length table.now }
    ensures { OnOk result (out.new.items ≡ out.old.items ++ line_text (H.header headers.now) table.now depth name.now (number_of plan)) }
{
    write_indent(depth, out)?;
    out.extend_from_slice(name.as_bytes())?;
    out.push(b':')?;
    headers.write_header(alloc, table, plan, out)?;
    out.push(b'\n')?;
    Ok(())
}

/// Appends the line of a plan, and below it the lines of its children.
fn write_lines<H: PlanTreeExtractor>(
    alloc: Global,
    headers: &H,
    table: &PlanTable,
    depth: u32,
    name: &str,
    plan: PlanRef,
    out: &mut Vec<u8>,
) -> Result<(), AllocError>
    requires good { IsGoodTable table.now }
    requires known { number_of plan < length table.now }
    requires depth { depth + number_of plan < 2 ^ 32 }
    ensures { OnOk result (out.new.items ≡ out.old.items ++ lines_text (H.header headers.now) table.now depth name.now (number_of plan)) }
{
    write_line(alloc, headers, table, depth, name, plan, out)?;
    for place in 0..table.child_count(plan) {
        let child = table.child_required(plan, place);
        let name = table.child_name(alloc, plan, place)?;
        write_lines(alloc, headers, table, depth + 1, name.as_str(), child, out)?;
    }
    Ok(())
}

impl<'a> PlanTreeDisplay<'a> {
    /// The plan of the table, of which nothing but names is said.
    pub fn new(alloc: Global, table: &'a PlanTable, plan: PlanRef) -> PlanTreeDisplay<'a>
        requires { number_of plan < length table.now }
        ensures table { result.table.now ≡ table.now }
        ensures plan { result.plan ≡ plan }
        ensures plain { result.headers.has_summary ≡ false }
        ensures none { result.headers.extractors.items ≡ [] }
    {
        let headers = AllHeaders {
            has_summary: false,
            extractors: Vec::new(alloc),
        };
        PlanTreeDisplay {
            alloc,
            table,
            plan,
            headers,
        }
    }

    /// The plan of the table, with the summary of each plan.
    pub fn default_display(
        alloc: Global,
        table: &'a PlanTable,
        plan: PlanRef,
    ) -> PlanTreeDisplay<'a>
        requires { number_of plan < length table.now }
        ensures table { result.table.now ≡ table.now }
        ensures plan { result.plan ≡ plan }
        ensures summary { result.headers.has_summary ≡ true }
        ensures none { result.headers.extractors.items ≡ [] }
    {
        let headers = AllHeaders {
            has_summary: true,
            extractors: Vec::new(alloc),
        };
        PlanTreeDisplay {
            alloc,
            table,
            plan,
            headers,
        }
    }

    /// The same, where the extractor speaks behind those that speak already.
    pub fn with_boxed(
        self,
        extractor: Box<dyn PlanTreeExtractor>,
    ) -> Result<PlanTreeDisplay<'a>, AllocError>
        ensures table { IfOk result (λ display. display.table.now ≡ self.entry.table.now) }
        ensures plan { IfOk result (λ display. display.plan ≡ self.entry.plan) }
        ensures summary { IfOk result (λ display. display.headers.has_summary ≡ self.entry.headers.has_summary) }
        ensures last { IfOk result (λ display. display.headers.extractors.items ≡ self.entry.headers.extractors.items ++ extractor ∷ []) }
    {
        let AllHeaders {
            has_summary,
            mut extractors,
        } = self.headers;
        extractors.push(extractor)?;
        let headers = AllHeaders {
            has_summary,
            extractors,
        };
        Ok(PlanTreeDisplay {
            alloc: self.alloc,
            table: self.table,
            plan: self.plan,
            headers,
        })
    }

    /// The text: the plan stands under the name `root`, and each child under its own, indented by two spaces more than
    /// its plan. It calls itself once for each level of the plan. Lowered plans are at most twice as deep as a tree may
    /// be; a caller that builds deeper ones by the constructors needs as much stack.
    pub fn text(&self) -> Result<Vec<u8>, AllocError>
        ensures { IfOk result (λ text. text.items ≡ plan_text (all_headers self.now.headers.has_summary (map (λ extractor. (PlanTreeExtractor-box extractor).header extractor.value) self.now.headers.extractors.items)) self.now.table.now (number_of self.now.plan)) }
    {
        let _count = self.table.len();
        let mut out = Vec::new(self.alloc);
        write_lines(
            self.alloc,
            &self.headers,
            self.table,
            0,
            "root",
            self.plan,
            &mut out,
        )?;
        Ok(out)
    }
}
