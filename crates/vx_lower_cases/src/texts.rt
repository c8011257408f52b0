//! The text of a plan, with a summary, with what boxed extractors say, or with names alone.

ghost use Rattle.std.specs.Prelude.{[], ◌∷◌};

use std::alloc::{AllocError, Global};
use std::str;
use vx_lower::{PlanSummaryExtractor, PlanTreeDisplay, PlanTreeExtractor};
use vx_plan::{PlanRef, PlanTable};

/// Says one letter of each plan, behind a space.
#[derive(Drop)]
struct Letter {
    letter: u8,
}

impl PlanTreeExtractor for Letter {
    ghost header = { λ says nodes number. 32 ∷ says.letter ∷ [] };

    fn write_header(
        &self,
        _alloc: Global,
        _table: &PlanTable,
        _plan: PlanRef,
        out: &mut Vec<u8>,
    ) -> Result<(), AllocError> {
        out.extend_from_slice(&[b' ', self.letter])
    }
}

/// Appends the text below the line, or its first line behind it.
fn write_display(
    display: &PlanTreeDisplay<'_>,
    is_line: bool,
    out: &mut String,
) -> Result<(), AllocError> {
    let bytes = display.text()?;
    let text = str::from_utf8(&bytes).unwrap_or("no text");
    if is_line {
        let (first, _) = text.split_once('\n').unwrap_or((text, ""));
        write!(out, " {first}")
    } else {
        write!(out, "\n{}", text.trim_end_matches('\n'))
    }
}

/// Appends the text of a plan as the command asks: `names` without the summary, `line` the first line alone. Each of
/// the letters is said of each plan, behind what is said already; an `s` is the summary.
pub(crate) fn write_text(
    alloc: Global,
    table: &PlanTable,
    plan: PlanRef,
    command: &str,
    letters: &str,
    out: &mut String,
) -> Result<(), AllocError> {
    if table.len() <= plan.0 {
        return Ok(());
    }
    let mut display = if command == "names" {
        PlanTreeDisplay::new(alloc, table, plan)
    } else {
        PlanTreeDisplay::default_display(alloc, table, plan)
    };
    for letter in letters.bytes() {
        if letter == b's' {
            let summary = Box::new(alloc, PlanSummaryExtractor)?;
            display = display.with_boxed(summary)?;
        } else {
            let said = Box::new(alloc, Letter { letter })?;
            display = display.with_boxed(said)?;
        }
    }
    let written = write_display(&display, command == "line", out);
    drop(display);
    written
}
