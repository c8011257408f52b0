//! Stories of an adaptor: what it gives and takes, step by step.

ghost use Rattle.std.specs.Prelude.{◌<◌, ◌≤◌, length};
ghost use Rattle.vx_base.specs.Limits.{most_segments};
ghost use Rattle.vx_plan.specs.Refs.{number_of};

use crate::answers::{write_column, write_error};
use crate::commands::CaseState;
use crate::files::{bytes_of, places_of};
use crate::splits::splits_of;
use crate::trees::lowered_of;
use std::alloc::{AllocError, Global};
use vx_base::SegmentLocation;
use vx_io::{IoRequest, IoRequestId, IoTarget};
use vx_lower::Lowered;
use vx_scan::{AdaptorError, AdaptorStep, ScanAdaptor, ScanError, State};
use vx_steps::{Scan, StepError};

/// The error of a scan whose adaptor refused so.
fn refusal(error: AdaptorError) -> ScanError {
    match error {
        AdaptorError::NoLocation(segment) => ScanError::NoLocation(segment),
        AdaptorError::Step(StepError::Unsupported(list)) => ScanError::Unsupported(list),
        AdaptorError::Step(StepError::BadSegment(segment)) => ScanError::BadSegment(segment),
        AdaptorError::Step(StepError::BadCode { node, row }) => ScanError::BadCode { node, row },
        AdaptorError::Step(StepError::EvalFault(row)) => ScanError::EvalFault(row),
        _ => ScanError::Memory,
    }
}

/// Appends a batch of fetches, each as its number and its range.
fn write_fetches(batch: &[IoRequest], out: &mut String) -> Result<(), AllocError> {
    out.push_str(" fetch")?;
    for request in batch {
        let IoTarget::Range { offset, len, .. } = request.target;
        write!(out, " {}:{offset}+{len}", request.request.0)?;
    }
    out.push(';')
}

/// Appends what a step of the adaptor gives.
fn write_given(alloc: Global, step: &AdaptorStep, out: &mut String) -> Result<(), AllocError> {
    match step {
        AdaptorStep::Yield => out.push_str(" yield;"),
        AdaptorStep::NeedsIo(batch) => write_fetches(batch.as_slice(), out),
        AdaptorStep::Piece(column) => {
            out.push_str(" piece")?;
            write_column(alloc, column, out)
        }
    }
}

/// Appends the next step of the adaptor.
fn write_step(
    alloc: Global,
    adaptor: &mut ScanAdaptor<'_>,
    out: &mut String,
) -> Result<(), AllocError> {
    match adaptor.compute() {
        Ok(step) => {
            let written = write_given(alloc, &step, out);
            drop(step);
            written
        }
        Err(error) => write_error(refusal(error), out),
    }
}

/// Hands the adaptor the bytes of a fetch, as `0 05*3` for three bytes of fetch 0, and says whether it took them.
fn write_taken(
    alloc: Global,
    adaptor: &mut ScanAdaptor<'_>,
    words: &str,
    out: &mut String,
) -> Result<(), AllocError> {
    let (number, words) = words.split_once(' ').unwrap_or((words, ""));
    let bytes = bytes_of(alloc, words);
    match adaptor.set_io_result(IoRequestId(number.parse::<u32>().unwrap_or(0)), bytes) {
        Ok(()) => out.push_str(" taken;"),
        Err(_) => out.push_str(" not outstanding;"),
    }
}

/// Appends what each of the commands of a story gives.
fn write_story(
    alloc: Global,
    adaptor: &mut ScanAdaptor<'_>,
    story: &str,
    out: &mut String,
) -> Result<(), AllocError> {
    for part in story.split(", ") {
        let (command, words) = part.split_once(' ').unwrap_or((part, ""));
        match command {
            "compute" => write_step(alloc, adaptor, out)?,
            "result" => write_taken(alloc, adaptor, words, out)?,
            _ => match adaptor.state() {
                State::NeedsCompute => out.push_str(" needs compute;")?,
                State::Waiting => out.push_str(" waiting;")?,
                State::Done => out.push_str(" done;")?,
            },
        }
    }
    Ok(())
}

/// The scan behind so many steps of its own.
fn stepped<'a>(mut scan: Scan<'a>, steps: usize) -> Scan<'a> {
    for _ in 0..steps {
        drop(scan.step());
    }
    scan
}

/// Appends the story of an adaptor of the scan.
fn write_scanned(
    alloc: Global,
    scan: Scan<'_>,
    locations: &[SegmentLocation],
    story: &str,
    out: &mut String,
) -> Result<(), AllocError>
    requires few { length locations.now ≤ most_segments }
{
    let mut adaptor = ScanAdaptor::new(alloc, scan, locations);
    let written = write_story(alloc, &mut adaptor, story, out);
    drop(adaptor);
    written
}

/// Appends the story of an adaptor of a scan of splits; behind `2 of ` so many of them may be active at once, and behind
/// `1 before ` the scan takes so many steps before the adaptor is made.
fn write_planned(
    alloc: Global,
    plans: &Lowered,
    locations: &[SegmentLocation],
    words: &str,
    out: &mut String,
) -> Result<(), AllocError>
    requires root { number_of plans.now.root < length plans.now.table }
    requires few { length locations.now ≤ most_segments }
{
    let (words, story) = words.split_once(" | ").unwrap_or((words, ""));
    let (steps, words) = words.split_once(" before ").unwrap_or(("0", words));
    let steps = steps.parse::<usize>().unwrap_or(0);
    let (active, words) = words.split_once(" of ").unwrap_or(("1", words));
    let active = active.parse::<usize>().unwrap_or(1);
    let splits = splits_of(alloc, words);
    match Scan::try_new(alloc, &plans.table, plans.root, splits) {
        Ok(scan) => {
            let scan = stepped(scan.with_max_active(active), steps);
            write_scanned(alloc, scan, locations, story, out)
        }
        Err(_) => out.push_str(" out of range;"),
    }
}

/// Appends the story of an adaptor over the plans, whose segments lie at these places.
fn write_told(
    alloc: Global,
    plans: &Lowered,
    places: &str,
    words: &str,
    out: &mut String,
) -> Result<(), AllocError>
    requires { number_of plans.now.root < length plans.now.table }
{
    let locations = places_of(alloc, places);
    let written = write_planned(alloc, plans, &locations, words, out);
    drop(locations);
    written
}

/// Appends the story of an adaptor over the tree.
pub(crate) fn write_adaptor(
    alloc: Global,
    case_state: CaseState<'_>,
    words: &str,
    out: &mut String,
) -> Result<(), AllocError> {
    let Some(plans) = lowered_of(alloc, case_state) else {
        return out.push_str(" no tree;");
    };
    let written = write_told(alloc, &plans, case_state.places, words, out);
    drop(plans);
    written
}
