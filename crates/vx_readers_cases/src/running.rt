//! Evaluations as they go on.

ghost use Rattle.std.specs.Prelude.{IfOk};
ghost use Rattle.vx_outside.specs.ScriptSources.{script_state};
ghost use Rattle.vx_readers_cases.specs.Running.{GoesOn, IsRunning};
ghost use Rattle.vx_readers.specs.States.{ReadsAreInFlight};
ghost use Rattle.vx_reads.specs.Reads.{AreInFlight};

use crate::answers::{write_column, write_error, write_mask};
use std::alloc::{AllocError, Global};
use vx_base::ScriptSource;
use vx_readers::{ColumnState, MaskState, Progress};

/// An evaluation that goes on, or is over.
#[derive(Drop)]
pub(crate) enum Running<'a> {
    Column(ColumnState<'a>),
    Mask(MaskState<'a>),
    Over,
}

/// Polls the state of a projection, and appends what that gives.
#[tactic(auto, using(crate::proofs::Sparing::column_ready, crate::proofs::Sparing::column_refused, crate::proofs::Sparing::column_goes))]
fn poll_column<'a>(
    alloc: Global,
    state: ColumnState<'a>,
    source: &mut ScriptSource,
    out: &mut String,
) -> Result<Running<'a>, AllocError>
    requires { AreInFlight state.evaluation.locations state.evaluation.reads (script_state source.old).in_flight }
    ensures { IfOk result (λ next. GoesOn (Running.Column state.entry) next (script_state source.old) (script_state source.new)) }
{
    match state.poll(source) {
        Ok(Progress::Ready(column)) => {
            let written = write_column(alloc, &column, out);
            drop(column);
            written?;
            Ok(Running::Over)
        }
        Ok(Progress::Pending(next)) => {
            match out.push_str(" pending;") {
                Ok(()) => Ok(Running::Column(next)),
                Err(error) => {
                    drop(next);
                    Err(error)
                }
            }
        }
        Err(error) => {
            write_error(error, out)?;
            Ok(Running::Over)
        }
    }
}

/// Polls the state of a filter, and appends what that gives.
#[tactic(auto, using(crate::proofs::Sparing::mask_ready, crate::proofs::Sparing::mask_refused, crate::proofs::Sparing::mask_goes))]
fn poll_mask<'a>(
    alloc: Global,
    state: MaskState<'a>,
    source: &mut ScriptSource,
    out: &mut String,
) -> Result<Running<'a>, AllocError>
    requires { ReadsAreInFlight state.masking (script_state source.old).in_flight }
    ensures { IfOk result (λ next. GoesOn (Running.Mask state.entry) next (script_state source.old) (script_state source.new)) }
{
    match state.poll(source) {
        Ok(Progress::Ready(mask)) => {
            let written = write_mask(alloc, &mask, out);
            drop(mask);
            written?;
            Ok(Running::Over)
        }
        Ok(Progress::Pending(next)) => {
            match out.push_str(" pending;") {
                Ok(()) => Ok(Running::Mask(next)),
                Err(error) => {
                    drop(next);
                    Err(error)
                }
            }
        }
        Err(error) => {
            write_error(error, out)?;
            Ok(Running::Over)
        }
    }
}

/// Polls an evaluation, where it goes on, and appends what that gives.
#[tactic(auto, using(crate::proofs::Sparing::same))]
pub(crate) fn poll_once<'a>(
    alloc: Global,
    running: Running<'a>,
    source: &mut ScriptSource,
    out: &mut String,
) -> Result<Running<'a>, AllocError>
    requires { IsRunning running (script_state source.old).in_flight }
    ensures { IfOk result (λ next. GoesOn running.entry next (script_state source.old) (script_state source.new)) }
{
    match running {
        Running::Column(state) => poll_column(alloc, state, source, out),
        Running::Mask(state) => poll_mask(alloc, state, source, out),
        Running::Over => Ok(Running::Over),
    }
}
