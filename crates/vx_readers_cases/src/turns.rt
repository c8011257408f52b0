//! The turns of evaluations at a source: of one to its end, or of two in the order of a word.

ghost use Rattle.std.specs.Prelude.{IfOk};
ghost use Rattle.vx_outside.specs.ScriptSources.{script_state};
ghost use Rattle.vx_readers_cases.specs.Running.{GoTogether, IsRunning};

use crate::answers::write_flights;
use crate::running::{Running, poll_once};
use std::alloc::{AllocError, Global};
use vx_base::ScriptSource;

/// Polls an evaluation to its end, as often as is allowed, and appends what each poll gives and leaves in flight.
pub(crate) fn write_turns<'a>(
    alloc: Global,
    running: Running<'a>,
    limit: u64,
    source: &mut ScriptSource,
    out: &mut String,
) -> Result<(), AllocError>
    requires { IsRunning running (script_state source.old).in_flight }
{
    let mut running = running;
    for _turn in 0..limit {
        if matches!(&running, Running::Over) {
            return Ok(());
        }
        running = poll_once(alloc, running, source, out)?;
        write_flights(source, out)?;
    }
    Ok(())
}

/// Two evaluations at one source.
#[derive(Drop)]
pub(crate) struct Both<'a> {
    pub(crate) one: Running<'a>,
    pub(crate) two: Running<'a>,
}

/// Polls the first or the second evaluation, and appends what that gives.
fn poll_one_of<'a>(
    alloc: Global,
    both: Both<'a>,
    letter: char,
    source: &mut ScriptSource,
    out: &mut String,
) -> Result<Both<'a>, AllocError>
    requires { GoTogether both.one both.two (script_state source.old).in_flight }
    ensures { IfOk result (λ next. GoTogether next.one next.two (script_state source.new).in_flight) }
{
    let Both { one, two } = both;
    if letter == '1' {
        match poll_once(alloc, one, source, out) {
            Ok(one) => Ok(Both { one, two }),
            Err(error) => {
                drop(two);
                Err(error)
            }
        }
    } else {
        match poll_once(alloc, two, source, out) {
            Ok(two) => Ok(Both { one, two }),
            Err(error) => {
                drop(one);
                Err(error)
            }
        }
    }
}

/// Polls two evaluations in the order of the word, and appends what each poll gives and leaves in flight.
pub(crate) fn write_both<'a>(
    alloc: Global,
    both: Both<'a>,
    order: &str,
    source: &mut ScriptSource,
    out: &mut String,
) -> Result<(), AllocError>
    requires { GoTogether both.one both.two (script_state source.old).in_flight }
{
    let mut both = both;
    for letter in order.chars() {
        write!(out, " {letter}:")?;
        both = poll_one_of(alloc, both, letter, source, out)?;
        write_flights(source, out)?;
    }
    Ok(())
}
