//! A session, command by command.

use crate::batches::{OWNER, batch_of, write_completion, write_failed};
use crate::sources::{Noting, write_notes};
use std::alloc::{AllocError, Global};
use vx_io::{Completion, PollError, SegmentIoSource, SegmentRanges};

/// What a poll answered.
fn write_polled(
    polled: &Result<Option<Completion>, PollError>,
    out: &mut String,
) -> Result<(), AllocError> {
    match polled {
        Ok(Some(completion)) => write_completion(completion, out),
        Ok(None) => out.push_str("nothing"),
        Err(error) => write_failed(*error, out),
    }
}

/// Does a command, and writes what it answered.
fn turn(
    alloc: Global,
    session: &mut SegmentIoSource<'_, Noting>,
    word: &str,
    out: &mut String,
) -> Result<(), AllocError> {
    match word {
        "poll" => write_polled(&session.poll(), out),
        "poll_completion" => write_polled(&session.poll_completion(), out),
        "in_flight" => write!(out, "{}", session.in_flight()),
        "clear" => {
            session.clear();
            out.push_str("done")
        }
        "release" => {
            session.release(OWNER);
            out.push_str("done")
        }
        _ => match session.submit(OWNER, batch_of(alloc, word)?) {
            Ok(()) => out.push_str("taken"),
            Err(error) => write!(out, "{error}"),
        },
    }
}

/// Does the commands, and writes what each answered.
fn turns(
    alloc: Global,
    session: &mut SegmentIoSource<'_, Noting>,
    words: &str,
    out: &mut String,
) -> Result<(), AllocError> {
    for word in words.split_whitespace() {
        turn(alloc, session, word, out)?;
        out.push_str("; ")?;
    }
    Ok(())
}

/// The answer to `session SCRIPT | RANGES | COMMANDS`: what each command answered, and what the source was asked.
pub(crate) fn write_session(
    alloc: Global,
    source: &mut Noting,
    ranges: &SegmentRanges,
    words: &str,
    out: &mut String,
) -> Result<(), AllocError> {
    let mut session = SegmentIoSource::new(alloc, source, ranges);
    turns(alloc, &mut session, words, out).and(write_notes(session.into_source(), out))
}
