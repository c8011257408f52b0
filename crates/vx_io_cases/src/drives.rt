//! Lists of commands.

ghost use Rattle.std.specs.Prelude.{◌≡◌, OnOk, IfOk};
ghost use Rattle.vx_io.specs.Drive.{fetches_in, AreDistinct};

use crate::batches::{OWNER, request, write_completion, write_failed};
use crate::fields::place_of;
use crate::sources::{Noting, write_notes};
use std::alloc::{AllocError, Global};
use vx_base::SegmentLocation;
use vx_io::{DriveError, Driven, IoCommand, IoIntent, SegmentIoSource, SegmentRanges, drive};

/// Polls behind the commands.
fn push_polls(commands: &mut Vec<IoCommand>, count: u8) -> Result<(), AllocError>
    ensures { OnOk result (fetches_in commands.new.items ≡ fetches_in commands.old.items) }
{
    for _poll in 0..count {
        commands.push(IoCommand::Poll)?;
    }
    Ok(())
}

/// A fetch of number 0, some polls, fetches of number 1 and 2 in one batch, and some polls.
fn commands_of(
    alloc: Global,
    places: [SegmentLocation; 3],
    between: u8,
    behind: u8,
) -> Result<Vec<IoCommand>, AllocError>
    ensures { IfOk result (λ commands. AreDistinct (fetches_in commands.items)) }
{
    let mut commands = Vec::new(alloc);
    let batch = vec![in alloc; request(IoIntent::Fetch, 0, places[0])]?;
    commands.push(IoCommand::Submit(OWNER, batch))?;
    push_polls(&mut commands, between)?;
    let batch = vec![in alloc;
        request(IoIntent::Fetch, 1, places[1]),
        request(IoIntent::Fetch, 2, places[2]),
    ]?;
    commands.push(IoCommand::Submit(OWNER, batch))?;
    push_polls(&mut commands, behind)?;
    Ok(commands)
}

/// One batch of an announcement of a range, and a poll.
fn announcing(alloc: Global, place: SegmentLocation) -> Result<Vec<IoCommand>, AllocError>
    ensures { IfOk result (λ commands. AreDistinct (fetches_in commands.items)) }
{
    let mut commands = Vec::new(alloc);
    let batch = vec![in alloc; request(IoIntent::Announce, 0, place)]?;
    commands.push(IoCommand::Submit(OWNER, batch))?;
    push_polls(&mut commands, 1)?;
    Ok(commands)
}

/// What ended a list of commands.
fn write_end(error: Option<DriveError>, out: &mut String) -> Result<(), AllocError> {
    match error {
        Some(DriveError::Poll(error)) => write_failed(error, out),
        Some(DriveError::Submit(error)) => write!(out, "{error}"),
        Some(DriveError::Memory) => write!(out, "{}", DriveError::Memory),
        None => out.push_str("no error"),
    }
}

/// How many commands succeeded, the completions, and the error.
fn write_driven(driven: &Driven, out: &mut String) -> Result<(), AllocError> {
    write!(out, "{} done; ", driven.done)?;
    for completion in driven.completions.as_slice() {
        write_completion(completion, out)?;
        out.push_str("; ")?;
    }
    write_end(driven.error, out)?;
    out.push_str("; ")
}

/// What the commands gave, and what the source was asked.
fn write_drive(
    alloc: Global,
    source: &mut Noting,
    ranges: &SegmentRanges,
    commands: Vec<IoCommand>,
    out: &mut String,
) -> Result<(), AllocError>
    requires { AreDistinct (fetches_in commands.items) }
{
    let mut session = SegmentIoSource::new(alloc, source, ranges);
    let driven = drive(alloc, &mut session, commands);
    let written = write_driven(&driven, out);
    drop(driven);
    written.and(write_notes(session.into_source(), out))
}

/// The answer to `drive SCRIPT | RANGES | BETWEEN BEHIND RANGE RANGE RANGE`.
pub(crate) fn write_three(
    alloc: Global,
    source: &mut Noting,
    ranges: &SegmentRanges,
    words: &str,
    out: &mut String,
) -> Result<(), AllocError> {
    let (between, words) = words.split_once(' ').unwrap_or((words, ""));
    let (behind, words) = words.split_once(' ').unwrap_or((words, ""));
    let (first, words) = words.split_once(' ').unwrap_or((words, ""));
    let (second, third) = words.split_once(' ').unwrap_or((words, ""));
    let between = between.parse::<u8>().unwrap_or(0);
    let behind = behind.parse::<u8>().unwrap_or(0);
    let places = [place_of(first), place_of(second), place_of(third)];
    let commands = commands_of(alloc, places, between, behind)?;
    write_drive(alloc, source, ranges, commands, out)
}

/// The answer to `announced SCRIPT | RANGES | RANGE`.
pub(crate) fn write_announced(
    alloc: Global,
    source: &mut Noting,
    ranges: &SegmentRanges,
    word: &str,
    out: &mut String,
) -> Result<(), AllocError> {
    let commands = announcing(alloc, place_of(word))?;
    write_drive(alloc, source, ranges, commands, out)
}
