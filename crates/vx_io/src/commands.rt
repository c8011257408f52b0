//! A list of commands, run over a session one after the other.

ghost use Rattle.std.specs.Prelude.{◌≡◌, []};
ghost use Rattle.vx_io.specs.Tables.{session_state, KeepsLoans};
ghost use Rattle.vx_io.specs.Drive.{fetches_in, AreDistinct, Drives, PollCommandGives, CommandGives};

use crate::requests::{Completion, IoOwnerId, IoRequest, PollError, SubmitError};
use crate::sessions::SegmentIoSource;
use std::alloc::Global;
use thiserror::Error;
use vx_base::SegmentSource;

/// A call on a session.
#[derive(Debug, Drop)]
pub enum IoCommand {
    /// Submits a batch of this owner.
    Submit(IoOwnerId, Vec<IoRequest>),
    /// Polls the fetches in flight.
    Poll,
}

/// Why a list of commands was not run to its end.
#[derive(Clone, Copy, Debug, PartialEq, Eq, Error)]
pub enum DriveError {
    /// A batch was not taken whole.
    #[error("a batch was not taken")]
    Submit(SubmitError),
    /// A poll failed.
    #[error("a poll failed")]
    Poll(PollError),
    /// There is no memory left for a poll.
    #[error("out of memory")]
    Memory,
}

/// What a list of commands gave.
#[derive(Debug, Drop)]
pub struct Driven {
    /// The fetches that ended, in order.
    pub completions: Vec<Completion>,
    /// How many commands succeeded.
    pub done: u64,
    /// Why the command behind them did not.
    pub error: Option<DriveError>,
}

/// Polls once. Room for a completion is made first, so that none is lost.
fn poll<S: SegmentSource>(
    session: &mut SegmentIoSource<'_, S>,
    completions: &mut Vec<Completion>,
) -> Result<(), DriveError>
    ensures loans { KeepsLoans session.old session.new }
    ensures gives { PollCommandGives session.old.ranges.now result completions.old.items completions.new.items
        (session_state session.old) (session_state session.new) }
{
    if completions.reserve(1).is_err() {
        return Err(DriveError::Memory);
    }
    match session.poll() {
        Ok(Some(completion)) => {
            completions.push_reserved(completion);
            Ok(())
        }
        Ok(None) => Ok(()),
        Err(PollError::Memory) => Err(DriveError::Memory),
        Err(error) => Err(DriveError::Poll(error)),
    }
}

/// Runs one command.
fn run<S: SegmentSource>(
    session: &mut SegmentIoSource<'_, S>,
    command: IoCommand,
    completions: &mut Vec<Completion>,
) -> Result<(), DriveError>
    ensures loans { KeepsLoans session.old session.new }
    ensures gives { CommandGives session.old.ranges.now command result completions.old.items completions.new.items
        (session_state session.old) (session_state session.new) }
{
    match command {
        IoCommand::Submit(owner, batch) => match session.submit(owner, batch) {
            Ok(()) => Ok(()),
            Err(error) => Err(DriveError::Submit(error)),
        },
        IoCommand::Poll => poll(session, completions),
    }
}

/// Runs the commands in order and stops at the first error. No fetch is in flight before, and no two fetches of
/// the commands share owner and number.
pub fn drive<S: SegmentSource>(
    alloc: Global,
    session: &mut SegmentIoSource<'_, S>,
    commands: Vec<IoCommand>,
) -> Driven
    requires none_in_flight { (session_state session.old).table.fetches ≡ [] }
    requires distinct { AreDistinct (fetches_in commands.items) }
    ensures loans { KeepsLoans session.old session.new }
    ensures drives { Drives session.old.ranges.now commands.items result (session_state session.old) (session_state session.new) }
{
    let mut driven = Driven {
        completions: Vec::new(alloc),
        done: 0,
        error: None,
    };
    for command in commands {
        match run(session, command, &mut driven.completions) {
            Ok(()) => driven.done += 1,
            Err(error) => {
                driven.error = Some(error);
                return driven;
            }
        }
    }
    driven
}
