//! The run of a scan of one split over a session on a lent source, until all outputs of the split are there.

ghost use Rattle.std.specs.Prelude.{◌≡◌, ◌<◌, [], length};
ghost use Rattle.vx_io.specs.Ranges.{IsTableOf};
ghost use Rattle.vx_io.specs.Session.{empty_table};
ghost use Rattle.vx_io.specs.Tables.{session_state, KeepsLoans};
ghost use Rattle.vx_drive.specs.AdaptorData.{IsOutstanding};
ghost use Rattle.vx_drive.specs.Adaptors.{adaptor_data};
ghost use Rattle.vx_drive.specs.Computes.{TakesResult};
ghost use Rattle.vx_drive.specs.Finished.{Finishes};
ghost use Rattle.vx_drive.specs.Gathered.{GatherGives};
ghost use Rattle.vx_drive.specs.Plans.{ArePlans};
ghost use Rattle.vx_drive.specs.Runs.{scan_error, RunGives};
ghost use Rattle.vx_drive.specs.Starts.{IsAtStart, IsUnread};
ghost use Rattle.vx_drive.specs.Receives.{AreOutstanding, ReceiveGives};

use crate::adaptor_errors::AdaptorError;
use crate::adaptors::{AdaptorStep, ScanAdaptor, State};
use crate::errors::ScanError;
use crate::gathered::joined;
use crate::plans::ScanPlans;
use crate::waits::{next_completion, send};
use std::alloc::Global;
use vx_base::{Column, SegmentSource};
use vx_io::{Completion, SegmentIoSource};
use vx_steps::{Scan, ScanKept, StepError};

/// What the run of a scan gave: the column of its split, and none where no row of the split is selected; and what is
/// left of the scan.
#[derive(Drop)]
pub struct Finished {
    pub output: Result<Option<Column>, ScanError>,
    pub kept: ScanKept,
}

/// The error of a run whose adaptor refused.
fn refusal(error: AdaptorError) -> ScanError
    ensures { result ≡ scan_error error }
{
    match error {
        AdaptorError::NoLocation(segment) => ScanError::NoLocation(segment),
        AdaptorError::Step(StepError::Unsupported(list)) => ScanError::Unsupported(list),
        AdaptorError::Step(StepError::BadSegment(segment)) => ScanError::BadSegment(segment),
        AdaptorError::Step(StepError::BadCode { node, row }) => ScanError::BadCode { node, row },
        AdaptorError::Step(StepError::EvalFault(row)) => ScanError::EvalFault(row),
        AdaptorError::Step(StepError::Memory)
        | AdaptorError::NotOutstanding
        | AdaptorError::Memory => ScanError::Memory,
    }
}

/// Hands the bytes of a fetch that ended to the read that it was made for.
fn hand_in(adaptor: &mut ScanAdaptor<'_>, completion: Completion)
    requires { IsOutstanding (adaptor_data adaptor.old) completion.request.0 }
    ensures locations { adaptor.new.locations.now ≡ adaptor.old.locations.now }
    ensures takes { TakesResult completion.request.0 completion.bytes.items (adaptor_data adaptor.old) (adaptor_data adaptor.new) }
{
    let Completion { request, bytes, .. } = completion;
    match adaptor.set_io_result(request, bytes) {
        Ok(()) => {}
        Err(_) => unreachable!(),
    }
}

/// Waits for a fetch to end, and hands its bytes to the read that it was made for.
fn receive<S: SegmentSource>(
    adaptor: &mut ScanAdaptor<'_>,
    session: &mut SegmentIoSource<'_, S>,
    idle_limit: u64,
) -> Result<(), ScanError>
    requires some { 0 < length (session_state session.old).table.fetches }
    requires fetches { AreOutstanding (adaptor_data adaptor.old) (session_state session.old) }
    ensures locations { adaptor.new.locations.now ≡ adaptor.old.locations.now }
    ensures loans { KeepsLoans session.old session.new }
    ensures gives { ReceiveGives idle_limit result (adaptor_data adaptor.old) (adaptor_data adaptor.new) (session_state session.old) (session_state session.new) }
{
    match next_completion(session, idle_limit) {
        Ok(completion) => {
            hand_in(adaptor, completion);
            Ok(())
        }
        Err(error) => Err(error),
    }
}

/// Runs the scan of an adaptor over a session until none of its split is left, and lists the outputs: its reads are
/// fetched, and what a fetch gives is handed to the read that it was made for.
fn gather<S: SegmentSource>(
    adaptor: &mut ScanAdaptor<'_>,
    session: &mut SegmentIoSource<'_, S>,
    idle_limit: u64,
    outputs: &mut Vec<Column>,
) -> Result<(), ScanError>
    requires start { IsAtStart (adaptor_data adaptor.old) }
    requires empty { (session_state session.old).table ≡ empty_table }
    requires ranges { IsTableOf session.old.ranges.now adaptor.old.locations.now }
    requires none { outputs.old.items ≡ [] }
    ensures loans { KeepsLoans session.old session.new }
    ensures gives { GatherGives adaptor.old.locations.now idle_limit (adaptor_data adaptor.old).scan result outputs.new.items (adaptor_data adaptor.new).scan
        (session_state session.old).source (session_state session.new).source }
{
    'turns: loop {
        match adaptor.compute() {
            Ok(AdaptorStep::NeedsIo(batch)) => match send(session, batch) {
                Ok(()) => {}
                Err(error) => return Err(error),
            },
            Ok(AdaptorStep::Piece(column)) => {
                if outputs.push(column).is_err() {
                    return Err(ScanError::Memory);
                }
            }
            Ok(AdaptorStep::Yield) => {
                if adaptor.state() == State::Done {
                    return Ok(());
                }
                match receive(adaptor, session, idle_limit) {
                    Ok(()) => {}
                    Err(error) => return Err(error),
                }
            }
            Err(error) => return Err(refusal(error)),
        }
    }
}

/// Runs the scan of an adaptor over a session until none of its split is left, and gives the split's column; none where no
/// row of it is selected.
fn run<S: SegmentSource>(
    alloc: Global,
    adaptor: &mut ScanAdaptor<'_>,
    session: &mut SegmentIoSource<'_, S>,
    idle_limit: u64,
) -> Result<Option<Column>, ScanError>
    requires start { IsAtStart (adaptor_data adaptor.old) }
    requires empty { (session_state session.old).table ≡ empty_table }
    requires ranges { IsTableOf session.old.ranges.now adaptor.old.locations.now }
    ensures loans { KeepsLoans session.old session.new }
    ensures gives { RunGives adaptor.old.locations.now idle_limit (adaptor_data adaptor.old).scan result (adaptor_data adaptor.new).scan
        (session_state session.old).source (session_state session.new).source }
{
    let mut outputs = Vec::new(alloc);
    match gather(adaptor, session, idle_limit, &mut outputs) {
        Ok(()) => joined(alloc, outputs),
        Err(error) => {
            drop(outputs);
            Err(error)
        }
    }
}

/// Runs a scan that did nothing yet on a new session over the source. Whatever it gives, nothing is in flight at the
/// source afterwards.
pub fn run_over<S: SegmentSource>(
    alloc: Global,
    plans: &ScanPlans,
    scan: Scan<'_>,
    source: &mut S,
) -> Finished
    requires plans { ArePlans plans.now }
    requires unread { IsUnread scan }
    requires handed { scan.progress.reads.handed ≡ 0 }
    ensures { Finishes plans.now.locations.items plans.now.idle_limit scan.entry result (S.state source.old) (S.state source.new) }
{
    let mut session = SegmentIoSource::new(alloc, source, &plans.ranges);
    let mut adaptor = ScanAdaptor::new(alloc, scan, plans.locations.as_slice());
    let output = run(alloc, &mut adaptor, &mut session, plans.idle_limit);
    session.clear();
    let _source = session.into_source();
    Finished {
        output,
        kept: adaptor.into_scan().into_kept(),
    }
}
