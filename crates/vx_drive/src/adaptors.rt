//! The adaptor between a polled scan and a session: each read of the scan becomes one fetch.

ghost use Rattle.std.specs.Prelude.{◌≡◌, ◌+◌, ◌^◌, ◌<◌, ◌≤◌, length};
ghost use Rattle.vx_drive.specs.AdaptorData.{IsReady};
ghost use Rattle.vx_drive.specs.Computes.{after_result};
ghost use Rattle.vx_drive.specs.Batched.{IsNoRead, StepOf};
ghost use Rattle.vx_base.specs.Limits.{most_segments};

use crate::adaptor_errors::AdaptorError;
use crate::batching::batch_fetches;
use std::alloc::Global;
use std::mem::replace;
use vx_base::{Column, SegmentLocation};
use vx_io::{IoRequest, IoRequestId};
use vx_steps::{ReadId, Scan, Turn};

/// What an adaptor does next.
#[derive(Clone, Copy, Debug, PartialEq, Eq)]
pub enum State {
    /// A computation may give a step.
    NeedsCompute,
    /// The last computation found nothing to do before a result comes.
    Waiting,
    /// All outputs were handed on, or a computation was refused.
    Done,
}

impl State {
    /// The state once a result came.
    fn after_result(self) -> State
        ensures { result ≡ after_result self }
    {
        match self {
            State::Waiting => State::NeedsCompute,
            other => other,
        }
    }
}

/// What a computation of an adaptor gave.
#[derive(Drop)]
pub enum AdaptorStep {
    /// The scan waits or is done, or an earlier computation was refused.
    Yield,
    /// The fetches of the reads that followed one another, in their order.
    NeedsIo(Vec<IoRequest>),
    /// The scan's next output: the column of selected rows of a split.
    Piece(Column),
}

/// The step that a batch and the turn behind it make. An output behind a batch is held.
fn step_of(
    batch: Vec<IoRequest>,
    turn: Turn,
    held: &mut Option<(usize, Column)>,
    state: &mut State,
) -> AdaptorStep
    requires { IsNoRead turn }
    ensures { StepOf batch turn result held.new state.new }
{
    drop(held.take());
    *state = State::NeedsCompute;
    let is_empty = batch.is_empty();
    match turn {
        Turn::Output(split, column) => {
            if is_empty {
                return AdaptorStep::Piece(column);
            }
            drop(replace(held, Some((split, column))));
            AdaptorStep::NeedsIo(batch)
        }
        Turn::Waiting => {
            if is_empty {
                *state = State::Waiting;
                return AdaptorStep::Yield;
            }
            AdaptorStep::NeedsIo(batch)
        }
        Turn::Done => {
            if is_empty {
                *state = State::Done;
                return AdaptorStep::Yield;
            }
            AdaptorStep::NeedsIo(batch)
        }
        Turn::Read(_) => unreachable!(),
    }
}

/// A scan whose reads are handed out as fetches: fetch `n` is the `n`-th read of the scan behind the `first` ones, which it
/// handed out before the adaptor was made, counted from 0. An output that came behind a batch of fetches is held, with the
/// number of its split, until it is handed on.
#[derive(Drop)]
pub struct ScanAdaptor<'a> {
    alloc: Global,
    scan: Scan<'a>,
    locations: &'a [SegmentLocation],
    first: u64,
    asked: u64,
    held: Option<(usize, Column)>,
    state: State,
    ghost few: { length locations.now ≤ most_segments },
    ghost fits: { first + asked < 2 ^ 64 },
    ghost ready: { IsReady locations.now state first asked scan.progress.reads },
}

impl<'a> ScanAdaptor<'a> {
    ghost use Rattle.std.specs.Prelude.{None};
    ghost use Rattle.vx_drive.specs.declared.adaptors.State.TheVariants as states;
    ghost use Rattle.vx_drive.specs.Adaptors.{adaptor_data};
    ghost use Rattle.vx_drive.specs.Computes.{ComputeGives, ResultGives};

    /// An adaptor of a scan, and of where each segment lies, by the segment's number. Reads that the scan handed out before
    /// are not the adaptor's: it makes no fetch of them, and takes no bytes for them. It takes no memory.
    pub fn new(alloc: Global, scan: Scan<'a>, locations: &'a [SegmentLocation]) -> ScanAdaptor<'a>
        requires few { length locations.now ≤ most_segments }
        ensures locations { result.locations.now ≡ locations.now }
        ensures scan { (adaptor_data result).scan ≡ scan.entry }
        ensures first { (adaptor_data result).first ≡ scan.entry.progress.reads.handed }
        ensures asked { (adaptor_data result).asked ≡ 0 }
        ensures held { (adaptor_data result).held ≡ None }
        ensures state { (adaptor_data result).state ≡ states.NeedsCompute }
    {
        let first = scan.reads_handed_out();
        ScanAdaptor {
            alloc,
            scan,
            locations,
            first,
            asked: 0,
            held: None,
            state: State::NeedsCompute,
        }
    }

    /// What the adaptor does next.
    pub fn state(&self) -> State
        ensures { result ≡ (adaptor_data self.now).state }
    {
        self.state
    }

    /// The scan inside, as the steps and results left it. It takes no memory.
    pub fn scan(&self) -> &Scan<'a>
        ensures { result.now ≡ (adaptor_data self.now).scan }
    {
        &self.scan
    }

    /// Ends the adaptor, and gives the scan inside.
    pub(crate) fn into_scan(self) -> Scan<'a>
        ensures { result ≡ (adaptor_data self.entry).scan }
    {
        let ScanAdaptor { scan, held, .. } = self;
        drop(held);
        scan
    }

    /// The next step: the fetches of the reads that follow one another, up to an output or until the scan waits; or the
    /// scan's next output; or none, where the scan waits or is done.
    ///
    /// # Errors
    ///
    /// `NoLocation` names a segment that the scan reads and that has no location, `Step` is the scan's refusal of a step,
    /// and `Memory` is want of memory, the scan's own included. After each of them the adaptor is done, and no fetch is
    /// made of the reads that the scan handed out before it in the same call.
    pub fn compute(&mut self) -> Result<AdaptorStep, AdaptorError>
        ensures locations { self.new.locations.now ≡ self.old.locations.now }
        ensures gives { ComputeGives self.old.locations.now result (adaptor_data self.old) (adaptor_data self.new) }
    {
        if self.state == State::Done {
            return Ok(AdaptorStep::Yield);
        }
        if let Some((_, column)) = self.held.take() {
            self.state = State::NeedsCompute;
            return Ok(AdaptorStep::Piece(column));
        }
        let mut batch = Vec::new(self.alloc);
        match batch_fetches(&mut self.scan, self.locations, self.first, &mut batch) {
            Ok(turn) => {
                self.asked += batch.len() as u64;
                Ok(step_of(batch, turn, &mut self.held, &mut self.state))
            }
            Err(error) => {
                self.state = State::Done;
                Err(error)
            }
        }
    }

    /// Takes the bytes of a fetch that is outstanding, and hands them to the read that the fetch was made for. It takes no
    /// memory.
    ///
    /// # Errors
    ///
    /// `NotOutstanding` where the adaptor handed out no fetch of that number, or its bytes came already. Then all is as
    /// before.
    pub fn set_io_result(
        &mut self,
        request: IoRequestId,
        bytes: Vec<u8>,
    ) -> Result<(), AdaptorError>
        ensures locations { self.new.locations.now ≡ self.old.locations.now }
        ensures gives { ResultGives result request.0 bytes.items (adaptor_data self.old) (adaptor_data self.new) }
    {
        let number = u64::from(request.0);
        if number >= self.asked {
            return Err(AdaptorError::NotOutstanding);
        }
        match self.scan.deliver(ReadId(self.first + number), bytes) {
            Ok(()) => {
                self.state = self.state.after_result();
                Ok(())
            }
            Err(_) => Err(AdaptorError::NotOutstanding),
        }
    }
}
