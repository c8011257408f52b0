//! A source of segments over a file that lies in memory, which keeps to a script: which requests and polls
//! fail, how long each read waits, and in which order the reads end. It stands in for slow and failing
//! storage.

ghost use Rattle.std.specs.Prelude.{◌≡◌, ◌↔◌, ℕ, ◌+◌, ◌-◌, ◌^◌, ◌⊎◌, [], Some, None, IsSome, IfSome, IfOk, OnErr, IsTrue, is_some, MatchOption, Contains, false};
ghost use Rattle.vx_outside.specs.ScriptSources.{waits_left, polled_once};
ghost use Rattle.vx_outside.specs.Sources.{RequestGives, PollGives, Cleared, location_of, bytes_at};
ghost use Rattle.vx_outside.specs.Faults.{FailsWhere, CountsFaults};

use crate::locations::{AskedRange, SegmentLocation};
use crate::memory_sources::MemorySource;
use crate::outside::{SegmentSource, SourceError};
use std::alloc::Global;

/// What a [`ScriptSource`] does beside reading its file. Requests and polls are numbered from 0 on over
/// the source's life, and so are its tickets; a call that lacks memory has no number.
#[derive(Drop)]
pub struct Script {
    /// The numbers of the requests that fail.
    pub fail_requests: Vec<u64>,
    /// The numbers of the polls that fail.
    pub fail_polls: Vec<u64>,
    /// At the place of each ticket, how many of its first polls find nothing. A ticket behind the list's
    /// end doesn't wait.
    pub waits: Vec<u64>,
    /// The order of the tickets: nothing is found of a ticket while one before its first place here is in
    /// flight. A ticket that isn't listed waits for none.
    pub order: Vec<u64>,
}

/// A file in memory as a source that keeps to a script. It remembers each range that it was asked for.
#[derive(Drop)]
pub struct ScriptSource {
    memory: MemorySource,
    script: Script,
    next_request: u64,
    next_poll: u64,
}

impl ScriptSource {
    ghost use Rattle.vx_outside.specs.ScriptSources.{script_state, script_left, request_counted, poll_counted, held_up, Waits, CountsIdle, tickets_started};

    /// The source of a file, of which nothing was asked. It takes no memory.
    pub fn new(alloc: Global, file: Vec<u8>, script: Script) -> ScriptSource
        ensures state { script_state result ≡ record { file = Some file.items; asked = Some []; in_flight = []; faults = 0; idle = 0 } }
        ensures script { script_left result ≡ record { fail_requests = script.fail_requests.items; fail_polls = script.fail_polls.items; waits = script.waits.items; order = script.order.items; next_request = 0; next_poll = 0 } }
        ensures tickets { tickets_started result ≡ 0 }
    {
        ScriptSource {
            memory: MemorySource::new(alloc, file),
            script,
            next_request: 0,
            next_poll: 0,
        }
    }

    /// The ranges that were asked for, in the order of the requests. A request that fails asks for nothing.
    pub fn asked(&self) -> &[AskedRange]
        ensures { (script_state self.now).asked ≡ Some result.now }
    {
        self.memory.asked()
    }

    /// How many requests and polls failed, up to `u64::MAX`.
    pub fn faults(&self) -> u64
        ensures { result ≡ (script_state self.now).faults }
    {
        self.memory.faults()
    }

    /// How many polls found a read that goes on, up to `u64::MAX`.
    pub fn idle(&self) -> u64
        ensures { result ≡ (script_state self.now).idle }
    {
        self.memory.idle()
    }

    /// Whether a ticket is in flight: its read was started, and neither ended nor was cleared.
    pub fn is_in_flight(&self, ticket: u64) -> bool
        ensures { result ≡ is_some (location_of ticket (script_state self.now).in_flight) }
    {
        self.memory.is_in_flight(ticket)
    }

    /// Whether the next poll of a ticket in flight fails.
    fn fails_poll(&self, ticket: u64) -> bool
        requires { IsSome (location_of ticket (script_state self.now).in_flight) }
        ensures { IfSome (location_of ticket (script_state self.now).in_flight)
            (λ at. IfSome (script_state self.now).file (λ file.
            IsTrue result ↔ (Contains (script_left self.now).fail_polls (script_left self.now).next_poll ⊎ (bytes_at file at ≡ None)))) }
    {
        self.script.fail_polls.contains(&self.next_poll) || !self.memory.is_inside(ticket)
    }

    /// Whether a ticket that stands earlier in the order is in flight.
    #[tactic(auto, using(crate::proofs::ScriptTurns::held_step))]
    fn is_held_up(&self, ticket: u64) -> bool
        ensures { result ≡ held_up (script_state self.now).in_flight ticket false (script_left self.now).order }
    {
        let mut is_held_up = false;
        for other in self.script.order.as_slice() {
            if *other == ticket {
                return is_held_up;
            }
            if self.is_in_flight(*other) {
                is_held_up = true;
            }
        }
        false
    }

    /// Whether the next poll of a ticket finds nothing, by the script.
    #[tactic(auto, using(crate::proofs::ScriptTurns::held_up_is))]
    fn waits(&self, ticket: u64) -> bool
        ensures { IsTrue result ↔ Waits (script_left self.now) (script_state self.now).in_flight ticket }
    {
        wait_of(self.script.waits.as_slice(), ticket) > 0 || self.is_held_up(ticket)
    }

    /// What a poll does, but that it does not count it.
    #[tactic(auto, using(crate::proofs::ScriptTurns::fails_else))]
    fn answer(&mut self, ticket: u64) -> Result<Option<Vec<u8>>, SourceError>
        requires { IsSome (location_of ticket (script_state self.old).in_flight) }
        ensures gives { PollGives result ticket (script_state self.old) (script_state self.new) }
        ensures fails { IfSome (location_of ticket (script_state self.old).in_flight)
            (λ at. IfSome (script_state self.old).file (λ file.
            FailsWhere result (Contains (script_left self.old).fail_polls (script_left self.old).next_poll ⊎ (bytes_at file at ≡ None)))) }
        ensures waits { IfOk result (λ bytes. MatchOption bytes
            (Waits (script_left self.old) (script_state self.old).in_flight ticket)
            (λ _. ¬ Waits (script_left self.old) (script_state self.old).in_flight ticket)) }
        ensures faults { CountsFaults result (script_state self.old).faults (script_state self.new).faults }
        ensures idle { CountsIdle result (script_state self.old).idle (script_state self.new).idle }
        ensures script { script_left self.new ≡ script_left self.old }
        ensures tickets { tickets_started self.new ≡ tickets_started self.old }
    {
        if self.fails_poll(ticket) {
            self.memory.fail_poll(ticket);
            return Err(SourceError::Failed);
        }
        if self.waits(ticket) {
            self.memory.wait();
            return Ok(None);
        }
        self.memory.poll(ticket)
    }

    /// Counts a request.
    fn count_request(&mut self)
        ensures script { script_left self.new ≡ request_counted (script_left self.old) }
        ensures state { script_state self.new ≡ script_state self.old }
        ensures tickets { tickets_started self.new ≡ tickets_started self.old }
    {
        self.next_request = self.next_request.saturating_add(1);
    }

    /// Counts a poll of a ticket.
    fn count_poll(&mut self, ticket: u64)
        ensures script { script_left self.new ≡ poll_counted ticket (script_left self.old) }
        ensures state { script_state self.new ≡ script_state self.old }
        ensures tickets { tickets_started self.new ≡ tickets_started self.old }
    {
        wait_less(&mut self.script.waits, ticket);
        self.next_poll = self.next_poll.saturating_add(1);
    }
}

/// At how many of its next polls nothing is found of a ticket.
#[tactic(auto, using(crate::proofs::ScriptTurns::waits_listed, crate::proofs::ScriptTurns::waits_unlisted))]
fn wait_of(waits: &[u64], ticket: u64) -> u64
    ensures { result ≡ waits_left waits.now ticket }
{
    let place = ticket as usize;
    if place < waits.len() { waits[place] } else { 0 }
}

/// Takes one poll off the wait of a ticket.
#[tactic(auto, using(crate::proofs::ScriptTurns::polled_listed, crate::proofs::ScriptTurns::polled_unlisted))]
fn wait_less(waits: &mut Vec<u64>, ticket: u64)
    ensures { waits.new.items ≡ polled_once waits.old.items ticket }
{
    let place = ticket as usize;
    if place < waits.len() {
        waits[place] = waits[place].saturating_sub(1);
    }
}

impl SegmentSource for ScriptSource {
    ghost use Rattle.vx_outside.specs.ScriptSources.{script_state, script_left, request_counted, poll_counted, LeavesOf, CountsIdle, Waits, tickets_started};

    ghost state = { script_state };

    /// Starts a read and records its range. `Failed` says that the script lists this request, or that no
    /// ticket is left. After an error nothing is recorded.
    fn request(&mut self, id: u32, at: SegmentLocation) -> Result<u64, SourceError>
        ensures gives { RequestGives result at (script_state self.old) (script_state self.new) }
        ensures fails { FailsWhere result (Contains (script_left self.old).fail_requests (script_left self.old).next_request ⊎ (tickets_started self.old ≡ 2 ^ 64 - 1)) }
        ensures ticket { IfOk result (λ ticket. ticket ≡ tickets_started self.old) }
        ensures counted { IfOk result (λ _. tickets_started self.new ≡ tickets_started self.old + 1) }
        ensures not_counted { OnErr result (tickets_started self.new ≡ tickets_started self.old) }
        ensures not_asked { OnErr result ((script_state self.new).asked ≡ (script_state self.old).asked) }
        ensures faults { CountsFaults result (script_state self.old).faults (script_state self.new).faults }
        ensures script { LeavesOf result request_counted (script_left self.old) (script_left self.new) }
    {
        if self.script.fail_requests.contains(&self.next_request) {
            self.memory.fail();
            self.count_request();
            return Err(SourceError::Failed);
        }
        match self.memory.request(id, at) {
            Ok(ticket) => {
                self.count_request();
                Ok(ticket)
            }
            Err(SourceError::Failed) => {
                self.count_request();
                Err(SourceError::Failed)
            }
            Err(SourceError::Memory) => Err(SourceError::Memory),
        }
    }

    /// Asks how a read goes. `Failed` says that the script lists this poll, or that the read's range does
    /// not lie inside the file, which it says at once, also where the script lets the read wait; `None` that by
    /// the script the read still waits. Every poll of a ticket counts towards its wait, also one that found
    /// nothing because of the order.
    fn poll(&mut self, ticket: u64) -> Result<Option<Vec<u8>>, SourceError>
        requires { IsSome (location_of ticket (script_state self.old).in_flight) }
        ensures gives { PollGives result ticket (script_state self.old) (script_state self.new) }
        ensures fails { IfSome (location_of ticket (script_state self.old).in_flight)
            (λ at. IfSome (script_state self.old).file (λ file.
            FailsWhere result (Contains (script_left self.old).fail_polls (script_left self.old).next_poll ⊎ (bytes_at file at ≡ None)))) }
        ensures waits { IfOk result (λ bytes. MatchOption bytes
            (Waits (script_left self.old) (script_state self.old).in_flight ticket)
            (λ _. ¬ Waits (script_left self.old) (script_state self.old).in_flight ticket)) }
        ensures faults { CountsFaults result (script_state self.old).faults (script_state self.new).faults }
        ensures idle { CountsIdle result (script_state self.old).idle (script_state self.new).idle }
        ensures script { LeavesOf result (poll_counted ticket) (script_left self.old) (script_left self.new) }
        ensures tickets { tickets_started self.new ≡ tickets_started self.old }
    {
        match self.answer(ticket) {
            Ok(bytes) => {
                self.count_poll(ticket);
                Ok(bytes)
            }
            Err(SourceError::Failed) => {
                self.count_poll(ticket);
                Err(SourceError::Failed)
            }
            Err(SourceError::Memory) => Err(SourceError::Memory),
        }
    }

    /// Forgets the reads in flight. Counts, asks, the script and the next ticket stay.
    fn clear(&mut self)
        ensures cleared { Cleared (script_state self.old) (script_state self.new) }
        ensures script { script_left self.new ≡ script_left self.old }
        ensures tickets { tickets_started self.new ≡ tickets_started self.old }
    {
        self.memory.clear();
    }
}
