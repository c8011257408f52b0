//! A source of segments over a file that lies in memory, whose reads wait at a gate: until so many requests were made of
//! all sources that share it. It shows, in tests, which workers run side by side.

ghost use Rattle.std.specs.Prelude.{◌≡◌, ◌^◌, ◌+◌, ◌-◌, [], Some, None, IsSome, IfSome, IfOk, OnErr, false};
ghost use Rattle.std.specs.Arc.{arc_value};
ghost use Rattle.vx_outside.specs.GateSources.{AddsOf, gate_adds, gate_state, gate_tickets, gate_wanted, IfItWaits, gate_waits};
ghost use Rattle.vx_outside.specs.Sources.{RequestGives, PollGives, Cleared, location_of, bytes_at};
ghost use Rattle.vx_outside.specs.Faults.{FailsWhere, CountsFaults};
ghost use Rattle.vx_outside.specs.ScriptSources.{CountsIdle};

use crate::locations::{AskedRange, SegmentLocation};
use crate::memory_sources::MemorySource;
use crate::outside::{SegmentSource, SourceError};
use std::alloc::{AllocError, Global};
use std::sync::Arc;
use std::sync::atomic::{AtomicU64, Ordering};

/// A counter that sources share: how many requests were added to it, from 0 on. It opens once so many were as are
/// wanted.
#[derive(Drop)]
pub struct Gate {
    added: AtomicU64,
    wanted: u64,
}

impl Gate {
    /// A gate to which nothing was added, and which opens at the wanted number of requests.
    pub fn new(alloc: Global, wanted: u64) -> Result<Arc<Gate, Global>, AllocError>
        ensures wanted { IfOk result (λ gate. gate_wanted (arc_value gate) ≡ wanted) }
    {
        let gate = Gate {
            added: AtomicU64::new(0),
            wanted,
        };
        Ok(Arc::new(alloc, gate)?)
    }

    /// Adds a request.
    fn add(&self) {
        self.added.fetch_add(1, Ordering::SeqCst);
    }

    /// Whether as many requests were added as are wanted.
    fn is_open(&self) -> bool {
        self.added.load(Ordering::SeqCst) >= self.wanted
    }
}

/// A file in memory as a source whose requests add to a gate, and whose reads may wait for it. It remembers each range
/// that it was asked for.
#[derive(Drop)]
pub struct GateSource {
    memory: MemorySource,
    gate: Arc<Gate, Global>,
    adds: u64,
    waits: bool,
}

impl GateSource {
    /// The source of a file, of which nothing was asked. Each of its first `adds` requests, one that lacks memory apart,
    /// adds one to the gate; where it waits, its reads go on until the gate is open. It takes no memory.
    pub fn new(
        alloc: Global,
        file: Vec<u8>,
        gate: Arc<Gate, Global>,
        adds: u64,
        waits: bool,
    ) -> GateSource
        ensures state { gate_state result ≡ record { file = Some file.items; asked = Some []; in_flight = []; faults = 0; idle = 0 } }
        ensures tickets { gate_tickets result ≡ 0 }
        ensures adds { gate_adds result ≡ adds }
        ensures waits { gate_waits result ≡ waits }
    {
        GateSource {
            memory: MemorySource::new(alloc, file),
            gate,
            adds,
            waits,
        }
    }

    /// The ranges that were asked for, in the order of the requests. A request that fails asks for nothing.
    pub fn asked(&self) -> &[AskedRange]
        ensures { (gate_state self.now).asked ≡ Some result.now }
    {
        self.memory.asked()
    }

    /// How many requests and polls failed, up to `u64::MAX`.
    pub fn faults(&self) -> u64
        ensures { result ≡ (gate_state self.now).faults }
    {
        self.memory.faults()
    }

    /// How many polls found a read that goes on, up to `u64::MAX`.
    pub fn idle(&self) -> u64
        ensures { result ≡ (gate_state self.now).idle }
    {
        self.memory.idle()
    }

    /// Adds a request to the gate, if it is one of the first.
    fn count_request(&mut self)
        ensures state { gate_state self.new ≡ gate_state self.old }
        ensures tickets { gate_tickets self.new ≡ gate_tickets self.old }
        ensures adds { gate_adds self.new ≡ gate_adds self.old - 1 }
        ensures waits { gate_waits self.new ≡ gate_waits self.old }
    {
        if self.adds > 0 {
            self.adds -= 1;
            self.gate.add();
        }
    }
}

impl SegmentSource for GateSource {
    ghost state = { gate_state };

    /// Starts a read and records its range. `Failed` says that no ticket is left.
    fn request(&mut self, id: u32, at: SegmentLocation) -> Result<u64, SourceError>
        ensures gives { RequestGives result at (gate_state self.old) (gate_state self.new) }
        ensures no_ticket_left { FailsWhere result (gate_tickets self.old ≡ 2 ^ 64 - 1) }
        ensures ticket { IfOk result (λ ticket. ticket ≡ gate_tickets self.old) }
        ensures counted { IfOk result (λ _. gate_tickets self.new ≡ gate_tickets self.old + 1) }
        ensures not_counted { OnErr result (gate_tickets self.new ≡ gate_tickets self.old) }
        ensures not_asked { OnErr result ((gate_state self.new).asked ≡ (gate_state self.old).asked) }
        ensures faults { CountsFaults result (gate_state self.old).faults (gate_state self.new).faults }
        ensures adds { AddsOf result (gate_adds self.old) (gate_adds self.new) }
        ensures waits { gate_waits self.new ≡ gate_waits self.old }
    {
        match self.memory.request(id, at) {
            Ok(ticket) => {
                self.count_request();
                Ok(ticket)
            }
            Err(SourceError::Failed) => {
                self.count_request();
                Err(SourceError::Failed)
            }
            Err(SourceError::Memory) => Err(SourceError::Memory),
        }
    }

    /// Ends a read, or finds that it waits for the gate. `Failed` says that its range does not lie inside the file.
    fn poll(&mut self, ticket: u64) -> Result<Option<Vec<u8>>, SourceError>
        requires { IsSome (location_of ticket (gate_state self.old).in_flight) }
        ensures gives { PollGives result ticket (gate_state self.old) (gate_state self.new) }
        ensures ends { IfItWaits (gate_waits self.old) result }
        ensures outside_the_file { IfSome (location_of ticket (gate_state self.old).in_flight)
            (λ at. IfSome (gate_state self.old).file (λ file. FailsWhere result (bytes_at file at ≡ None))) }
        ensures faults { CountsFaults result (gate_state self.old).faults (gate_state self.new).faults }
        ensures idle { CountsIdle result (gate_state self.old).idle (gate_state self.new).idle }
        ensures tickets { gate_tickets self.new ≡ gate_tickets self.old }
        ensures adds { gate_adds self.new ≡ gate_adds self.old }
        ensures waits { gate_waits self.new ≡ gate_waits self.old }
    {
        if self.waits && !self.gate.is_open() && self.memory.is_inside(ticket) {
            self.memory.wait();
            return Ok(None);
        }
        self.memory.poll(ticket)
    }

    /// Forgets the reads in flight. Counts, asks, the gate and the next ticket stay.
    fn clear(&mut self)
        ensures cleared { Cleared (gate_state self.old) (gate_state self.new) }
        ensures tickets { gate_tickets self.new ≡ gate_tickets self.old }
        ensures adds { gate_adds self.new ≡ gate_adds self.old }
        ensures waits { gate_waits self.new ≡ gate_waits self.old }
    {
        self.memory.clear();
    }
}
