//! A source of segments over a file that lies in memory. It answers every read at the first poll.

ghost use Rattle.std.specs.Prelude.{◌≡◌, ◌↔◌, ℕ, ◌+◌, ◌-◌, ◌^◌, [], Some, None, IsSome, IfSome, IfOk, OnErr, IsTrue, is_some, option_map, length};
ghost use Rattle.std.specs.Option.{option_and_then};
ghost use Rattle.vx_outside.specs.Sources.{RequestGives, PollGives, Cleared, Rose, location_of, bytes_at};
ghost use Rattle.vx_outside.specs.Faults.{FailsWhere, CountsFaults};

use crate::in_flight::InFlight;
use crate::locations::{AskedRange, SegmentLocation};
use crate::outside::{SegmentSource, SourceError};
use std::alloc::Global;

/// A file in memory as a source. It remembers each range that it was asked for.
#[derive(Drop)]
pub struct MemorySource {
    alloc: Global,
    file: Vec<u8>,
    asked: Vec<AskedRange>,
    in_flight: InFlight,
    faults: u64,
    idle: u64,
}

impl MemorySource {
    ghost use Rattle.vx_outside.specs.MemorySources.{memory_state, tickets_given, fault_counted, read_failed, idle_counted};

    /// The source of a file, of which nothing was asked. It takes no memory.
    pub fn new(alloc: Global, file: Vec<u8>) -> MemorySource
        ensures state { memory_state result ≡ record { file = Some file.items; asked = Some []; in_flight = []; faults = 0; idle = 0 } }
        ensures tickets { tickets_given result ≡ 0 }
    {
        MemorySource {
            alloc,
            file,
            asked: Vec::new(alloc),
            in_flight: InFlight::new(alloc),
            faults: 0,
            idle: 0,
        }
    }

    /// The ranges that were asked for, in the order of the requests.
    pub fn asked(&self) -> &[AskedRange]
        ensures { (memory_state self.now).asked ≡ Some result.now }
    {
        self.asked.as_slice()
    }

    /// How many requests and polls failed, up to `u64::MAX`.
    pub fn faults(&self) -> u64
        ensures { result ≡ (memory_state self.now).faults }
    {
        self.faults
    }

    /// How many polls found a read that goes on, up to `u64::MAX`. This source ends every read at its
    /// first poll, so there are none where nothing else stands over it.
    pub fn idle(&self) -> u64
        ensures { result ≡ (memory_state self.now).idle }
    {
        self.idle
    }

    /// Whether a ticket is in flight.
    pub(crate) fn is_in_flight(&self, ticket: u64) -> bool
        ensures { result ≡ is_some (location_of ticket (memory_state self.now).in_flight) }
    {
        self.in_flight.location(ticket).is_some()
    }

    /// Whether the range of a read in flight lies inside the file.
    pub(crate) fn is_inside(&self, ticket: u64) -> bool
        requires { IsSome (location_of ticket (memory_state self.now).in_flight) }
        ensures { IfSome (location_of ticket (memory_state self.now).in_flight)
            (λ at. IfSome (memory_state self.now).file (λ file. IsTrue result ↔ IsSome (bytes_at file at))) }
    {
        let at = self.in_flight.location(ticket).unwrap();
        bytes_of(self.file.as_slice(), at).is_some()
    }

    /// Counts a fault.
    pub(crate) fn fail(&mut self)
        ensures state { memory_state self.new ≡ fault_counted (memory_state self.old) }
        ensures rises { Rose (memory_state self.old).faults (memory_state self.new).faults }
        ensures tickets { tickets_given self.new ≡ tickets_given self.old }
    {
        self.faults = self.faults.saturating_add(1);
    }

    /// Ends a read, and counts a fault.
    pub(crate) fn fail_poll(&mut self, ticket: u64)
        ensures state { memory_state self.new ≡ read_failed ticket (memory_state self.old) }
        ensures rises { Rose (memory_state self.old).faults (memory_state self.new).faults }
        ensures tickets { tickets_given self.new ≡ tickets_given self.old }
    {
        self.in_flight.end(ticket);
        self.faults = self.faults.saturating_add(1);
    }

    /// Counts a poll that found nothing.
    pub(crate) fn wait(&mut self)
        ensures state { memory_state self.new ≡ idle_counted (memory_state self.old) }
        ensures rises { Rose (memory_state self.old).idle (memory_state self.new).idle }
        ensures tickets { tickets_given self.new ≡ tickets_given self.old }
    {
        self.idle = self.idle.saturating_add(1);
    }
}

impl SegmentSource for MemorySource {
    ghost use Rattle.vx_outside.specs.MemorySources.{memory_state, tickets_given};

    ghost state = { memory_state };

    /// Starts a read and records its range. `Failed` says that no ticket is left. After an error
    /// nothing is recorded.
    fn request(&mut self, _id: u32, at: SegmentLocation) -> Result<u64, SourceError>
        ensures gives { RequestGives result at (memory_state self.old) (memory_state self.new) }
        ensures no_ticket_left { FailsWhere result (tickets_given self.old ≡ 2 ^ 64 - 1) }
        ensures ticket { IfOk result (λ ticket. ticket ≡ tickets_given self.old) }
        ensures counted { IfOk result (λ _. tickets_given self.new ≡ tickets_given self.old + 1) }
        ensures not_counted { OnErr result (tickets_given self.new ≡ tickets_given self.old) }
        ensures not_asked { OnErr result ((memory_state self.new).asked ≡ (memory_state self.old).asked) }
        ensures faults { CountsFaults result (memory_state self.old).faults (memory_state self.new).faults }
    {
        if self.in_flight.is_used_up() {
            self.faults = self.faults.saturating_add(1);
            return Err(SourceError::Failed);
        }
        let before = self.asked.len();
        let range = AskedRange {
            offset: at.offset,
            length: at.length,
        };
        if self.asked.push(range).is_err() {
            return Err(SourceError::Memory);
        }
        let started = self.in_flight.start(at);
        if started.is_err() {
            self.asked.truncate(before);
        }
        started
    }

    /// Ends a read. `Failed` says that its range does not lie inside the file.
    fn poll(&mut self, ticket: u64) -> Result<Option<Vec<u8>>, SourceError>
        requires { IsSome (location_of ticket (memory_state self.old).in_flight) }
        ensures gives { PollGives result ticket (memory_state self.old) (memory_state self.new) }
        ensures ends { IfOk result (λ bytes. IsSome bytes) }
        ensures outside_the_file { IfSome (location_of ticket (memory_state self.old).in_flight)
            (λ at. IfSome (memory_state self.old).file (λ file. FailsWhere result (bytes_at file at ≡ None))) }
        ensures faults { CountsFaults result (memory_state self.old).faults (memory_state self.new).faults }
        ensures tickets { tickets_given self.new ≡ tickets_given self.old }
    {
        let at = self.in_flight.location(ticket).unwrap();
        let Some(bytes) = bytes_of(self.file.as_slice(), at) else {
            self.in_flight.end(ticket);
            self.faults = self.faults.saturating_add(1);
            return Err(SourceError::Failed);
        };
        let Ok(bytes) = bytes.to_vec(self.alloc) else {
            return Err(SourceError::Memory);
        };
        self.in_flight.end(ticket);
        Ok(Some(bytes))
    }

    /// Forgets the reads in flight. Counts, asks and the next ticket stay.
    fn clear(&mut self)
        ensures cleared { Cleared (memory_state self.old) (memory_state self.new) }
        ensures tickets { tickets_given self.new ≡ tickets_given self.old }
    {
        self.in_flight.clear();
    }
}

/// The bytes of a location, if it lies inside the file.
fn bytes_of(file: &[u8], at: SegmentLocation) -> Option<&[u8]>
    ensures { option_map (λ bytes. bytes.now) result ≡ bytes_at file.now at }
{
    let end = at.offset.checked_add(u64::from(at.length))?;
    if end > file.len() as u64 {
        return None;
    }
    Some(&file[at.offset as usize..end as usize])
}
