//! The reads that a source has started and that have not ended: the one table that every source keeps.

ghost use Rattle.std.specs.Prelude.{◌≡◌, ◌↔◌, ◌+◌, ◌-◌, ◌^◌, [], ◌∷◌, ◌++◌, None, IfOk, OnErr, IsTrue};
ghost use Rattle.vx_outside.specs.Sources.{location_of, without};
ghost use Rattle.vx_outside.specs.Faults.{FailsWhere};

use crate::locations::SegmentLocation;
use crate::outside::SourceError;
use std::alloc::Global;
use std::collections::BTreeMap;
use std::marker::Model;

/// The reads in flight, each a ticket and the location that it reads. Tickets are numbered from 0
/// on, and none is ever given twice. They are kept in order, so that a read ends in log n steps wherever it
/// stands.
#[derive(Drop)]
pub(crate) struct InFlight {
    reads: BTreeMap<u64, SegmentLocation>,
    next: u64,
}

impl Model for InFlight {
    ghost use Rattle.vx_outside.specs.InFlight.{Flights, AllGiven};

    ghost Value = { Flights };

    ghost view = { λ table. record { reads = table.reads.entries; next = table.next } };

    ghost invariant = { λ table. AllGiven table.reads.entries table.next };
}

impl InFlight {
    /// An empty table, whose first ticket is 0. It takes no memory.
    pub(crate) fn new(alloc: Global) -> InFlight
        ensures empty { result.reads ≡ [] }
        ensures from_zero { result.next ≡ 0 }
    {
        InFlight {
            reads: BTreeMap::new(alloc),
            next: 0,
        }
    }

    /// Whether no ticket is left to give.
    pub(crate) fn is_used_up(&self) -> bool
        ensures { IsTrue result ↔ (self.now.next ≡ 2 ^ 64 - 1) }
    {
        self.next == u64::MAX
    }

    /// Starts the read of a location. `Ok` is its ticket; `Failed` says that no ticket is left, and
    /// after any error the table is as it was.
    pub(crate) fn start(&mut self, at: SegmentLocation) -> Result<u64, SourceError>
        ensures ticket { IfOk result (λ ticket. ticket ≡ self.old.next) }
        ensures fresh { IfOk result (λ ticket. location_of ticket self.old.reads ≡ None) }
        ensures located { IfOk result (λ ticket. location_of ticket self.new.reads ≡ Some at) }
        ensures appended { IfOk result (λ ticket. self.new.reads ≡ self.old.reads ++ (ticket, at) ∷ []) }
        ensures counted { IfOk result (λ _. self.new.next ≡ self.old.next + 1) }
        ensures no_ticket_left { FailsWhere result (self.old.next ≡ 2 ^ 64 - 1) }
        ensures as_before { OnErr result (self.new ≡ self.old) }
    {
        let ticket = self.next;
        if ticket == u64::MAX {
            return Err(SourceError::Failed);
        }
        if self.reads.insert(ticket, at).is_err() {
            return Err(SourceError::Memory);
        }
        self.next = ticket + 1;
        Ok(ticket)
    }

    /// The location of a ticket, if it is in flight.
    pub(crate) fn location(&self, ticket: u64) -> Option<SegmentLocation>
        ensures { result ≡ location_of ticket self.now.reads }
    {
        self.reads.get(&ticket).copied()
    }

    /// Takes a ticket out of the table.
    pub(crate) fn end(&mut self, ticket: u64)
        ensures reads { self.new.reads ≡ without ticket self.old.reads }
        ensures next { self.new.next ≡ self.old.next }
    {
        // The contract of `len` says that the tickets ascend, so that no other read has this one.
        let _in_flight = self.reads.len();
        self.reads.remove(&ticket);
    }

    /// Takes every ticket out of the table.
    pub(crate) fn clear(&mut self)
        ensures reads { self.new.reads ≡ [] }
        ensures next { self.new.next ≡ self.old.next }
    {
        self.reads.clear();
    }
}
