//! The reads that no fetch has taken yet, of one segment and of all.

ghost use Rattle.std.specs.Prelude.{◌≡◌, ◌≢◌, ◌↔◌, ℕ, [], IsTrue, IsFalse, IsSome, OnOk};
ghost use Rattle.std.specs.BTreeMap.{get};
ghost use Rattle.std.specs.Ordering.{nat_cmp};
ghost use Rattle.vx_io.specs.Session.{waiting_reads, nothing_waits, waits, KeepsNothingInVain};
ghost use Rattle.vx_io.specs.Waits.{TakesRequest, TakesFetch, TakesAnnounced, Takes, TakesAt};

use crate::requests::IoIntent;
use std::alloc::Global;
use std::collections::{BTreeMap, VecDeque};
use vx_base::{SegmentLocation, SegmentSource, SourceError};

/// The tickets of the announced reads of a segment, oldest first, and of its prefetched read.
#[derive(Drop)]
pub(crate) struct WaitingReads {
    announced: VecDeque<u64>,
    prefetched: Option<u64>,
}

impl WaitingReads {
    /// No reads. It takes no memory.
    fn new(alloc: Global) -> WaitingReads
        ensures { waiting_reads result ≡ nothing_waits }
    {
        WaitingReads {
            announced: VecDeque::new(alloc),
            prefetched: None,
        }
    }

    /// Starts a read that waits behind the others. Room is made first, so that none is started in vain.
    fn announce<S: SegmentSource>(
        &mut self,
        source: &mut S,
        segment: u32,
        at: SegmentLocation,
    ) -> Result<(), SourceError>
        ensures { TakesRequest IoIntent.Announce at result
            (waiting_reads self.old) (S.state source.old) (waiting_reads self.new) (S.state source.new) }
    {
        if self.announced.reserve(1).is_err() {
            return Err(SourceError::Memory);
        }
        let ticket = source.request(segment, at)?;
        self.announced.push_back_reserved(ticket);
        Ok(())
    }

    /// Takes the oldest announced read, or starts a new one where there is none.
    fn take_announced<S: SegmentSource>(
        &mut self,
        source: &mut S,
        segment: u32,
        at: SegmentLocation,
    ) -> Result<u64, SourceError>
        ensures { TakesAnnounced at result
            (waiting_reads self.old) (S.state source.old) (waiting_reads self.new) (S.state source.new) }
    {
        match self.announced.pop_front() {
            Some(ticket) => Ok(ticket),
            None => source.request(segment, at),
        }
    }

    /// Keeps one read as the prefetched one: the one that is kept already, else the oldest announced one, else
    /// a new one.
    fn prefetch<S: SegmentSource>(
        &mut self,
        source: &mut S,
        segment: u32,
        at: SegmentLocation,
    ) -> Result<(), SourceError>
        ensures { TakesRequest IoIntent.Prefetch at result
            (waiting_reads self.old) (S.state source.old) (waiting_reads self.new) (S.state source.new) }
    {
        if self.prefetched.is_none() {
            let ticket = self.take_announced(source, segment, at)?;
            self.prefetched = Some(ticket);
        }
        Ok(())
    }

    /// The read that a fetch takes: the prefetched one, else the oldest announced one, else a new one.
    fn fetch<S: SegmentSource>(
        &mut self,
        source: &mut S,
        segment: u32,
        at: SegmentLocation,
    ) -> Result<u64, SourceError>
        ensures { TakesFetch at result
            (waiting_reads self.old) (S.state source.old) (waiting_reads self.new) (S.state source.new) }
    {
        match self.prefetched.take() {
            Some(ticket) => Ok(ticket),
            None => self.take_announced(source, segment, at),
        }
    }

    /// Does a request, and gives the read that a fetch takes.
    fn take<S: SegmentSource>(
        &mut self,
        source: &mut S,
        intent: IoIntent,
        segment: u32,
        at: SegmentLocation,
    ) -> Result<Option<u64>, SourceError>
        ensures { Takes intent at result
            (waiting_reads self.old) (S.state source.old) (waiting_reads self.new) (S.state source.new) }
    {
        match intent {
            IoIntent::Announce => self.announce(source, segment, at)?,
            IoIntent::Prefetch => self.prefetch(source, segment, at)?,
            IoIntent::Fetch => {
                let ticket = self.fetch(source, segment, at)?;
                return Ok(Some(ticket));
            }
        }
        Ok(None)
    }

    /// Whether no read waits.
    fn is_empty(&self) -> bool
        ensures { IsTrue result ↔ waiting_reads self.now ≡ nothing_waits }
    {
        self.prefetched.is_none() && self.announced.is_empty()
    }
}

/// The reads that wait at each segment. A segment at which nothing waits isn't kept.
#[derive(Drop)]
pub(crate) struct WaitingTable {
    alloc: Global,
    segments: BTreeMap<u32, WaitingReads>,
}

impl WaitingTable {
    /// No reads. It takes no memory.
    pub(crate) fn new(alloc: Global) -> WaitingTable
        ensures { result.segments.entries ≡ [] }
    {
        WaitingTable {
            alloc,
            segments: BTreeMap::new(alloc),
        }
    }

    /// Makes room for reads at a segment.
    fn make_room(&mut self, segment: u32) -> Result<(), SourceError>
        ensures here { OnOk result (IsSome (get nat_cmp self.new.segments segment)) }
        ensures same { (other : ℕ) → waits self.new.segments other ≡ waits self.old.segments other }
    {
        match self.segments.entry(segment) {
            Ok(entry) => {
                let _reads = entry.or_insert(WaitingReads::new(self.alloc));
                Ok(())
            }
            Err(_) => Err(SourceError::Memory),
        }
    }

    /// Does a request at a segment that there is room for.
    fn take_in<S: SegmentSource>(
        &mut self,
        source: &mut S,
        intent: IoIntent,
        segment: u32,
        at: SegmentLocation,
    ) -> Result<Option<u64>, SourceError>
        requires { IsSome (get nat_cmp self.old.segments segment) }
        ensures here { Takes intent at result
            (waits self.old.segments segment) (S.state source.old) (waits self.new.segments segment) (S.state source.new) }
        ensures others { (other : ℕ) → other ≢ segment →
            get nat_cmp self.new.segments other ≡ get nat_cmp self.old.segments other }
    {
        let reads = self.segments.get_mut(&segment).unwrap();
        reads.take(source, intent, segment, at)
    }

    /// Whether a segment is kept at which nothing waits.
    fn keeps_in_vain(&self, segment: u32) -> bool
        ensures empty { IsTrue result → waits self.now.segments segment ≡ nothing_waits }
        ensures good { IsFalse result → KeepsNothingInVain self.now.segments segment }
    {
        match self.segments.get(&segment) {
            Some(reads) => reads.is_empty(),
            None => false,
        }
    }

    /// Lets go of a segment at which nothing waits.
    fn drop_empty(&mut self, segment: u32)
        ensures same { (other : ℕ) → waits self.new.segments other ≡ waits self.old.segments other }
        ensures gone { KeepsNothingInVain self.new.segments segment }
    {
        if self.keeps_in_vain(segment) {
            self.segments.remove(&segment);
        }
    }

    /// Does a request at its segment, for which room is made first, so that no read is started in vain.
    fn take_with_room<S: SegmentSource>(
        &mut self,
        source: &mut S,
        intent: IoIntent,
        segment: u32,
        at: SegmentLocation,
    ) -> Result<Option<u64>, SourceError>
        ensures { TakesAt intent segment at result
            (waits self.old.segments) (S.state source.old) (waits self.new.segments) (S.state source.new) }
    {
        if self.make_room(segment).is_err() {
            return Err(SourceError::Memory);
        }
        self.take_in(source, intent, segment, at)
    }

    /// Does a request at its segment, and gives the read that a fetch takes. A fetch where nothing waits needs no room.
    /// Nothing is kept of a segment at which nothing waits afterwards, also where the request is refused.
    pub(crate) fn take<S: SegmentSource>(
        &mut self,
        source: &mut S,
        intent: IoIntent,
        segment: u32,
        at: SegmentLocation,
    ) -> Result<Option<u64>, SourceError>
        ensures takes { TakesAt intent segment at result
            (waits self.old.segments) (S.state source.old) (waits self.new.segments) (S.state source.new) }
        ensures gone { KeepsNothingInVain self.new.segments segment }
    {
        if intent == IoIntent::Fetch && !self.segments.contains_key(&segment) {
            let ticket = source.request(segment, at)?;
            return Ok(Some(ticket));
        }
        let taken = self.take_with_room(source, intent, segment, at);
        self.drop_empty(segment);
        taken
    }

    /// Forgets all reads. It takes no memory.
    pub(crate) fn clear(&mut self)
        ensures { self.new.segments.entries ≡ [] }
    {
        self.segments.clear();
    }
}
