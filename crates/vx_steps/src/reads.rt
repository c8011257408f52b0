//! The reads of a scan: which segments it wants, which of them it has handed out, and what came.

ghost use Rattle.std.specs.Prelude.{◌≡◌, ◌⊎◌, ◌-◌, ◌^◌, [], length, map, min, Some, None, OnOk, OnErr, MatchOption};
ghost use Rattle.std.specs.Bool.{MatchBool};
ghost use Rattle.std.specs.BTreeMap.{get};
ghost use Rattle.std.specs.Option.{is_some};
ghost use Rattle.std.specs.Ordering.{nat_cmp};
ghost use Rattle.vx_steps.specs.ReadTable.{AreFound, IsWanted, HandsOut, IsGone, IsNamed, IsOutstanding, DeliversOf, KeepsStored, LetsAllGo, LetsGo, Passes, bytes_of, held_bytes};
ghost use Rattle.vx_steps.specs.ReadTableData.{bytes_in, count_held, is_gone, wanted_data};

use std::alloc::{AllocError, Global};
use std::collections::BTreeMap;
use std::marker::Model;
use std::snapshot::Snapshot;

/// The number of a read of a scan.
#[derive(Clone, Copy, Debug, PartialEq, Eq, Hash)]
pub struct ReadId(pub u64);

/// A read that is handed out: its number, and the segment that is to be read.
#[derive(Clone, Copy, Debug, PartialEq, Eq)]
pub struct ReadRequest {
    pub id: ReadId,
    pub segment_id: u32,
}

/// The bytes of a wanted segment: they did not come, they came, or they came and were let go, so that they are gone from
/// memory, and only clauses remember them.
#[derive(Drop)]
enum SegmentBytes {
    NotYet,
    Came(Vec<u8>),
    LetGo(Snapshot<Vec<u8>>),
}

impl SegmentBytes {
    /// Whether the bytes came.
    fn came(&self) -> bool
        ensures { result ≡ is_some (bytes_in self.now) }
    {
        match self {
            SegmentBytes::NotYet => false,
            SegmentBytes::Came(_) => true,
            SegmentBytes::LetGo(_) => true,
        }
    }

    /// How many bytes are in memory.
    fn held(&self) -> u64
        ensures { result ≡ count_held self.now }
    {
        match self {
            SegmentBytes::NotYet => 0,
            SegmentBytes::Came(bytes) => bytes.len() as u64,
            SegmentBytes::LetGo(_) => 0,
        }
    }

    /// Lets the bytes go, if they came.
    fn let_go(&mut self)
        ensures bytes { bytes_in self.new ≡ bytes_in self.old }
        ensures gone { is_gone self.new ≡ is_some (bytes_in self.old) }
    {
        let seen = match self {
            SegmentBytes::NotYet => return,
            SegmentBytes::Came(bytes) => Snapshot::of(bytes),
            SegmentBytes::LetGo(_) => return,
        };
        *self = SegmentBytes::LetGo(seen);
    }
}

/// A segment that is wanted, its bytes, and the last place at which the needs of a split name it.
#[derive(Drop)]
pub(crate) struct WantedSegment {
    segment: u32,
    bytes: SegmentBytes,
    last: usize,
}

/// The segments that a scan wants, each once, in the order in which they are handed out. A read's number
/// is its segment's place. The bytes of a segment are let go when the last leaf over it is decoded, and, once the last
/// split is the only active one, when its last need that names the segment is passed: `passed` counts the needs whose
/// columns are there. `recent` is the place that was looked for last.
#[derive(Drop)]
pub(crate) struct ReadTable {
    wanted: Vec<WantedSegment>,
    handed: usize,
    places: BTreeMap<u32, usize>,
    passed: usize,
    recent: usize,
}

impl Model for ReadTable {
    ghost use Rattle.vx_steps.specs.ReadTableData.{ReadsData};

    ghost Value = { ReadsData };

    ghost use Rattle.std.specs.Prelude.{map};
    ghost use Rattle.vx_steps.specs.ReadTableData.{stored_data, wanted_data};
    ghost use Rattle.vx_steps.specs.ReadTable.{AreReads};

    ghost view = { λ a. record { wanted = map wanted_data a.wanted.items; handed = a.handed; stored = map stored_data a.wanted.items; passed = a.passed } };

    ghost invariant = { λ a. AreReads a.places (map wanted_data a.wanted.items) a.handed };
}

/// The place of a segment, where it is wanted. The recent place is tried first: of needs beside each other most name one
/// segment.
fn place_of(
    wanted: &Vec<WantedSegment>,
    places: &BTreeMap<u32, usize>,
    recent: usize,
    segment: u32,
) -> Option<usize>
    requires { AreFound places.now (map wanted_data wanted.now.items) }
    ensures { result ≡ get nat_cmp places.now segment }
{
    if recent < wanted.len() && wanted[recent].segment == segment {
        return Some(recent);
    }
    places.get(&segment).copied()
}

impl ReadTable {
    /// No reads. It takes no memory.
    pub(crate) fn new(alloc: Global) -> ReadTable
        ensures wanted { result.wanted ≡ [] }
        ensures handed { result.handed ≡ 0 }
        ensures stored { result.stored ≡ [] }
        ensures passed { result.passed ≡ 0 }
    {
        ReadTable {
            wanted: Vec::new(alloc),
            handed: 0,
            places: BTreeMap::new(alloc),
            passed: 0,
            recent: 0,
        }
    }

    /// Whether no segment is wanted.
    pub(crate) fn wants_none(&self) -> bool
        ensures { MatchBool result (self.now.wanted ≡ []) (self.now.wanted ≡ [] → ⊥) }
    {
        self.wanted.is_empty()
    }

    /// Wants a segment, unless it is wanted already, for a need at the place among a split's.
    pub(crate) fn want(&mut self, segment: u32, need: usize) -> Result<(), AllocError>
        ensures wanted { OnOk result (IsWanted segment self.old.wanted self.new.wanted) }
        ensures handed { self.new.handed ≡ self.old.handed }
        ensures as_before { OnErr result (self.new ≡ self.old) }
        ensures named { OnOk result (IsNamed self.new.stored segment need) }
        ensures stored { KeepsStored self.old self.new }
    {
        if let Some(place) = place_of(&self.wanted, &self.places, self.recent, segment) {
            self.recent = place;
            if self.wanted[place].last < need {
                self.wanted[place].last = need;
            }
            return Ok(());
        }
        let place = self.wanted.len();
        self.wanted.push(WantedSegment {
            segment,
            bytes: SegmentBytes::NotYet,
            last: need,
        })?;
        if self.places.insert(segment, place).is_err() {
            self.wanted.pop();
            return Err(AllocError);
        }
        self.recent = place;
        Ok(())
    }

    /// The next read that was not handed out yet, which is outstanding from now on.
    pub(crate) fn hand_out(&mut self) -> Option<ReadRequest>
        ensures turn { MatchOption result ((self.old.handed ≡ length self.old.wanted) × (self.new ≡ self.old)) (HandsOut self.old self.new) }
        ensures stored { KeepsStored self.old self.new }
    {
        let place = self.handed;
        if place == self.wanted.len() {
            return None;
        }
        let segment_id = self.wanted[place].segment;
        self.handed = place + 1;
        Some(ReadRequest {
            id: ReadId(place as u64),
            segment_id,
        })
    }

    /// Takes the bytes of an outstanding read, and gives its segment, if the read was outstanding. It takes no memory.
    pub(crate) fn deliver(&mut self, read: ReadId, bytes: Vec<u8>) -> Option<u32>
        ensures delivers { MatchOption result ((IsOutstanding self.old read → ⊥) × (self.new ≡ self.old)) (DeliversOf read bytes.items self.old self.new) }
        ensures stored { self.new.stored ≡ self.old.stored }
        ensures passed { self.new.passed ≡ self.old.passed }
    {
        let place = read.0 as usize;
        if place >= self.handed || self.wanted[place].bytes.came() {
            return None;
        }
        let segment = self.wanted[place].segment;
        self.wanted[place].bytes = SegmentBytes::Came(bytes);
        Some(segment)
    }

    /// The bytes of a segment, where they came and were not let go.
    pub(crate) fn bytes(&self, segment: u32) -> Option<&[u8]>
        ensures { MatchOption result ((bytes_of self.now.wanted segment ≡ None) ⊎ IsGone self.now.stored segment) (λ bytes. bytes_of self.now.wanted segment ≡ Some bytes.now) }
    {
        match place_of(&self.wanted, &self.places, self.recent, segment) {
            Some(place) => match &self.wanted[place].bytes {
                SegmentBytes::NotYet => None,
                SegmentBytes::Came(bytes) => Some(bytes.as_slice()),
                SegmentBytes::LetGo(_) => None,
            },
            None => None,
        }
    }

    /// How many needs of the last split were passed.
    pub(crate) fn passed(&self) -> usize
        ensures { result ≡ self.now.passed }
    {
        self.passed
    }

    /// Passes needs, up to so many, the last of which names the segment: its bytes are let go, unless a later need names
    /// it.
    pub(crate) fn pass(&mut self, segment: u32, count: usize)
        ensures { Passes segment count self.old self.new }
    {
        self.passed = count;
        if let Some(place) = place_of(&self.wanted, &self.places, self.recent, segment) {
            self.recent = place;
            if self.wanted[place].last < count {
                self.wanted[place].bytes.let_go();
            }
        }
    }

    /// Lets the bytes of a segment go, if they came.
    pub(crate) fn let_go(&mut self, segment: u32)
        ensures { LetsGo segment self.old self.new }
    {
        if let Some(place) = place_of(&self.wanted, &self.places, self.recent, segment) {
            self.wanted[place].bytes.let_go();
        }
    }

    /// Lets all bytes go that came.
    pub(crate) fn let_all_go(&mut self)
        ensures { LetsAllGo self.old self.new }
    {
        for place in 0..self.wanted.len() {
            self.wanted[place].bytes.let_go();
        }
    }

    /// How many reads were handed out.
    pub(crate) fn handed_out(&self) -> u64
        ensures { result ≡ self.now.handed }
    {
        self.handed as u64
    }

    /// How many bytes of segments are in memory; at most the greatest number that there is.
    pub(crate) fn held_bytes(&self) -> u64
        ensures { result ≡ min (held_bytes self.now.wanted self.now.stored) (2 ^ 64 - 1) }
    {
        let mut held: u64 = 0;
        for wanted in &self.wanted {
            held = held.saturating_add(wanted.bytes.held());
        }
        held
    }
}
