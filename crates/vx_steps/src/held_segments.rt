//! The segments that are held: those of which bytes or columns are kept for rows to come.

ghost use Rattle.std.specs.Prelude.{◌≡◌, ◌<◌, ◌≤◌, ◌⊎◌, ◌==◌, ℕ, [], if◌then◌else◌, Some, length, IsSome, OnOk, OnErr};
ghost use Rattle.std.specs.Bool.{MatchBool};
ghost use Rattle.std.specs.BTreeMap.{get};
ghost use Rattle.std.specs.Ordering.{nat_cmp};
ghost use Rattle.vx_steps.specs.Asked.{AreEachOnce};
ghost use Rattle.vx_steps.specs.HeldData.{ArePlacesOf, Exchanged, HasRoom, Holds, HoldsNoMore, HoldsOneMore, KeepsRoom};

use std::alloc::{AllocError, Global};
use std::collections::BTreeMap;
use std::marker::Model;

/// The segments for which room was made, each in a slot of its own: those that are held come first. Holding one of them, or
/// letting it go, exchanges two of them, so that it takes no memory.
#[derive(Drop)]
pub(crate) struct HeldSegments {
    slots: Vec<u32>,
    count: usize,
    places: BTreeMap<u32, usize>,
}

impl Model for HeldSegments {
    ghost use Rattle.vx_steps.specs.HeldData.{HeldData, AreSlots};

    ghost Value = { HeldData };

    ghost use Rattle.std.specs.Prelude.{take};

    ghost view = { λ a. record { held = take a.count a.slots.items; room = a.slots.items } };

    ghost invariant = { λ a. AreSlots a.places a.slots.items a.count };
}

/// Gives a segment that has a place another one. It takes no memory.
fn put_place(places: &mut BTreeMap<u32, usize>, segment: u32, place: usize)
    requires { IsSome (get nat_cmp places.old segment) }
    ensures { (s : ℕ) → get nat_cmp places.new s ≡ (if segment == s then Some place else get nat_cmp places.old s) }
{
    let _put = places.insert(segment, place);
}

/// Exchanges the segments in two slots. It takes no memory.
fn exchange(slots: &mut Vec<u32>, places: &mut BTreeMap<u32, usize>, one: usize, other: usize)
    requires one { one < length slots.old.items }
    requires other { other < length slots.old.items }
    requires placed { ArePlacesOf places.old slots.old.items }
    ensures exchanged { Exchanged one other slots.old.items slots.new.items }
    ensures size { length slots.new.items ≡ length slots.old.items }
    ensures placed { ArePlacesOf places.new slots.new.items }
{
    let first = slots[one];
    let second = slots[other];
    slots[one] = second;
    slots[other] = first;
    put_place(places, first, other);
    put_place(places, second, one);
}

impl HeldSegments {
    /// None are held, and there is no room. It takes no memory.
    pub(crate) fn new(alloc: Global) -> HeldSegments
        ensures { result.held ≡ [] }
    {
        HeldSegments {
            slots: Vec::new(alloc),
            count: 0,
            places: BTreeMap::new(alloc),
        }
    }

    /// Makes room for a segment, so that it can be held. Where memory is wanting, all is as before.
    pub(crate) fn make_room(&mut self, segment: u32) -> Result<(), AllocError>
        ensures room { OnOk result (HasRoom self.new segment) }
        ensures kept { KeepsRoom self.old self.new }
        ensures held { self.new.held ≡ self.old.held }
        ensures as_before { OnErr result (self.new ≡ self.old) }
    {
        if self.places.contains_key(&segment) {
            return Ok(());
        }
        let place = self.slots.len();
        self.slots.push(segment)?;
        if self.places.insert(segment, place).is_err() {
            self.slots.pop();
            return Err(AllocError);
        }
        Ok(())
    }

    /// Holds a segment from now on. It takes no memory.
    pub(crate) fn insert(&mut self, segment: u32)
        requires { HasRoom self.old segment }
        ensures held { HoldsOneMore segment self.old self.new }
        ensures kept { KeepsRoom self.old self.new }
    {
        let place = match self.places.get(&segment) {
            Some(place) => *place,
            None => return,
        };
        let count = self.count;
        if place < count {
            return;
        }
        exchange(&mut self.slots, &mut self.places, place, count);
        self.count = count + 1;
    }

    /// Holds a segment no more. It takes no memory.
    pub(crate) fn remove(&mut self, segment: u32)
        ensures held { HoldsNoMore segment self.old self.new }
        ensures kept { KeepsRoom self.old self.new }
    {
        let place = match self.places.get(&segment) {
            Some(place) => *place,
            None => return,
        };
        if place >= self.count {
            return;
        }
        let last = self.count - 1;
        exchange(&mut self.slots, &mut self.places, place, last);
        self.count = last;
    }

    /// Whether a segment is held.
    pub(crate) fn contains(&self, segment: u32) -> bool
        ensures { MatchBool result (Holds self.now segment) (Holds self.now segment → ⊥) }
    {
        match self.places.get(&segment) {
            Some(place) => *place < self.count,
            None => false,
        }
    }

    /// Those that are held, each once.
    pub(crate) fn as_slice(&self) -> &[u32]
        ensures held { result.now ≡ self.now.held }
        ensures once { AreEachOnce self.now.held }
    {
        &self.slots[..self.count]
    }

    /// Holds none from now on. It takes no memory.
    pub(crate) fn clear(&mut self)
        ensures held { self.new.held ≡ [] }
        ensures kept { KeepsRoom self.old self.new }
    {
        self.count = 0;
    }
}
