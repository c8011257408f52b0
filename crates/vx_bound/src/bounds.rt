//! The bound of running workers: a word that only falls, and a seat for each worker.

ghost use Rattle.std.specs.Prelude.{◌≡◌, ◌<◌, []};

use crate::views::{Both, BoundRule, Look, OnePart, Tighten, View};
use atomic_table::{Seat, Table};
use std::alloc::{AllocError, Global};

/// A bound that only tightens. It may lie behind a shared reference, and every thread that has a seat of it may offer
/// keys and load it.
#[derive(Drop)]
pub struct BoundTable {
    table: Table<(), View, u64, BoundRule, Global>,
    ghost one_word: { table.shared.table_id.words ≡ 1 },
    ghost no_slot: { table.shared.table_id.slots ≡ 0 },
}

/// A worker's seat at the bound. It knows the least key that it was answered, and the keys that it offered.
#[derive(Drop)]
pub struct BoundSeat {
    seat: Seat<(), View>,
    seen: u64,
    ghost bare: { seat.me.1 ≡ [] },
    ghost alive: { 0 < seat.me.0.parts },
    ghost knows: { seen ≡ seat.me.0.seen },
}

/// A new bound, and the first seat at it.
#[derive(Drop)]
pub struct Bounded {
    pub table: BoundTable,
    pub seat: BoundSeat,
}

impl BoundTable {
    ghost use Rattle.std.specs.Prelude.{◌≤◌, IfOk};
    ghost use Rattle.vx_bound.specs.Limits.{all_parts};
    ghost use Rattle.vx_bound.specs.Bounds.{first_key, parts, least_seen, IsSeatOf, IsFirst, GivesPart, IsSplitOff, IsAnswered, HasOffered, HasLoaded, TakesIn, Closes};

    /// A bound at its first key, and a seat with all 65 parts that has seen it. It is refused only where there is no
    /// memory left.
    pub fn start(alloc: Global, key: u64) -> Result<Bounded, AllocError>
        ensures key { IfOk result (λ started. first_key started.table ≡ key) }
        ensures seat { IfOk result (λ started. IsFirst started.table started.seat) }
    {
        let (table, seat) = Table::of_words(alloc, &[key], &key)?;
        Ok(Bounded {
            table: BoundTable { table },
            seat: BoundSeat { seat, seen: key },
        })
    }

    /// A new seat, which gets one of this seat's parts and has seen what this seat has. This seat has at least two
    /// parts. It takes no memory.
    pub fn split(&self, seat: &mut BoundSeat) -> BoundSeat
        requires seat { IsSeatOf self.now seat.old }
        requires parts { 2 ≤ parts seat.old }
        ensures old { GivesPart self.now seat.old seat.new }
        ensures new { IsSplitOff self.now seat.old result }
    {
        let new = self.table.shared.split_seat::<OnePart>(&mut seat.seat);
        BoundSeat {
            seat: new,
            seen: seat.seen,
        }
    }

    /// Tightens the bound to the key, where it isn't tighter already. It gives the lesser of the bound found and the key,
    /// which is the bound from now on. It takes no memory and doesn't wait.
    pub fn offer(&self, seat: &mut BoundSeat, key: u64) -> u64
        requires { IsSeatOf self.now seat.old }
        ensures seat { IsSeatOf self.now seat.new }
        ensures answered { IsAnswered seat.old seat.new result }
        ensures offered { HasOffered key seat.old seat.new result }
    {
        let found = self
            .table
            .shared
            .fetch_min::<Tighten>(&mut seat.seat, 0, key);
        let answer = found.min(key);
        seat.seen = answer;
        answer
    }

    /// The bound as it is now. It takes no memory and doesn't wait.
    pub fn load(&self, seat: &mut BoundSeat) -> u64
        requires { IsSeatOf self.now seat.old }
        ensures seat { IsSeatOf self.now seat.new }
        ensures answered { IsAnswered seat.old seat.new result }
        ensures offered { HasLoaded seat.old seat.new }
    {
        seat.seen = self.table.shared.load::<Look>(&mut seat.seat, 0);
        seat.seen
    }

    /// The least key that the seat was answered. It takes no memory and no step.
    pub fn seen(&self, seat: &BoundSeat) -> u64
        requires { IsSeatOf self.now seat.now }
        ensures { result ≡ least_seen seat.now }
    {
        seat.seen
    }

    /// The seat takes in another one, with all that it offered, behind its own, and all its parts; it has seen the lesser
    /// of what both have.
    pub fn join(&self, seat: &mut BoundSeat, other: BoundSeat)
        requires seat { IsSeatOf self.now seat.old }
        requires other { IsSeatOf self.now other }
        ensures { TakesIn self.now seat.old other seat.new }
    {
        let BoundSeat { seat: taken, seen } = other;
        self.table.shared.join_seat::<Both>(&mut seat.seat, taken);
        seat.seen = seat.seen.min(seen);
    }

    /// Ends the bound. It gives the word.
    pub fn close(self, seat: BoundSeat) -> u64
        requires { IsSeatOf self seat }
        ensures { Closes (first_key self) seat result }
    {
        let BoundTable { table } = self;
        let BoundSeat { seat, seen: _ } = seat;
        let closed = table.close_with(seat);
        let word = closed.word(0);
        closed.free();
        word
    }
}
