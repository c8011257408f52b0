//! The claims of running workers: a word that counts the draws, and a seat for each worker.

ghost use Rattle.std.specs.Prelude.{◌≡◌, ◌<◌, []};

use crate::views::{Both, ClaimRule, Draw, OnePart, View};
use atomic_table::{Seat, Table};
use std::alloc::{AllocError, Global};

/// The claims of the chunks below a count. They may lie behind a shared reference, and every thread that has a seat of
/// them may claim.
#[derive(Drop)]
pub struct Claims {
    table: Table<(), View, u64, ClaimRule, Global>,
    count: u64,
    ghost counted: { count ≡ table.shared.key },
    ghost one_word: { table.shared.table_id.words ≡ 1 },
    ghost no_slot: { table.shared.table_id.slots ≡ 0 },
}

/// A worker's seat at the claims. It knows the numbers that it claimed, in the order in which it claimed them, and
/// whether it was told the end.
#[derive(Drop)]
pub struct ClaimSeat {
    seat: Seat<(), View>,
    told: bool,
    ghost bare: { seat.me.1 ≡ [] },
    ghost alive: { 0 < seat.me.0.parts },
    ghost knows: { told ≡ seat.me.0.told },
}

/// New claims, and the first seat of them.
#[derive(Drop)]
pub struct Claiming {
    pub claims: Claims,
    pub seat: ClaimSeat,
}

impl Claims {
    ghost use Rattle.std.specs.Prelude.{◌≤◌, false, IfOk};
    ghost use Rattle.vx_claims.specs.Limits.{most_chunks, all_parts};
    ghost use Rattle.vx_claims.specs.Claims.{count_of, parts, was_told, IsSeatOf, IsFresh, GivesPart, TakesIn, Closes};

    /// Claims of as many chunks, at most 68719476736, and a seat with all 65 parts. Nothing is claimed yet. It is
    /// refused only where there is no memory left.
    pub fn start(alloc: Global, count: u64) -> Result<Claiming, AllocError>
        requires { count ≤ most_chunks }
        ensures count { IfOk result (λ started. count_of started.claims ≡ count) }
        ensures seat { IfOk result (λ started. IsFresh started.claims all_parts started.seat) }
    {
        let (table, seat) = Table::of_words(alloc, &[0], &count)?;
        Ok(Claiming {
            claims: Claims { table, count },
            seat: ClaimSeat { seat, told: false },
        })
    }

    /// A new seat, which gets one of this seat's parts. This seat has at least two parts and wasn't told the end. It
    /// takes no memory.
    pub fn split(&self, seat: &mut ClaimSeat) -> ClaimSeat
        requires seat { IsSeatOf self.now seat.old }
        requires parts { 2 ≤ parts seat.old }
        requires untold { was_told seat.old ≡ false }
        ensures old { GivesPart self.now seat.old seat.new }
        ensures new { IsFresh self.now 1 result }
    {
        let new = self.table.shared.split_seat::<OnePart>(&mut seat.seat);
        ClaimSeat {
            seat: new,
            told: false,
        }
    }

    /// The seat takes in another one, with all that it claimed, behind its own, and all its parts. It is told the end
    /// where either was.
    pub fn join(&self, seat: &mut ClaimSeat, other: ClaimSeat)
        requires seat { IsSeatOf self.now seat.old }
        requires other { IsSeatOf self.now other }
        ensures { TakesIn self.now seat.old other seat.new }
    {
        let ClaimSeat { seat: taken, told } = other;
        self.table.shared.join_seat::<Both>(&mut seat.seat, taken);
        seat.told = seat.told || told;
    }

    /// Ends the claims. It gives the word: how many draws there were, of chunks and over the count, by all seats.
    pub fn close(self, seat: ClaimSeat) -> u64
        requires { IsSeatOf self seat }
        ensures { Closes (count_of self) seat result }
    {
        let Claims { table, count: _ } = self;
        let ClaimSeat { seat, told: _ } = seat;
        let closed = table.close_with(seat);
        let word = closed.word(0);
        closed.free();
        word
    }
}

impl ClaimSeat {
    ghost use Rattle.vx_claims.specs.Claims.{count_of, parts, IsSeatOf, ClaimGives};

    /// The number of the next chunk, which no seat has, and which this seat has from now on. It gives `None` where the
    /// number that it drew isn't below the count, or where this seat was told so before; then it draws none. It takes no
    /// memory and doesn't wait.
    pub fn claim(&mut self, claims: &Claims) -> Option<u64>
        requires { IsSeatOf claims.now self.old }
        ensures seat { IsSeatOf claims.now self.new }
        ensures parts { parts self.new ≡ parts self.old }
        ensures gives { ClaimGives (count_of claims.now) result self.old self.new }
    {
        if self.told {
            return None;
        }
        let found = claims.table.shared.fetch_add::<Draw>(&mut self.seat, 0, 1);
        if found < claims.count {
            return Some(found);
        }
        self.told = true;
        None
    }
}
