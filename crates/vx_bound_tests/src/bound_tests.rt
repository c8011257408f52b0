//! What each seat is answered, and that threads tighten one bound.

ghost use Rattle.std.specs.Prelude.{◌≡◌, ◌<◌, ◌≤◌, length, flat_map, IfOk};
ghost use Rattle.std.specs.Thread.{IsSync};
ghost use Rattle.vx_bound.specs.Bounds.{parts, IsSeatOf};
ghost use Rattle.vx_bound.specs.Offers.{bound_after};
ghost use Rattle.vx_bound_tests.specs.Offering.{OffersEach, TakesOffers};

use std::alloc::{AllocError, Global};
use std::process::Abort;
use std::thread::{Threads, join_mut};
use vx_bound::{BoundSeat, BoundTable, Bounded};

#[test]
fn two_seats_tighten_one_bound(rt: HostRuntime) {
    let Bounded { table, mut seat } = BoundTable::start(rt.alloc(), 100).expect(&rt, "memory");
    let mut other = table.split(&mut seat);
    assert!(rt; table.seen(&seat) == 100 && table.seen(&other) == 100);
    assert!(rt; table.offer(&mut seat, 40) == 40);
    assert!(rt; table.seen(&other) == 100);
    assert!(rt; table.offer(&mut other, 70) == 40);
    assert!(rt; table.seen(&seat) == 40 && table.seen(&other) == 40);
    table.join(&mut seat, other);
    assert!(rt; table.load(&mut seat) == 40);
    assert!(rt; table.close(seat) == 40);
}

#[test]
fn a_seat_sees_what_it_is_answered(rt: HostRuntime) {
    let Bounded { table, mut seat } = BoundTable::start(rt.alloc(), 100).expect(&rt, "memory");
    assert!(rt; table.load(&mut seat) == 100);
    let mut other = table.split(&mut seat);
    assert!(rt; table.offer(&mut other, 200) == 100);
    assert!(rt; table.offer(&mut other, 99) == 99);
    assert!(rt; table.seen(&seat) == 100);
    assert!(rt; table.load(&mut seat) == 99);
    assert!(rt; table.offer(&mut seat, 98) == 98);
    let third = table.split(&mut seat);
    assert!(rt; table.seen(&third) == 98 && table.seen(&other) == 99);
    table.join(&mut other, third);
    assert!(rt; table.seen(&other) == 98);
    assert!(rt; table.offer(&mut seat, 0) == 0);
    table.join(&mut other, seat);
    assert!(rt; table.seen(&other) == 0);
    assert!(rt; table.close(other) == 0);
}

#[test]
fn a_bound_is_closed_by_a_seat_without_all_parts(rt: HostRuntime) {
    let Bounded { table, mut seat } = BoundTable::start(rt.alloc(), u64::MAX).expect(&rt, "memory");
    let mut other = table.split(&mut seat);
    assert!(rt; table.offer(&mut seat, u64::MAX) == u64::MAX);
    assert!(rt; table.offer(&mut seat, 7) == 7);
    assert!(rt; table.load(&mut other) == 7);
    assert!(rt; table.close(other) == 7);
}

/// Offers each key, and loads the bound after each.
fn offer_each(bound: &BoundTable, seat: &mut BoundSeat, keys: &[u64])
    requires { IsSeatOf bound.now seat.old }
    ensures { OffersEach bound.now seat.old seat.new keys.now }
{
    for key in keys {
        let _ = bound.offer(seat, *key);
        let _ = bound.load(seat);
    }
}

/// Offers each list of keys in a thread of its own, by seats that this one gives and takes in again.
#[cycle(offering)]
fn offer_side_by_side<R: Threads + Sync>(
    rt: &R,
    bound: &BoundTable,
    seat: &mut BoundSeat,
    lists: &[Vec<u64>],
)
    requires seat { IsSeatOf bound.now seat.old }
    requires parts { length lists.now < parts seat.old }
    ensures { TakesOffers bound.now seat.old seat.new (flat_map (λ list. list.items) lists.now) }
{
    let Some((last, others)) = lists.split_last() else {
        return;
    };
    let mut own = bound.split(seat);
    offer_both(rt, bound, &mut own, last, seat, others);
    bound.join(seat, own);
}

/// The last list of keys in a thread of its own, and the others from this one.
#[cycle(offering)]
fn offer_both<R: Threads + Sync>(
    rt: &R,
    bound: &BoundTable,
    own: &mut BoundSeat,
    last: &Vec<u64>,
    seat: &mut BoundSeat,
    others: &[Vec<u64>],
)
    requires own { IsSeatOf bound.now own.old }
    requires seat { IsSeatOf bound.now seat.old }
    requires parts { length others.now < parts seat.old }
    ensures last { OffersEach bound.now own.old own.new last.now.items }
    ensures others { TakesOffers bound.now seat.old seat.new (flat_map (λ list. list.items) others.now) }
{
    let mut offer_last = ||
        requires { IsSeatOf bound.now own.now }
        ensures { OffersEach bound.entry.now own.entry.now own.exit.now last.entry.now.items }
    { offer_each(bound, own, last.as_slice()) };
    let mut offer_others = ||
        requires { IsSync R.row × IsSeatOf bound.now seat.now × (length others.now < parts seat.now) }
        ensures { TakesOffers bound.entry.now seat.entry.now seat.exit.now (flat_map (λ list. list.items) others.entry.now) }
    { offer_side_by_side(rt, bound, seat, others) };
    join_mut(rt, &mut offer_last, &mut offer_others);
}

/// The bound that is left of a first key, once each list of keys was offered in a thread of its own.
fn tightened<R: Threads + Sync>(
    rt: &R,
    alloc: Global,
    first: u64,
    lists: &[Vec<u64>],
) -> Result<u64, AllocError>
    requires { length lists.now ≤ 64 }
    ensures { IfOk result (λ word. word ≡ bound_after first (flat_map (λ list. list.items) lists.now)) }
{
    let Bounded { table, mut seat } = BoundTable::start(alloc, first)?;
    offer_side_by_side(rt, &table, &mut seat, lists);
    Ok(table.close(seat))
}

/// So many keys are offered by each thread.
const KEYS: u64 = 100000;

/// The least of all keys.
const LEAST: u64 = 5;

/// In which order a thread offers its keys.
enum Order {
    /// From the greatest to the least.
    Falling,
    /// In none.
    Scattered,
}

/// The place of the key that is offered at a step, among those of a thread from its least one on.
fn place_at(order: &Order, step: u64) -> u64 {
    match order {
        Order::Falling => (KEYS - 1).saturating_sub(step),
        Order::Scattered => step.wrapping_mul(7919).wrapping_add(12345) % KEYS,
    }
}

/// The numbers from `LEAST` on, dealt out to so many lists in turn.
fn lists_of(rt: &(impl AllocGlobal + Abort), count: u64, order: &Order) -> Vec<Vec<u64>> {
    let mut lists = Vec::new(rt.alloc());
    for list in 0..count {
        let mut keys = Vec::new(rt.alloc());
        for step in 0..KEYS {
            let above = count.wrapping_mul(place_at(order, step)).wrapping_add(list);
            keys.push(LEAST.wrapping_add(above)).expect(rt, "a key");
        }
        lists.push(keys).expect(rt, "a list");
    }
    lists
}

/// Asserts that of a first key and the keys of so many threads the least is left.
fn assert_tightened<R: AllocGlobal + Abort + Threads + Sync>(
    rt: &R,
    first: u64,
    count: u64,
    order: &Order,
    left: u64,
) {
    let lists = lists_of(rt, count, order);
    assert!(rt; lists.len() <= 64);
    let word = tightened(rt, rt.alloc(), first, lists.as_slice()).expect(rt, "memory");
    assert!(rt; word == left, "by {count} threads");
}

#[test]
fn threads_tighten_one_bound(rt: HostRuntime) {
    assert_tightened(&rt, 100, 0, &Order::Falling, 100);
    assert_tightened(&rt, u64::MAX, 2, &Order::Falling, LEAST);
    assert_tightened(&rt, u64::MAX, 2, &Order::Scattered, LEAST);
    assert_tightened(&rt, u64::MAX, 8, &Order::Falling, LEAST);
    assert_tightened(&rt, u64::MAX, 8, &Order::Scattered, LEAST);
    assert_tightened(&rt, LEAST - 1, 8, &Order::Scattered, LEAST - 1);
}
