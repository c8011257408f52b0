//! What each seat is given, and that threads share the chunks among them.

ghost use Rattle.std.specs.Prelude.{◌≡◌};
ghost use Rattle.std.specs.Thread.{IsSync};
ghost use Rattle.vx_claims.specs.Claims.{IsSeatOf};

use std::process::Abort;
use std::thread::{Threads, join_mut};
use vx_claims::{ClaimSeat, Claiming, Claims};

#[test]
fn two_seats_share_two_chunks(rt: HostRuntime) {
    let Claiming { claims, mut seat } = Claims::start(rt.alloc(), 2).expect(&rt, "memory");
    let mut other = claims.split(&mut seat);
    assert!(rt; seat.claim(&claims) == Some(0));
    assert!(rt; other.claim(&claims) == Some(1));
    assert!(rt; seat.claim(&claims) == None);
    assert!(rt; other.claim(&claims) == None);
    assert!(rt; seat.claim(&claims) == None);
    claims.join(&mut seat, other);
    assert!(rt; claims.close(seat) == 4);
}

#[test]
fn claims_of_no_chunks_and_of_the_most(rt: HostRuntime) {
    let Claiming { claims, mut seat } = Claims::start(rt.alloc(), 0).expect(&rt, "memory");
    assert!(rt; seat.claim(&claims) == None);
    assert!(rt; claims.close(seat) == 1);
    let Claiming { claims, mut seat } = Claims::start(rt.alloc(), 68719476736).expect(
        &rt, "memory",
    );
    assert!(rt; seat.claim(&claims) == Some(0));
    assert!(rt; claims.close(seat) == 1);
}

/// So many chunks are claimed by threads.
const CHUNKS: u64 = 200000;

/// A worker, with the numbers that it was given.
#[derive(Drop)]
struct Worker {
    seat: ClaimSeat,
    numbers: Vec<u64>,
}

/// Claims until no chunk is left. Where there is no memory for a number, that number is lost.
fn work(claims: &Claims, worker: &mut Worker)
    requires { IsSeatOf claims.now worker.old.seat }
    ensures { IsSeatOf claims.now worker.new.seat }
{
    'claiming: for _ in 0..=CHUNKS {
        let Some(number) = worker.seat.claim(claims) else {
            return;
        };
        let _ = worker.numbers.push(number);
    }
}

/// Two workers, each in a thread of its own.
fn work_side_by_side<R: Threads + Sync>(
    rt: &R,
    claims: &Claims,
    one: &mut Worker,
    other: &mut Worker,
)
    requires one { IsSeatOf claims.now one.old.seat }
    requires other { IsSeatOf claims.now other.old.seat }
    ensures one { IsSeatOf claims.now one.new.seat }
    ensures other { IsSeatOf claims.now other.new.seat }
{
    let mut first = ||
        requires { IsSeatOf claims.now one.now.seat }
        ensures { IsSeatOf claims.entry.now one.exit.now.seat }
    { work(claims, one) };
    let mut second = ||
        requires { IsSeatOf claims.now other.now.seat }
        ensures { IsSeatOf claims.entry.now other.exit.now.seat }
    { work(claims, other) };
    join_mut(rt, &mut first, &mut second);
}

/// Asserts that the numbers ascend and that none of them was seen; then they are.
fn mark(rt: &impl Abort, numbers: &[u64], seen: &mut Vec<bool>) {
    let mut least = 0;
    for number in numbers {
        assert!(rt; least <= *number && *number < CHUNKS, "in order");
        assert!(rt; (*number as usize) < seen.len(), "below the count");
        assert!(rt; !seen[*number as usize], "once");
        seen[*number as usize] = true;
        least = *number + 1;
    }
}

#[test]
fn threads_share_the_chunks(rt: HostRuntime) {
    let alloc = rt.alloc();
    let Claiming { claims, mut seat } = Claims::start(alloc, CHUNKS).expect(&rt, "memory");
    let mut one = Worker {
        seat: claims.split(&mut seat),
        numbers: Vec::new(alloc),
    };
    let mut other = Worker {
        seat: claims.split(&mut seat),
        numbers: Vec::new(alloc),
    };
    work_side_by_side(&rt, &claims, &mut one, &mut other);
    assert!(rt; one.numbers.len() + other.numbers.len() == CHUNKS as usize);
    let mut seen = Vec::new(alloc);
    seen.resize(CHUNKS as usize, false).expect(&rt, "memory");
    mark(&rt, one.numbers.as_slice(), &mut seen);
    mark(&rt, other.numbers.as_slice(), &mut seen);
    assert!(rt; seen.iter().all(|was| *was));
    claims.join(&mut seat, one.seat);
    claims.join(&mut seat, other.seat);
    assert!(rt; seat.claim(&claims) == None);
    assert!(rt; claims.close(seat) == CHUNKS + 2);
}
