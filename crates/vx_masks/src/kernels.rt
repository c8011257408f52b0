//! Calls over words of 64 truth values.

ghost use Rattle.std.specs.Prelude.{◌≡◌, ◌+◌, ◌-◌, ◌++◌, ◌<◌, ◌≤◌, ◌^◌, min, length, slice_get, take, drop, sum_by, Some, true, bit_and, count_ones};
ghost use Rattle.std.specs.Simd.Lanes.{zip2};
ghost use Rattle.vx_masks.specs.Masks.{both, true_count, place_of_rank};
ghost use Rattle.vx_masks.specs.Words.{bits_of, low_bits, number_of};

use std::simd::prelude::*;

/// How many bits are set in the eight words from this place on.
#[inline(always)]
fn count_lanes(words: &[u64], place: usize) -> u64
    requires { place + 8 ≤ length words.now }
    ensures { result ≡ sum_by count_ones (take 8 (drop place words.now)) }
{
    u64x8::from_slice(&words[place..])
        .count_ones()
        .strict_reduce_sum()
}

/// How many bits are set, up to `u64::MAX`.
pub fn count_ones(words: &[u64]) -> u64
    ensures rows { result ≡ min (true_count (bits_of words.now)) (2 ^ 64 - 1) }
    ensures number { result ≡ min (count_ones (number_of words.now)) (2 ^ 64 - 1) }
{
    let mut count: u64 = 0;
    let mut place = 0;
    while words.len() - place >= 8 {
        count = count.saturating_add(count_lanes(words, place));
        place += 8;
    }
    for word in &words[place..] {
        count = count.saturating_add(word.count_ones() as u64);
    }
    count
}

/// Leaves the bitwise and of both in the eight words from this place on.
#[inline(always)]
fn and_lanes(into: &mut [u64], other: &[u64], place: usize)
    requires inside { place + 8 ≤ length into.old }
    requires other_inside { place + 8 ≤ length other.now }
    ensures { into.new ≡ take place into.old ++ zip2 (λ a b. bit_and a b) (take 8 (drop place into.old)) (take 8 (drop place other.now)) ++ drop (place + 8) into.old }
{
    let lanes = u64x8::from_slice(&into[place..]) & u64x8::from_slice(&other[place..]);
    lanes.copy_to_slice(&mut into[place..]);
}

/// Leaves the bitwise and of both.
pub fn and_into(into: &mut [u64], other: &[u64])
    requires { length other.now ≡ length into.old }
    ensures words { into.new ≡ zip2 (λ a b. bit_and a b) into.old other.now }
    ensures rows { bits_of into.new ≡ both (bits_of into.old) (bits_of other.now) }
    ensures number { number_of into.new ≡ bit_and (number_of into.old) (number_of other.now) }
{
    let mut place = 0;
    while into.len() - place >= 8 {
        and_lanes(into, other, place);
        place += 8;
    }
    while place < into.len() {
        into[place] &= other[place];
        place += 1;
    }
}

/// The place of the set bit that has so many set bits below it.
pub fn place_of(word: u64, rank: u32) -> u32
    requires { rank < count_ones word }
    ensures here { slice_get (low_bits 64 word) result ≡ Some true }
    ensures below { true_count (take result (low_bits 64 word)) ≡ rank }
    ensures place { result ≡ place_of_rank (low_bits 64 word) rank }
{
    let mut rest = word;
    for _passed in 0..rank {
        rest &= rest - 1;
    }
    rest.trailing_zeros()
}
