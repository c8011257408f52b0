//! The set bits of a word that are chosen by their ranks.

ghost use Rattle.std.specs.Prelude.{◌≡◌, ◌^◌, ◌<◌, count_ones};
ghost use Rattle.vx_masks.specs.Masks.{chosen_of_chosen};
ghost use Rattle.vx_masks.specs.Words.{low_bits};

use crate::kernels::place_of;

/// So many ranks at most are looked up one by one.
const FEW: u32 = 1;

/// The set bits of the word, in order, that are chosen by their ranks: it walks the set bits.
fn deposit_many(word: u64, ranks: u64) -> u64
    requires { ranks < 2 ^ count_ones word }
    ensures { low_bits 64 result ≡ chosen_of_chosen (low_bits 64 word) (low_bits (count_ones word) ranks) }
{
    let mut result = 0;
    let mut rest = word;
    let mut left = ranks;
    while left != 0 {
        let cleared = rest & (rest - 1);
        result += (rest - cleared) * (left % 2);
        rest = cleared;
        left /= 2;
    }
    result
}

/// The set bits of the word, in order, that are chosen by their ranks: it looks up the place of each rank.
fn deposit_few(word: u64, ranks: u64) -> u64
    requires { ranks < 2 ^ count_ones word }
    ensures { low_bits 64 result ≡ chosen_of_chosen (low_bits 64 word) (low_bits (count_ones word) ranks) }
{
    let mut result = 0;
    let mut done = 0;
    let mut rest = word;
    let mut left = ranks;
    while left != 0 {
        let rank = left.trailing_zeros();
        let place = place_of(rest, rank);
        result += 1 << (done + place);
        done += place + 1;
        rest = rest >> place >> 1;
        left = left >> rank >> 1;
    }
    result
}

/// The set bits of the word, in order, that are chosen by their ranks.
pub(crate) fn deposit(word: u64, ranks: u64) -> u64
    requires { ranks < 2 ^ count_ones word }
    ensures { low_bits 64 result ≡ chosen_of_chosen (low_bits 64 word) (low_bits (count_ones word) ranks) }
{
    if ranks.count_ones() <= FEW {
        deposit_few(word, ranks)
    } else {
        deposit_many(word, ranks)
    }
}
