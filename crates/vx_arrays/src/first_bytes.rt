//! The fronts of texts: the numbers that their first 16 bytes spell, by which most texts are told apart at once.

ghost use Rattle.std.specs.Prelude.{◌≡◌, ◌-◌, ◌*◌, ◌/◌, ◌^◌, ◌≤◌, ◌<◌, length, slice_get, slice_index, slice_range, option_map, Some};
ghost use Rattle.vx_arrays.specs.Fronts.{front_number};
ghost use Rattle.vx_arrays.specs.Texts.{cut, AreTexts};

use crate::texts::start_of;

/// Ones where so many of 16 bytes are, the first of them the highest.
static KEPT: [u128; 17] = [
    0x00000000_00000000_00000000_00000000,
    0xff000000_00000000_00000000_00000000,
    0xffff0000_00000000_00000000_00000000,
    0xffffff00_00000000_00000000_00000000,
    0xffffffff_00000000_00000000_00000000,
    0xffffffff_ff000000_00000000_00000000,
    0xffffffff_ffff0000_00000000_00000000,
    0xffffffff_ffffff00_00000000_00000000,
    0xffffffff_ffffffff_00000000_00000000,
    0xffffffff_ffffffff_ff000000_00000000,
    0xffffffff_ffffffff_ffff0000_00000000,
    0xffffffff_ffffffff_ffffff00_00000000,
    0xffffffff_ffffffff_ffffffff_00000000,
    0xffffffff_ffffffff_ffffffff_ff000000,
    0xffffffff_ffffffff_ffffffff_ffff0000,
    0xffffffff_ffffffff_ffffffff_ffffff00,
    0xffffffff_ffffffff_ffffffff_ffffffff,
];

/// The byte at a place, and 0 behind the last one.
fn byte_or_zero(bytes: &[u8], place: usize) -> u8
    ensures { result ≡ slice_index bytes.now place }
{
    if place < bytes.len() { bytes[place] } else { 0 }
}

/// The front of a text of these bytes: its first 16 bytes as a number, the first of them the highest, with zeros behind
/// fewer.
pub fn front_of(bytes: &[u8]) -> u128
    ensures { result ≡ front_number bytes.now }
{
    let mut number: u128 = 0;
    for place in 0..16 {
        let high = number * 256;
        number = high + byte_or_zero(bytes, place) as u128;
    }
    number
}

/// The front of a text of these bytes, of which there are 16 at least.
#[inline(always)]
fn long_front(bytes: &[u8]) -> u128
    requires { 16 ≤ length bytes.now }
    ensures { result ≡ front_number bytes.now }
{
    u128::from_be_bytes([
        bytes[0], bytes[1], bytes[2], bytes[3], bytes[4], bytes[5], bytes[6], bytes[7], bytes[8],
        bytes[9], bytes[10], bytes[11], bytes[12], bytes[13], bytes[14], bytes[15],
    ])
}

/// The number with zeros in place of the bytes behind so many of its 16.
#[inline(always)]
fn first_of(front: u128, len: usize) -> u128
    ensures { result ≡ front / 2 ^ (8 * (16 - len)) * 2 ^ (8 * (16 - len)) }
{
    front & KEPT[len.min(16)]
}

/// The front of the text between two places of a buffer. Where there are 16 bytes from its first one on, they are read
/// at once, and those of the next texts are taken away.
#[inline(always)]
fn front_between(bytes: &[u8], from: usize, to: usize) -> u128
    requires forwards { from ≤ to }
    requires inside { to ≤ length bytes.now }
    ensures { result ≡ front_number (slice_range bytes.now from to) }
{
    let left = bytes.len() - from;
    if left < 16 {
        front_of(&bytes[from..to])
    } else {
        first_of(long_front(&bytes[from..]), to - from)
    }
}

/// The front of the text of a row.
#[inline(always)]
pub(crate) fn front_in(bytes: &[u8], ends: &[usize], row: usize) -> u128
    requires texts { AreTexts bytes.now ends.now }
    requires row { row < length ends.now }
    ensures { option_map front_number (slice_get (cut bytes.now 0 ends.now) row) ≡ Some result }
{
    front_between(bytes, start_of(ends, row), ends[row])
}
