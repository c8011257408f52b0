//! Parts of the number that words spell.

ghost use Rattle.std.specs.Prelude.{◌≡◌, ◌+◌, ◌-◌, ◌*◌, ◌/◌, ◌%◌, ◌^◌, ◌<◌, ◌≤◌, ◌==◌, ◌↔◌, IsTrue, min, length, slice_index};
ghost use Rattle.std.specs.Int.{bit_at};
ghost use Rattle.std.specs.Simd.Lanes.{mask_l, number_l};
ghost use Rattle.vx_masks.specs.Words.{number_of, Small};

/// Each word is a number of 64 bits.
pub(crate) fn words_fit(words: &[u64])
    ensures { Small 64 words.now }
{}

/// The word at this index, and 0 past the last one.
pub(crate) fn word_or_zero(words: &[u64], index: usize) -> u64
    ensures { result ≡ slice_index words.now index }
{
    if index < words.len() { words[index] } else { 0 }
}

/// The bit of a row.
pub(crate) fn bit_of(words: &[u64], row: u64) -> bool
    requires { row / 64 < length words.now }
    ensures { result ≡ (bit_at (number_of words.now) row == 1) }
{
    words[(row / 64) as usize] >> (row % 64) & 1 == 1
}

/// So many ones, from the lowest bit on.
pub(crate) fn low_ones(count: u64) -> u64
    requires { count ≤ 64 }
    ensures { result ≡ 2 ^ count - 1 }
{
    if count == 64 {
        u64::MAX
    } else {
        (1 << count) - 1
    }
}

/// The 64 bits from this place on.
fn word_at(words: &[u64], place: u64) -> u64
    ensures { result ≡ number_of words.now / 2 ^ place % 2 ^ 64 }
{
    let index = (place / 64) as usize;
    let shift = place % 64;
    let low = word_or_zero(words, index) >> shift;
    if shift == 0 {
        low
    } else {
        word_or_zero(words, index + 1) << (64 - shift) | low
    }
}

/// So many bits from this place on.
pub(crate) fn part_of(words: &[u64], place: u64, count: u64) -> u64
    requires { count ≤ 64 }
    ensures { result ≡ number_of words.now / 2 ^ place % 2 ^ count }
{
    word_at(words, place) & low_ones(count)
}

/// How many of so many rows lie in the word at this index.
pub(crate) fn part_len(len: u64, index: u64) -> u64
    requires { 64 * index < len }
    ensures { result ≡ min 64 (len - 64 * index) }
{
    (len - 64 * index).min(64)
}

/// The word whose lowest bits are these truth values.
pub(crate) fn packed_word(bits: &[bool]) -> u64
    requires { length bits.now ≤ 64 }
    ensures { result ≡ mask_l bits.now }
{
    let mut word = 0;
    for (place, bit) in bits.iter().enumerate() {
        word += (*bit as u64) << place;
    }
    word
}

/// The word whose lowest bytes are these.
pub(crate) fn word_of_bytes(bytes: &[u8]) -> u64
    requires { length bytes.now ≤ 8 }
    ensures { result ≡ number_l (2 ^ 8) bytes.now }
{
    let mut word = 0;
    for (place, byte) in bytes.iter().enumerate() {
        word += (*byte as u64) << (8 * place);
    }
    word
}

/// The byte at this index, and 0 past the last one.
fn byte_or_zero(bytes: &[u8], index: usize) -> u8
    ensures { result ≡ slice_index bytes.now index }
{
    if index < bytes.len() { bytes[index] } else { 0 }
}

/// Whether no bit past so many rows is set.
pub(crate) fn is_clear_past(bytes: &[u8], rows: u64) -> bool
    requires { length bytes.now ≡ (rows + 7) / 8 }
    ensures { IsTrue result ↔ (number_l (2 ^ 8) bytes.now < 2 ^ rows) }
{
    let last = byte_or_zero(bytes, (rows / 8) as usize);
    last >> (rows % 8) == 0
}
