//! The bytes of segments, as words. They are made when they are delivered, so that many of them take no memory at once.

use std::alloc::{AllocError, Global};

/// The words for the bytes of each of some segments, from the first on, up to the end.
#[derive(Drop)]
pub(crate) struct Segment {
    first: u32,
    end: u32,
    words: String,
}

/// Adds the byte of the hexadecimal digits; behind a `*` stands how many times.
fn push_bytes(word: &str, bytes: &mut Vec<u8>) -> Result<(), AllocError> {
    let (digits, count) = word.split_once('*').unwrap_or((word, "1"));
    let byte = u8::from_str_radix(digits, 16).unwrap_or(0);
    for _time in 0..count.parse::<u64>().unwrap_or(0) {
        bytes.push(byte)?;
    }
    Ok(())
}

/// The bytes of the words. `07*200` is the byte 07 two hundred times. What has no room is left out.
fn bytes_in(alloc: Global, words: &str) -> Vec<u8> {
    let mut bytes = Vec::new(alloc);
    for word in words.split_whitespace() {
        let _pushed = push_bytes(word, &mut bytes).ok();
    }
    bytes
}

/// The bytes of a segment, the last that were put there; none where there are none, or no room for them.
pub(crate) fn bytes_of(alloc: Global, file: &[Segment], number: u32) -> Vec<u8> {
    for segment in file.iter().rev() {
        if segment.first <= number && number < segment.end {
            return bytes_in(alloc, segment.words.as_str());
        }
    }
    Vec::new(alloc)
}

/// Puts bytes in the place of those of a segment, or of each segment of a range.
pub(crate) fn take_segments(
    alloc: Global,
    file: &mut Vec<Segment>,
    words: &str,
) -> Result<(), AllocError> {
    let (numbers, words) = words.split_once(' ').unwrap_or((words, ""));
    let (first, end) = numbers.split_once("..").unwrap_or((numbers, ""));
    let first = first.parse::<u32>().unwrap_or(0);
    let end = end.parse::<u32>().unwrap_or(first.saturating_add(1));
    let words = String::from_str(alloc, words)?;
    file.push(Segment { first, end, words })?;
    Ok(())
}
