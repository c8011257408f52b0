//! The file as words: its bytes, where its segments lie, and the script that its source keeps to.

use std::alloc::Global;
use vx_base::{Script, ScriptSource, SegmentLocation};

/// Adds the byte of the hexadecimal digits, so many times. What has no room is left out, here and below.
fn push_bytes(digits: &str, count: u64, bytes: &mut Vec<u8>) {
    let byte = u8::from_str_radix(digits, 16).unwrap_or(0);
    for _time in 0..count {
        let _pushed = bytes.push(byte).ok();
    }
}

/// The bytes that the words write: `07*200` is the byte 07 two hundred times.
fn bytes_of(alloc: Global, words: &str) -> Vec<u8> {
    let mut bytes = Vec::new(alloc);
    for word in words.split_whitespace() {
        let (digits, count) = word.split_once('*').unwrap_or((word, "1"));
        push_bytes(digits, count.parse::<u64>().unwrap_or(0), &mut bytes);
    }
    bytes
}

/// The location of a range, as `4+2` for two bytes from the fourth on.
fn place_of(word: &str) -> SegmentLocation {
    let (offset, length) = word.split_once('+').unwrap_or((word, ""));
    SegmentLocation {
        offset: offset.parse::<u64>().unwrap_or(0),
        length: length.parse::<u32>().unwrap_or(0),
        alignment: 1,
    }
}

/// The locations of these ranges.
pub(crate) fn places_of(alloc: Global, words: &str) -> Vec<SegmentLocation> {
    let mut places = Vec::new(alloc);
    for word in words.split_whitespace() {
        let _pushed = places.push(place_of(word)).ok();
    }
    places
}

/// The numbers between commas; `-`, and a missing word, is none.
pub(crate) fn numbers_of(alloc: Global, text: &str) -> Vec<u64> {
    let mut numbers = Vec::new(alloc);
    for word in text.split(',') {
        if word != "-" && !word.is_empty() {
            let _pushed = numbers.push(word.parse::<u64>().unwrap_or(0)).ok();
        }
    }
    numbers
}

/// The script that is written so: the requests that fail, the polls that fail, the waits and the order.
fn script_of(alloc: Global, words: &str) -> Script {
    let (requests, words) = words.split_once(' ').unwrap_or((words, ""));
    let (polls, words) = words.split_once(' ').unwrap_or((words, ""));
    let (waits, order) = words.split_once(' ').unwrap_or((words, ""));
    Script {
        fail_requests: numbers_of(alloc, requests),
        fail_polls: numbers_of(alloc, polls),
        waits: numbers_of(alloc, waits),
        order: numbers_of(alloc, order),
    }
}

/// The source of a file and a script.
pub(crate) fn source_of(alloc: Global, bytes: &str, script: &str) -> ScriptSource {
    ScriptSource::new(alloc, bytes_of(alloc, bytes), script_of(alloc, script))
}
