//! Sources over memory, one of them with a script: reads that are started, polled and forgotten.

use crate::fields::{bytes_of, list_of, number_of, three, two, write_bytes};
use std::alloc::{AllocError, Global};
use vx_base::{
    AskedRange, MemorySource, Script, ScriptSource, SegmentLocation, SegmentSource, SourceError,
};

/// The location that is written as its offset and its length.
fn location_of(words: &str) -> SegmentLocation {
    let (offset, length) = words.split_once(' ').unwrap_or((words, ""));
    SegmentLocation {
        offset: number_of(offset),
        length: length.parse::<u32>().unwrap_or(0),
        alignment: 1,
    }
}

/// Appends what a poll answered.
fn write_polled(
    polled: &Result<Option<Vec<u8>>, SourceError>,
    out: &mut String,
) -> Result<(), AllocError> {
    match polled {
        Ok(Some(bytes)) => write_bytes(bytes.as_slice(), out),
        Ok(None) => out.push_str("goes on"),
        Err(error) => write!(out, "{error}"),
    }
}

/// Appends how often a source failed and found nothing, and what it was asked for.
pub(crate) fn write_counts(
    faults: u64,
    idle: u64,
    asked: &[AskedRange],
    out: &mut String,
) -> Result<(), AllocError> {
    write!(out, "{faults} faults, {idle} idle, asked")?;
    for range in asked {
        write!(out, " {}+{}", range.offset, range.length)?;
    }
    Ok(())
}

/// Starts a read of the file in memory, and polls it once.
pub(crate) fn write_fetched(
    source: &mut MemorySource,
    words: &str,
    out: &mut String,
) -> Result<(), AllocError> {
    let Ok(ticket) = source.request(0, location_of(words)) else {
        return Ok(());
    };
    let polled = source.poll(ticket);
    write!(out, "ticket {ticket}: ")
        .and(write_polled(&polled, out))
        .and(write!(out, ", {} faults", source.faults()))
}

/// Starts a read of the file in memory, and forgets it.
pub(crate) fn write_forgotten(
    source: &mut MemorySource,
    words: &str,
    out: &mut String,
) -> Result<(), AllocError> {
    let Ok(ticket) = source.request(0, location_of(words)) else {
        return Ok(());
    };
    source.clear();
    write!(out, "ticket {ticket}")
}

/// Sets the file in memory.
pub(crate) fn set_memory(alloc: Global, source: &mut MemorySource, rest: &str) {
    *source = MemorySource::new(alloc, bytes_of(alloc, rest));
}

/// Sets the script of the file of the bytes 10 to 15: the requests that fail, the polls that fail, the waits and the order.
pub(crate) fn set_script(alloc: Global, source: &mut ScriptSource, rest: &str) {
    let (requests, polls, rest) = three(rest);
    let (waits, order) = two(rest);
    let script = Script {
        fail_requests: list_of(alloc, requests),
        fail_polls: list_of(alloc, polls),
        waits: list_of(alloc, waits),
        order: list_of(alloc, order),
    };
    *source = ScriptSource::new(alloc, bytes_of(alloc, "0a 0b 0c 0d 0e 0f"), script);
}

/// Starts a read of the file with a script.
pub(crate) fn write_requested(
    source: &mut ScriptSource,
    words: &str,
    out: &mut String,
) -> Result<(), AllocError> {
    match source.request(0, location_of(words)) {
        Ok(ticket) => write!(out, "ticket {ticket}"),
        Err(error) => write!(out, "{error}"),
    }
}

/// Polls a read of the file with a script.
pub(crate) fn write_poll(
    source: &mut ScriptSource,
    word: &str,
    out: &mut String,
) -> Result<(), AllocError> {
    let ticket = number_of(word);
    if !source.is_in_flight(ticket) {
        return out.push_str("not in flight");
    }
    write_polled(&source.poll(ticket), out)
}
