//! A batch of many fetches.

use crate::batches::{OWNER, request};
use crate::sources::{Noting, quiet};
use std::alloc::{AllocError, Global};
use vx_base::SegmentLocation;
use vx_io::{IoIntent, IoRequest, SegmentIoSource, SegmentRanges, segment_ranges};

/// The location of each byte of a file of so many.
fn places_of(alloc: Global, count: u16) -> Result<Vec<SegmentLocation>, AllocError> {
    let mut places = Vec::new(alloc);
    for number in 0..count {
        let place = SegmentLocation {
            offset: number as u64,
            length: 1,
            alignment: 1,
        };
        places.push(place)?;
    }
    Ok(places)
}

/// A source of a file of so many bytes, by whose script the read of number `n` waits `7 n` polls modulo 5.
fn source_of(alloc: Global, count: u16) -> Result<Noting, AllocError> {
    let mut script = quiet(alloc);
    let mut file = Vec::new(alloc);
    for number in 0..count {
        script.waits.push(number as u64 * 7 % 5)?;
        file.push((number % 251) as u8)?;
    }
    Ok(Noting::new(alloc, file, script))
}

/// A batch of a fetch of each location.
fn batch_of(alloc: Global, places: &[SegmentLocation]) -> Result<Vec<IoRequest>, AllocError> {
    let mut batch = Vec::new(alloc);
    for place in places {
        let number = u32::try_from(place.offset).unwrap_or(0);
        batch.push(request(IoIntent::Fetch, number, *place))?;
    }
    Ok(batch)
}

/// Polls so often, and tells how many fetches ended with their own bytes, and their numbers in the order of their
/// end, each as a digit in base 31, in 64 bits.
fn drain(session: &mut SegmentIoSource<'_, Noting>, polls: u32) -> (u64, u64) {
    let (mut ended, mut order) = (0u64, 0u64);
    for _poll in 0..polls {
        if let Ok(Some(completion)) = session.poll() {
            let number = completion.request.0 as u64;
            if completion.bytes.as_slice() == [(number % 251) as u8].as_slice() {
                order = order.wrapping_mul(31).wrapping_add(number);
                ended = ended.wrapping_add(1);
            }
        }
    }
    (ended, order)
}

/// How many fetches of a batch ended in so many polls, and in which order.
fn write_ended(
    alloc: Global,
    source: &mut Noting,
    ranges: &SegmentRanges,
    batch: Vec<IoRequest>,
    polls: u32,
    out: &mut String,
) -> Result<(), AllocError> {
    let mut session = SegmentIoSource::new(alloc, source, ranges);
    if session.submit(OWNER, batch).is_err() {
        drop(session);
        return out.push_str("refused");
    }
    let (ended, order) = drain(&mut session, polls);
    let left = session.in_flight();
    drop(session);
    write!(out, "{ended} ended, {left} left, order {order}")
}

/// The answer to `many COUNT`: how many fetches of one batch of so many ended, and in which order.
pub(crate) fn write_many(alloc: Global, count: u16, out: &mut String) -> Result<(), AllocError> {
    let places = places_of(alloc, count)?;
    if places.len() > 65535 {
        return Ok(());
    }
    let ranges = segment_ranges(alloc, &places)?;
    let batch = batch_of(alloc, &places)?;
    let mut source = source_of(alloc, count)?;
    write_ended(alloc, &mut source, &ranges, batch, count as u32 * 5, out)
}
